//! Worked examples of the definitions, each for a reader to check at a glance.
ghost use Rattle.std.specs.Prelude.{◌≡◌, ◌∷◌, [], true, false, Some, None, codes};
ghost use Rattle.http_wire.specs.declared.framing.Framing.TheVariants.{Chunked, Length};
ghost use Rattle.http_wire.specs.Lines.{Line};
ghost use Rattle.http_wire.specs.Framings.{framing_by, length_value};
ghost use Rattle.http_wire.specs.Heads.{values_of};
ghost use Rattle.http_wire.specs.Replies.{allow_line, body_bytes, body_lines, close_line, location_line, phrase, ttl_line};
ghost use Rattle.http_wire.specs.Requests.{is_blank, is_empty_body};
ghost use Rattle.http_wire.specs.declared.body.Body.TheVariants.{Bytes, TooLong};

/// A length is digits alone, below 2^63.
pub fn lengths_are_digits()
    ensures plain { length_value (codes "12") ≡ Some 12 }
    ensures zeros { length_value (codes "007") ≡ Some 7 }
    ensures empty { length_value [] ≡ None }
    ensures sign { length_value (codes "+2") ≡ None }
    ensures blank { length_value (codes "1 2") ≡ None }
    ensures greatest { length_value (codes "9223372036854775807") ≡ Some 9223372036854775807 }
    ensures greater { length_value (codes "9223372036854775808") ≡ None }
{}

/// A head frames its body in one way or not at all.
pub fn framings_are_lone()
    ensures none { framing_by [] [] ≡ Some (Length 0) }
    ensures length { framing_by (codes "12" ∷ []) [] ≡ Some (Length 12) }
    ensures chunked { framing_by [] (codes "Chunked" ∷ []) ≡ Some Chunked }
    ensures two_lengths { framing_by (codes "2" ∷ codes "2" ∷ []) [] ≡ None }
    ensures both { framing_by (codes "2" ∷ []) (codes "chunked" ∷ []) ≡ None }
    ensures two_codings { framing_by [] (codes "chunked" ∷ codes "chunked" ∷ []) ≡ None }
    ensures listed { framing_by [] (codes "chunked, chunked" ∷ []) ≡ None }
    ensures other { framing_by [] (codes "gzip" ∷ []) ≡ None }
{}

/// Lines are found by their name, in order.
pub fn lines_are_found_by_name()
    ensures { values_of (codes "b") ((record { name = codes "b"; value = codes "1" }) ∷ (record { name = codes "a"; value = codes "2" }) ∷ (record { name = codes "b"; value = codes "3" }) ∷ []) ≡ codes "1" ∷ codes "3" ∷ [] }
{}

/// Empty lines are whole: a lone CR is none.
pub fn empty_lines_are_whole()
    ensures none { is_blank [] ≡ true }
    ensures some { is_blank (codes "\r\n\n\r\n") ≡ true }
    ensures half { is_blank (codes "\n\r") ≡ false }
    ensures more { is_blank (codes "\r\nG") ≡ false }
    ensures apart { is_blank (codes "\r\r\n") ≡ false }
{}

/// A body that is too long is not empty.
pub fn bodies_are_empty()
    ensures empty { is_empty_body (Bytes []) ≡ true }
    ensures some { is_empty_body (Bytes (codes "x")) ≡ false }
    ensures long { is_empty_body TooLong ≡ false }
{}

/// The parts of a reply that stand only where they apply.
pub fn replies_are_spelled()
    ensures phrase { phrase 404 ≡ codes "Not Found" }
    ensures last_phrase { phrase 503 ≡ codes "Service Unavailable" }
    ensures allow { allow_line (Some (codes "POST")) ≡ codes "Allow: POST\r\n" }
    ensures no_allow { allow_line None ≡ [] }
    ensures close { close_line true ≡ codes "Connection: close\r\n" }
    ensures stays { close_line false ≡ [] }
    ensures no_content { body_lines 204 None ≡ [] }
    ensures body { body_bytes (Some (codes "{}")) ≡ codes "{}" }
    ensures no_body { body_bytes None ≡ [] }
    ensures location { location_line (Some (record { shard = 3; number = 26 })) ≡ codes "Location: /m/03-000000000000001a\r\n" }
    ensures no_location { location_line None ≡ [] }
    ensures no_ttl { ttl_line None ≡ [] }
{}
