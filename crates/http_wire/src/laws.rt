//! Laws of requests.
ghost use Rattle.std.specs.Prelude.{◌≡◌, ◌++◌, ℕ, List, true, false};
ghost use Rattle.http_wire.specs.declared.request.Request.{Request};
ghost use Rattle.http_wire.specs.Requests.{BehindHead, IsBad, IsBodyOpen, IsHeadFull, IsOpen, IsRequest, IsUndecided, is_blank};

/// No request begins another: bytes begin with at most one request, which ends in one place, whatever follows.
pub fn no_request_begins_another()
    ensures { (t u x y : List ℕ) (r s : Request) → IsRequest t r → IsRequest u s → t ++ x ≡ u ++ y → (t ≡ u) × (r ≡ s) }
{}

/// Bytes that begin with a request are neither part of one, nor never one, nor empty lines.
pub fn a_request_is_whole()
    ensures not_open { (t y : List ℕ) (r : Request) → IsRequest t r → IsOpen (t ++ y) → ⊥ }
    ensures not_full { (t y : List ℕ) (r : Request) → IsRequest t r → IsHeadFull (t ++ y) → ⊥ }
    ensures not_bad { (t y : List ℕ) (r : Request) → IsRequest t r → IsBad (t ++ y) → ⊥ }
    ensures not_blank { (t y : List ℕ) (r : Request) → IsRequest t r → is_blank (t ++ y) ≡ false }
{}

/// Bytes that are no request stay so, whatever follows. So what is answered as malformed is the front of no request.
pub fn malformed_bytes_stay_so()
    ensures lasts { (seen more : List ℕ) → IsBad seen → IsBad (seen ++ more) }
    ensures no_front { (t y seen more : List ℕ) (r : Request) → IsRequest t r → t ++ y ≡ seen ++ more → IsBad seen → ⊥ }
{}

/// Bytes are not both part of a request and never one, but where the grammar's parser may answer either: an open head, or open
/// trailers, of which each whole one has over 100 lines.
pub fn part_of_a_request_is_not_malformed()
    ensures { (seen : List ℕ) → IsOpen seen → IsBad seen → IsUndecided seen }
{}

/// Empty lines alone are part of no body, and may be followed by a head, so they are not malformed.
pub fn empty_lines_are_nothing()
    ensures not_body { (seen : List ℕ) → is_blank seen ≡ true → BehindHead IsBodyOpen seen → ⊥ }
    ensures not_bad { (seen : List ℕ) → is_blank seen ≡ true → IsBad seen → ⊥ }
{}
