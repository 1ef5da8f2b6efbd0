//! Worked examples of the definitions, each for a reader to check at a glance.
ghost use Rattle.std.specs.Prelude.{◌≡◌, ℕ, codes};
ghost use Rattle.push_json.specs.Bodies.{IsRow, error_body};

/// A body over 4,096 bytes is refused as 413 with the number 104, in these words.
pub fn long_bodies_are_refused_so()
    ensures row { IsRow 413 104 }
    ensures text { error_body 413 104 ≡ codes "{\"code\":413,\"errno\":104,\"error\":\"Payload Too Large\",\"message\":\"Body over 4096 bytes\"}" }
{}

/// Each refusal has one status code.
pub fn refusals_have_one_code()
    ensures { (c d e : ℕ) → IsRow c e → IsRow d e → c ≡ d }
{}
