//! Small laws that hold the definition of counts that rise together fast.
ghost use Rattle.std.specs.Prelude.{◌≡◌, ℕ};
ghost use Rattle.node_loops.specs.Together.{RoseTogether};

/// Where one of two counts that rose together stands still, so does the other; where one rose by two, the other may have risen by two.
pub fn counts_rise_together()
    ensures twice { RoseTogether 5 7 0 2 }
    ensures first { (a a' : ℕ) → RoseTogether a a' 0 0 → a' ≡ a }
    ensures second { (b b' : ℕ) → RoseTogether 0 0 b b' → b' ≡ b }
{}
