//! What passes have that were just made.
ghost use Rattle.std.specs.Prelude.{ℕ, List};
ghost use Rattle.push_model.specs.DeskViews.{Calls, DeskView, Made};
ghost use Rattle.push_exchange.specs.Boards.{IsFresh, IsSplit};
ghost use Rattle.http_front.specs.OpNumbers.{IsAbove};
ghost use Rattle.node_runner.specs.Openings.{OpensEmpty};

/// The first passes of an exchange are over shards that began empty, and so are those that later calls leave, and those that are
/// split off them. A flight of any number is new to passes that were just split off.
pub fn new_passes_began_no_flight()
    ensures fresh { (v : DeskView) → IsFresh v → OpensEmpty v }
    ensures later { (a b : DeskView) (ms : List Made) → Calls a b ms → OpensEmpty a → OpensEmpty b }
    ensures split { (a b : DeskView) → IsSplit a b → OpensEmpty a → OpensEmpty b }
    ensures above { (a b : DeskView) (n : ℕ) → IsSplit a b → OpensEmpty a → IsAbove b n }
{}
