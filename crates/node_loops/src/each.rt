//! What serves wires.
ghost use Rattle.std.specs.Prelude.{◌≡◌, ℕ};
ghost use Rattle.push_outside.specs.Counts.{next_count};

use push_outside::Wire;

/// Serves one connection after the other.
///
/// `served` is how many wires it served, up to 2^64 - 1. `goes_on` says that the second value may be what the first became by
/// serving, so that it has what the first was made with.
pub trait Each<W: Wire> {
    ghost served: { Self → ℕ };

    ghost goes_on: { Self → Self → Type 0 };

    /// Serves the connection of this wire to its end. What it was made with stays.
    fn serve(&mut self, wire: W)
        ensures served { served self.new ≡ next_count (served self.old) }
        ensures goes_on { goes_on self.old self.new };

    /// By serving none it stays as it is.
    ghost none_served: { (x : Self) → goes_on x x };

    /// What is served later adds to what was served before.
    ghost more_served: { (x y z : Self) → goes_on x y → goes_on y z → goes_on x z };
}
