//! Where wires come from.
ghost use Rattle.std.specs.Prelude.{◌≡◌, ℕ, IfSome};
ghost use Rattle.push_ports.specs.Accepts.{AcceptFails, given_after, lulls_after_accept};
ghost use Rattle.push_ports.specs.Offers.{NoneFails, count_after};

use crate::bell::Bell;
use push_model::NoMemory;
use push_outside::Wire;

/// What an accept gave.
#[derive(Drop)]
pub enum Accepted<W> {
    /// A new wire.
    Got(W),
    /// None now; a later accept may give one.
    NotYet,
    /// None, since the accept failed; a later one may still give a wire.
    Failed,
}

/// Gives wires, one after the other.
///
/// `faults` is a count of failures, up to 2^64 - 1, that never falls. `lulls` is how many accepts in a row answered `NotYet`, up
/// to 2^64 - 1, and 0 after any other answer. `given` is how many wires it gave, up to 2^64 - 1. Only `accept` changes these.
pub trait Listener: Drop {
    /// The wires that it gives.
    type W: Wire + Drop;

    /// What ends its wait.
    type B: Bell;

    ghost faults: { Self → ℕ };

    ghost lulls: { Self → ℕ };

    ghost given: { Self → ℕ };

    /// Gives the next wire, if there is one now. `Failed` comes only where `faults` rose, or stood at its last value; any other
    /// answer leaves `faults` as it was.
    fn accept(&mut self) -> Accepted<Self::W>
        ensures cause { AcceptFails result (faults self.old) (faults self.new) }
        ensures lulls { lulls self.new ≡ lulls_after_accept result (lulls self.old) }
        ensures given { given self.new ≡ given_after result (given self.old) };

    /// A bell that ends a wait of this listener. `NoMemory` leaves the listener as it is.
    fn bell(&self) -> Result<Self::B, NoMemory>;

    /// A second listener that gives wires of the same port, where this one can make it. It has counts of its own, and has given
    /// none yet.
    fn twin(&mut self) -> Option<Self>
        ensures fresh { IfSome result (λ twin. given twin ≡ 0) }
        ensures calm { IfSome result (λ twin. lulls twin ≡ 0) }
        ensures faults { faults self.new ≡ faults self.old }
        ensures lulls { lulls self.new ≡ lulls self.old }
        ensures given { given self.new ≡ given self.old };

    /// The number of a wire that it gave, counted from 1 in the order of giving, for which something came since it was last
    /// named. A hint: news may be told late or not at all, and a number may stand for nothing.
    fn next_news(&mut self) -> Option<u64>
        ensures faults { faults self.new ≡ faults self.old }
        ensures lulls { lulls self.new ≡ lulls self.old }
        ensures given { given self.new ≡ given self.old };

    /// Looks for what has come in, for the accepts and the news that follow. Where the caller is idle, a real listener first
    /// waits until something comes in, its bell is rung or some time has passed; a ring since the last call counts too.
    fn wait(&mut self, idle: bool)
        ensures faults { faults self.new ≡ faults self.old }
        ensures lulls { lulls self.new ≡ lulls self.old }
        ensures given { given self.new ≡ given self.old };
}

/// Gives listeners, one for each port that it is asked for.
///
/// `faults` is a count of failures, up to 2^64 - 1, that never falls, and `given` is how many listeners it gave, up to 2^64 - 1.
pub trait Ports {
    /// The listeners that it gives.
    type L: Listener;

    ghost faults: { Self → ℕ };

    ghost given: { Self → ℕ };

    /// Gives a listener for this port, from 1. The listener has given no wire yet. `None` comes only where `faults` rose, or
    /// stood at its last value; else `faults` stays as it was.
    fn listen(&mut self, port: u16) -> Option<Self::L>
        ensures cause { NoneFails result (faults self.old) (faults self.new) }
        ensures given { given self.new ≡ count_after result (given self.old) }
        ensures fresh { IfSome result (λ listener. Self.L.given listener ≡ 0) }
        ensures calm { IfSome result (λ listener. Self.L.lulls listener ≡ 0) };
}
