//! Bells, which end the sleep of a node's loop.

use push_model::NoMemory;

/// Wakes the loop of one node. Whoever posts mail to the node rings its bell, from any thread. No clause says that a ring is
/// heard, so what a node promises doesn't rest on it: a loop that heard none looks again after a while.
pub trait Bell: Drop {
    /// Ends the loop's present sleep, or its next one. It waits for nobody and takes no memory.
    fn ring(&self);

    /// The same bell once more, for another thread. `NoMemory` leaves this one as it is.
    fn again(&self) -> Result<Self, NoMemory>;
}

/// The bell of a loop that never sleeps: a ring does nothing.
#[derive(Clone, Copy, Debug)]
pub struct NoBell;

impl Bell for NoBell {
    fn ring(&self) {}

    fn again(&self) -> Result<NoBell, NoMemory> {
        Ok(NoBell)
    }
}
