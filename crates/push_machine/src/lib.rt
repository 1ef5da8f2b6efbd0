//! The clock of this machine, and random bytes from a seed.
//!
//! No contract says what time it is, or that bytes can't be guessed; the code here is proved to be safe, to end, and to keep to the
//! ranges that its traits name.
#![tactic(auto)]

mod clock;
mod draw;

pub use clock::MachineClock;
pub use draw::SeededDraw;
