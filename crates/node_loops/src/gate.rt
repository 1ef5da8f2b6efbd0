//! What stops the loops of a node.
ghost use Rattle.std.specs.Prelude.{◌≡◌, ◌||◌, Bool, false, IfOk};

use push_model::NoMemory;
use std::alloc::Global;
use std::marker::Model;
use std::sync::Arc;
use std::sync::atomic::{AtomicBool, Ordering};

/// Tells a loop when to stop.
///
/// `stopped` is whether a stop of it has answered true.
pub trait Gate {
    ghost stopped: { Self → Bool };

    /// Whether the loop is to stop now.
    fn stop(&mut self) -> bool
        ensures { stopped self.new ≡ (stopped self.old || result) };

    /// Hears of the loop's nth turn, counted from 1 up to 2^64 - 1. It may hold the loop up.
    fn turn(&mut self, n: u64)
        ensures { stopped self.new ≡ stopped self.old };
}

/// A gate that one call stops for all loops that have it. Contracts see whether a stop of this very gate has answered true; that
/// one does after `set` no clause says, since the flag is other threads' too.
#[derive(Drop)]
pub struct StopGate {
    flag: Arc<AtomicBool>,
    stopped: bool,
}

impl Model for StopGate {
    ghost use Rattle.std.specs.Prelude.{Bool};

    ghost Value = { Bool };

    ghost view = { λ gate. gate.stopped };
}

impl StopGate {
    /// A gate that isn't set.
    pub fn new(alloc: Global) -> Result<StopGate, NoMemory>
        ensures { IfOk result (λ gate. gate ≡ false) }
    {
        match Arc::new(alloc, AtomicBool::new(false)) {
            Ok(flag) => Ok(StopGate {
                flag,
                stopped: false,
            }),
            Err(_) => Err(NoMemory),
        }
    }

    /// The same gate once more, for another loop. No stop of that one has answered yet. `NoMemory` leaves this one as it is.
    pub fn share(&self) -> Result<StopGate, NoMemory>
        ensures { IfOk result (λ gate. gate ≡ false) }
    {
        match Arc::try_clone(&self.flag) {
            Ok(flag) => Ok(StopGate {
                flag,
                stopped: false,
            }),
            Err(_) => Err(NoMemory),
        }
    }

    /// From now on each stop of this gate, and of those that it shares its flag with, answers true. It takes no memory.
    pub fn set(&self) {
        self.flag.store(true, Ordering::SeqCst);
    }
}

impl Gate for StopGate {
    ghost stopped = { λ gate. gate };

    fn stop(&mut self) -> bool {
        let is_set = self.flag.load(Ordering::SeqCst);
        self.stopped = self.stopped || is_set;
        is_set
    }

    /// Does nothing.
    fn turn(&mut self, _n: u64) {}
}
