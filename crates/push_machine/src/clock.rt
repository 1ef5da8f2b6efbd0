//! The clock of this machine.
ghost use Rattle.std.specs.Prelude.{None, ◌≡◌, ◌<◌, ◌^◌};

use push_outside::Clock;
use std::time::{self, Duration, SystemTime, UNIX_EPOCH};

// The last moment that a clock tells, in milliseconds.
const LAST_MILLIS: u128 = 9_223_372_036_854_775_807;

/// The wall clock of this machine, in milliseconds since 1970 began (UTC). Where it can't be read, or is set before 1970, it is 0,
/// and from 2^63 - 1 on it is that number.
#[derive(Clone, Copy, Drop)]
pub struct MachineClock<R> {
    machine: R,
}

// So many whole milliseconds, up to the last that a clock tells.
fn whole_millis(time: Duration) -> u64
    ensures { result < 2 ^ 63 }
{
    let millis = time.as_millis();
    if millis < LAST_MILLIS {
        millis as u64
    } else {
        LAST_MILLIS as u64
    }
}

impl<R: time::Clock> MachineClock<R> {
    /// The wall clock that this machine tells.
    pub fn new(machine: R) -> MachineClock<R> {
        MachineClock { machine }
    }
}

impl<R: time::Clock> Clock for MachineClock<R> {
    ghost moment = { λ _. None };

    fn millis(&self) -> u64 {
        let Ok(now) = SystemTime::now(&self.machine) else {
            return 0;
        };
        match now.duration_since(UNIX_EPOCH) {
            Ok(time) => whole_millis(time),
            Err(_) => 0,
        }
    }
}
