//! The loop of an endpoint.
ghost use Rattle.std.specs.Prelude.{◌≡◌, true};
ghost use Rattle.node_loops.specs.Together.{RoseTogether};

use crate::each::Each;
use crate::gate::Gate;
use push_ports::{Accepted, Listener};
use std::sync::Wait;

/// Serves one connection after the other to its end, until a stop of the gate answers true, and then hands back what it was
/// given. It has served each wire that the listener gave meanwhile.
///
/// It asks the gate whether to stop before each accept, and tells it of the nth wire before that is served. Where an accept gave
/// none, it waits until something comes in. No fault of the listener ends it.
pub fn endpoint_loop<R: Wait, L: Listener, E: Each<L::W>, T: Gate>(
    rt: &R,
    listener: &mut L,
    each: E,
    gate: T,
) -> (E, T)
    ensures stopped { T.stopped result.1 ≡ true }
    ensures served { RoseTogether (L.given listener.old) (L.given listener.new) (E.served each) (E.served result.0) }
    ensures goes_on { E.goes_on each result.0 }
{
    let mut each = each;
    let mut gate = gate;
    let mut wires = 0u64;
    for _ in rt.forever() {
        if gate.stop() {
            return (each, gate);
        }
        match listener.accept() {
            Accepted::Got(wire) => {
                wires = wires.saturating_add(1);
                gate.turn(wires);
                each.serve(wire);
            }
            Accepted::NotYet | Accepted::Failed => listener.wait(true),
        }
    }
    unreachable!()
}
