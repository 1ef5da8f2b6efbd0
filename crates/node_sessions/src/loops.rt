//! The loop itself.
ghost use Rattle.std.specs.Prelude.{◌≡◌, [], true};
ghost use Rattle.push_model.specs.DeskViews.{IsHonest};
ghost use Rattle.node_sessions.specs.Pumps.{served};
ghost use Rattle.node_sessions.specs.Loops.{GoesOn, LoopMade};

use crate::closes::close_all;
use crate::rounds::round;
use crate::seats::Sessions;
use node_loops::Gate;
use node_routes::NodeLink;
use push_model::Desks;
use push_outside::{Clock, Draw};
use push_ports::Listener;
use session_front::Place;
use std::alloc::Global;
use std::sync::Wait;

/// Each session is pumped in each round whose number is a multiple of this, so that news that nobody told of costs time alone.
const ALL: u64 = 64;

/// Serves the sessions of a node, up to 256 at once, until the gate stops it, and hands back what it was given by value.
///
/// Before its nth round it calls the gate's `stop` and `turn(n)`, where n stays at 2^64 - 1. In a round it takes one wire at most,
/// and none while it holds 256 sessions; it takes the node's mail of each shard, by which sessions become due; and it pumps the
/// sessions that are new, have news, are due or moved in the last round, each while it moves, and at times all. Between rounds in
/// which nothing happened the listener may wait. A session that is over is dropped with its wire; so is a wire whose handshake is
/// refused, or for whose session there is no memory.
///
/// It returns only after the gate's stop answered true. Before that it shuts each session that is attached, and tells each client
/// that the server goes away, by the code 1001. It makes no entries but those of its pumps and shuts, and of mail it does no more
/// than to take it and what the link posts in these. It takes each wire that is given.
pub fn connection_loop<R: Wait, D: Desks, L: Listener, K: NodeLink<D>, C: Clock, G: Draw, T: Gate>(
    rt: &R,
    alloc: Global,
    desks: D,
    listener: &mut L,
    link: K,
    clock: &C,
    draw: &mut G,
    place: &Place,
    gate: T,
) -> (D, K, T)
    ensures stopped { T.stopped result.2 ≡ true }
    ensures made { LoopMade place.now (C.moment clock.now) (L.given listener.old) (L.given listener.new) (served D.view K.faults G.given desks link draw.old []) (D.view result.0) (K.faults result.1) (G.given draw.new) }
    ensures desks { GoesOn (D.view desks) (D.view result.0) }
    ensures honest { IsHonest (D.view desks) → IsHonest (D.view result.0) }
{
    let mut desks = desks;
    let mut link = link;
    let mut gate = gate;
    let mut sessions = Sessions::new(alloc);
    let mut count = 0u64;
    let mut is_idle = false;
    for _ in rt.forever() {
        if gate.stop() {
            close_all(alloc, &mut desks, &mut link, sessions);
            return (desks, link, gate);
        }
        count = count.saturating_add(1);
        gate.turn(count);
        listener.wait(is_idle);
        let all = count % ALL == 0;
        is_idle = round(
            alloc,
            &mut desks,
            listener,
            &mut link,
            clock,
            draw,
            place,
            &mut sessions,
            all,
        );
    }
    unreachable!()
}
