//! The work of one loop of a node.
ghost use Rattle.std.specs.Prelude.{◌≡◌};
ghost use Rattle.http_front.specs.OpNumbers.{IsAbove};
ghost use Rattle.push_exchange.specs.Boards.{passes_view};
ghost use Rattle.node_runner.specs.Jobs.{HandsBack};

use crate::http::HttpEach;
use node_loops::{Gate, Share, StopGate, endpoint_loop};
use node_routes::HereLink;
use node_sessions::connection_loop;
use push_exchange::Passes;
use push_outside::{Clock, Draw};
use push_paths::Paths;
use push_ports::{Bell, Job, Listener};
use session_front::Place;
use std::alloc::Global;
use std::marker::Model;
use std::sync::Wait;

// What a loop is of.
#[derive(Drop)]
enum Task<R, L, C, G> {
    // A connection node.
    Connection(L, C, G, Place),
    // An endpoint node, of which there is a second one.
    Endpoint(Share<R, L>, C),
}

/// The work of one loop of a node. Contracts see it as the passes that it was given.
#[derive(Drop)]
pub struct NodeJob<R, B, L, C, G> {
    rt: R,
    alloc: Global,
    passes: Passes<R, B>,
    task: Task<R, L, C, G>,
    gate: StopGate,
}

impl<R, B, L, C, G> Model for NodeJob<R, B, L, C, G> {
    ghost use Rattle.std.specs.Prelude.{List};
    ghost use Rattle.push_exchange.specs.PassViews.{PassView};
    ghost use Rattle.push_exchange.specs.Boards.{passes_view};
    ghost use Rattle.node_runner.specs.Tasks.{Suits};

    ghost Value = { List PassView };

    ghost view = { λ job. job.passes };

    ghost invariant = { λ job. Suits job.task (passes_view job.passes) };
}

impl<R: Wait + Copy, B: Bell, L: Listener, C: Clock + Drop, G: Draw + Drop> NodeJob<R, B, L, C, G> {
    /// The loop of a connection node, which serves the sessions of clients.
    pub fn connection(
        rt: R,
        alloc: Global,
        passes: Passes<R, B>,
        listener: L,
        clock: C,
        draw: G,
        place: Place,
        gate: StopGate,
    ) -> NodeJob<R, B, L, C, G>
        ensures { result ≡ passes }
    {
        NodeJob {
            rt,
            alloc,
            passes,
            task: Task::Connection(listener, clock, draw, place),
            gate,
        }
    }

    /// One of the two loops of an endpoint node, which serves senders by HTTP, once there is memory for its router. Its passes began no
    /// flight, and none of the numbers that sign their entries has a flight in the worlds in which the shards began.
    pub fn endpoint(
        rt: R,
        alloc: Global,
        passes: Passes<R, B>,
        listener: Share<R, L>,
        clock: C,
        gate: StopGate,
    ) -> NodeJob<R, B, L, C, G>
        requires { IsAbove (passes_view passes) 0 }
        ensures { result ≡ passes }
    {
        NodeJob {
            rt,
            alloc,
            passes,
            task: Task::Endpoint(listener, clock),
            gate,
        }
    }
}

impl<R: Wait + Copy, B: Bell, L: Listener, C: Clock + Drop, G: Draw + Drop> Job
    for NodeJob<R, B, L, C, G> {
    type Out = Passes<R, B>;

    ghost gives = { λ job out. HandsBack (passes_view job) (passes_view out) };

    /// Runs the loop until its gate stops it.
    fn run(self) -> Passes<R, B> {
        let NodeJob {
            rt,
            alloc,
            passes,
            task,
            gate,
        } = self;
        match task {
            Task::Connection(listener, clock, draw, place) => {
                serve_sessions(&rt, alloc, passes, listener, clock, draw, &place, gate)
            }
            Task::Endpoint(listener, clock) => {
                serve_senders(&rt, alloc, passes, listener, clock, gate)
            }
        }
    }
}

// Runs the loop of a connection node.
fn serve_sessions<R: Wait + Copy, B: Bell, L: Listener, C: Clock + Drop, G: Draw + Drop>(
    rt: &R,
    alloc: Global,
    passes: Passes<R, B>,
    mut listener: L,
    clock: C,
    mut draw: G,
    place: &Place,
    gate: StopGate,
) -> Passes<R, B>
    ensures { HandsBack (passes_view passes) (passes_view result) }
{
    let (passes, _, _) = connection_loop(
        rt,
        alloc,
        passes,
        &mut listener,
        HereLink,
        &clock,
        &mut draw,
        place,
        gate,
    );
    passes.are_honest();
    passes
}

// The router of the paths that are served, as soon as there is memory for it. `None` comes only after the gate's stop.
fn paths_of<R: Wait, L: Listener>(
    rt: &R,
    alloc: Global,
    listener: &mut L,
    gate: &mut StopGate,
) -> Option<Paths> {
    for _ in rt.forever() {
        if let Ok(paths) = Paths::new(alloc) {
            return Some(paths);
        }
        if gate.stop() {
            return None;
        }
        listener.wait(true);
    }
    unreachable!()
}

// Runs one loop of an endpoint node.
fn serve_senders<R: Wait + Copy, B: Bell, L: Listener, C: Clock + Drop>(
    rt: &R,
    alloc: Global,
    passes: Passes<R, B>,
    mut listener: Share<R, L>,
    clock: C,
    mut gate: StopGate,
) -> Passes<R, B>
    requires { IsAbove (passes_view passes) 0 }
    ensures { HandsBack (passes_view passes) (passes_view result) }
{
    let Some(paths) = paths_of(rt, alloc, &mut listener, &mut gate) else {
        passes.are_honest();
        return passes;
    };
    let each = HttpEach::new(alloc, passes, clock, paths);
    let (each, _) = endpoint_loop(rt, &mut listener, each, gate);
    let passes = each.into_passes();
    passes.are_honest();
    passes
}
