//! What serves the senders of one endpoint.
ghost use Rattle.std.specs.Prelude.{◌≡◌};
ghost use Rattle.http_front.specs.OpNumbers.{IsAbove};
ghost use Rattle.push_exchange.specs.Boards.{passes_view};

use http_front::{Ops, serve_http};
use node_loops::Each;
use node_routes::HereLink;
use push_exchange::Passes;
use push_outside::{Clock, Wire};
use push_paths::Paths;
use push_ports::Bell;
use std::alloc::Global;
use std::marker::Model;
use std::sync::Wait;

/// Serves connections of HTTP over passes of its own, one after the other. The flights that it begins have the numbers from 0 on.
/// Contracts see its passes, and how many connections it served, up to 2^64 - 1.
#[derive(Drop)]
pub struct HttpEach<R, B, C> {
    alloc: Global,
    passes: Passes<R, B>,
    link: HereLink,
    clock: C,
    ops: Ops,
    paths: Paths,
    served: u64,
}

impl<R, B, C> Model for HttpEach<R, B, C> {
    ghost use Rattle.push_exchange.specs.Boards.{passes_view};
    ghost use Rattle.http_front.specs.OpNumbers.{IsAbove};
    ghost use Rattle.node_runner.specs.Servers.{Server};

    ghost Value = { Server };

    ghost view = { λ e. record { passes = e.passes; served = e.served } };

    ghost invariant = { λ e. IsAbove (passes_view e.passes) e.ops.k };
}

impl<R: Wait + Copy, B: Bell, C: Clock + Drop> HttpEach<R, B, C> {
    /// One that has served no connection. Its passes began no flight, and none of the numbers that sign their entries has a flight
    /// in the worlds in which the shards began.
    pub fn new(alloc: Global, passes: Passes<R, B>, clock: C, paths: Paths) -> HttpEach<R, B, C>
        requires { IsAbove (passes_view passes) 0 }
        ensures { result ≡ record { passes = passes; served = 0 } }
    {
        HttpEach {
            alloc,
            passes,
            link: HereLink,
            clock,
            ops: Ops::at(0),
            paths,
            served: 0,
        }
    }

    /// Its passes.
    pub fn into_passes(self) -> Passes<R, B>
        ensures { result ≡ self.passes }
    {
        self.passes
    }
}

impl<R: Wait + Copy, B: Bell, C: Clock + Drop, W: Wire + Drop> Each<W> for HttpEach<R, B, C> {
    ghost use Rattle.push_exchange.specs.Boards.{passes_view};
    ghost use Rattle.node_sessions.specs.Loops.{GoesOn};
    ghost use Rattle.node_runner.specs.Goings.{on_by_more, on_by_none};

    ghost served = { λ e. e.served };

    ghost goes_on = { λ x y. GoesOn (passes_view x.passes) (passes_view y.passes) };

    /// Serves the connection by `serve_http`, whatever ends it.
    fn serve(&mut self, wire: W) {
        let mut wire = wire;
        self.passes.are_honest();
        let _ = serve_http(
            self.alloc,
            &mut self.passes,
            &mut self.link,
            &self.clock,
            &mut wire,
            &mut self.ops,
            &self.paths,
        );
        self.served = self.served.saturating_add(1);
    }

    ghost none_served = { λ x. on_by_none (passes_view x.passes) };

    ghost more_served = { λ x y z before after. on_by_more (passes_view x.passes) (passes_view y.passes) (passes_view z.passes) before after };
}
