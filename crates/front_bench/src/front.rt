//! Messages over HTTP.
ghost use Rattle.std.specs.Prelude.{◌≡◌, ℕ, true, IfOk};
ghost use Rattle.push_model.specs.DeskViews.{IsHonest};
ghost use Rattle.push_model.specs.Steps.{proper};
ghost use Rattle.lone_desk.specs.LoneViews.{lone_view};
ghost use Rattle.http_front.specs.OpNumbers.{IsAbove, IsBelow};

use crate::request::request_text;
use crate::sender::Sender;
use crate::user::Maker;
use http_front::laws::{numbers_are_new_at_first, numbers_stay_new};
use http_front::{Ops, serve_http};
use lone_desk::LoneDesk;
use node_routes::HereLink;
use push_model::laws::calls_add_up;
use push_model::{Desks, NoMemory, Reply, Step};
use push_outside::SetClock;
use push_paths::Paths;
use shard_core::Shard;
use std::alloc::Global;
use std::marker::Model;

// Makes a step that begins no flight.
fn make_quiet(alloc: Global, desk: &mut LoneDesk, asked: Step) -> Result<Reply, NoMemory>
    requires allowed { proper 0 asked ≡ true }
    requires quiet { IsBelow 0 asked }
    requires honest { IsHonest (lone_view desk.old) }
    ensures honest { IsHonest (lone_view desk.new) }
    ensures above { (n : ℕ) → IsAbove (lone_view desk.old) n → IsAbove (lone_view desk.new) n }
{
    calls_add_up();
    numbers_stay_new();
    desk.call(alloc, 0, asked)
}

// A desk of a new shard.
fn new_desk(alloc: Global) -> Result<LoneDesk, NoMemory>
    ensures honest { IfOk result (λ desk. IsHonest (lone_view desk)) }
    ensures above { IfOk result (λ desk. (n : ℕ) → IsAbove (lone_view desk) n) }
{
    numbers_are_new_at_first();
    let shard = Shard::start(alloc, 0);
    shard.is_reached();
    LoneDesk::new(alloc, shard)
}

// One of the texts.
fn pick<'x>(first: &'x str, second: &'x str, is_second: bool) -> &'x str {
    if is_second { second } else { first }
}

/// A desk at which connections are served, and what their senders send.
#[derive(Drop)]
pub struct Front {
    desk: LoneDesk,
    // The number of the next flight.
    k: u64,
    paths: Paths,
    // The most bytes of one read.
    most: usize,
    // A request without a topic, and one with it.
    plain: String,
    topical: String,
}

impl Model for Front {
    ghost use Rattle.std.specs.Prelude.{⊤};
    ghost use Rattle.push_model.specs.DeskViews.{IsHonest};
    ghost use Rattle.lone_desk.specs.LoneViews.{lone_view};
    ghost use Rattle.http_front.specs.OpNumbers.{IsAbove};

    ghost Value = { ⊤ };

    ghost view = { λ _. tt };

    ghost invariant = { λ f. IsHonest (lone_view f.desk) × IsAbove (lone_view f.desk) f.k };
}

impl Front {
    /// A desk of a new shard, to which requests with long or short heads are sent, of which a read gives at most so many bytes. None
    /// comes where memory is missing.
    pub fn new(alloc: Global, is_long: bool, most: usize) -> Option<Front> {
        let (Ok(desk), Ok(paths)) = (new_desk(alloc), Paths::new(alloc)) else {
            return None;
        };
        Some(Front {
            desk,
            k: 0,
            paths,
            most,
            plain: request_text(alloc, is_long, false).ok()?,
            topical: request_text(alloc, is_long, true).ok()?,
        })
    }
}

impl Maker for Front {
    fn make(&mut self, alloc: Global, asked: Step) -> Option<Reply> {
        make_quiet(alloc, &mut self.desk, asked).ok()
    }

    /// Serves one wire.
    fn send(&mut self, alloc: Global, has_topic: bool, count: u64) -> Option<u64> {
        let request = pick(self.plain.as_str(), self.topical.as_str(), has_topic);
        let mut wire = Sender::new(request.as_bytes(), count, self.most);
        let mut ops = Ops::at(self.k);
        let _ = serve_http(
            alloc,
            &mut self.desk,
            &mut HereLink,
            &SetClock::new(1_000_999),
            &mut wire,
            &mut ops,
            &self.paths,
        );
        self.k = ops.k;
        Some(wire.created)
    }
}
