//! Sessions and users that do nothing.

use crate::bench::Bench;
use crate::still_wire::StillWire;
use node_routes::HereLink;
use session_drive::shut;
use session_front::Live;
use std::alloc::Global;
use ws_front::WsChat;

/// A session as a node holds it.
#[derive(Drop)]
struct Seat {
    live: Live,
    chat: Box<WsChat<StillWire>>,
}

// A session whose client said hello, and has a channel; none where it isn't idle then.
fn begin(bench: &mut Bench) -> Option<Seat> {
    let mut chat = WsChat::accept(bench.alloc, StillWire::new()).ok()?;
    let mut live = Live::new();
    bench.pump_all(&mut chat, &mut live);
    bench.register(live.s?)?;
    if live.due {
        return None;
    }
    let chat = Box::new(bench.alloc, chat).ok()?;
    Some(Seat { live, chat })
}

/// Makes so many sessions, as a node holds them, and answers how many users there are then.
pub fn sessions(alloc: Global, count: u64) -> Option<(u64, u64)> {
    let mut bench = Bench::new(alloc)?;
    let mut seats = Vec::new(alloc);
    for _ in 0..count {
        seats.push(begin(&mut bench)?).ok()?;
    }
    Some((seats.len() as u64, bench.counts()?.users))
}

/// Makes so many users with a channel and no session, and answers how many there are then.
pub fn cells(alloc: Global, count: u64) -> Option<(u64, u64)> {
    let mut bench = Bench::new(alloc)?;
    for _ in 0..count {
        let (s, _) = bench.open()?;
        let _ = shut(alloc, &mut bench.desk, &mut HereLink, s);
    }
    Some((count, bench.counts()?.users))
}
