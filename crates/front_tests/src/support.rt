//! What several tests need: a desk with a channel, and the connections that it serves.
ghost use Rattle.std.specs.Prelude.{◌≡◌, ◌≤◌, ◌^◌, ℕ, true, IfOk};
ghost use Rattle.push_model.specs.DeskViews.{IsHonest};
ghost use Rattle.push_model.specs.Steps.{proper};
ghost use Rattle.lone_desk.specs.LoneViews.{lone_view};
ghost use Rattle.http_front.specs.OpNumbers.{IsAbove, IsBelow};

use http_front::laws::{numbers_are_new_at_first, numbers_stay_new};
use http_front::{HttpEnd, Ops, serve_http};
use lone_desk::LoneDesk;
use node_routes::HereLink;
use push_model::laws::calls_add_up;
use push_model::{ChannelId, Desks, NoMemory, NodeId, Reply, SessionId, Step, Token, Uaid};
use push_outside::{ListWire, SetClock};
use push_paths::Paths;
use shard_core::Shard;
use std::alloc::Global;
use std::marker::Model;
use std::process::Abort;
use std::test::Fail;

/// The target of the one channel that there is.
pub const TARGET: &str = "/wpush/v1/AAAAAAAAAAAAAAAAAAAAAAAAAAAAAAAB";

const TOKEN: Token = Token([
    0, 0, 0, 0, 0, 0, 0, 0, 0, 0, 0, 0, 0, 0, 0, 0, 0, 0, 0, 0, 0, 0, 0, 1,
]);

/// The session of the one user that there is.
pub fn session() -> Result<SessionId, Fail> {
    let node = NodeId::new(1).ok_or("a node")?;
    Ok(SessionId {
        uaid: Uaid(1),
        node,
        at: 100,
    })
}

// Makes a step that begins no flight.
fn make(alloc: Global, desk: &mut LoneDesk, asked: Step) -> Result<Reply, NoMemory>
    requires allowed { proper 0 asked ≡ true }
    requires quiet { IsBelow 0 asked }
    requires honest { IsHonest (lone_view desk.old) }
    ensures honest { IsHonest (lone_view desk.new) }
    ensures above { (n : ℕ) → IsAbove (lone_view desk.old) n → IsAbove (lone_view desk.new) n }
{
    calls_add_up();
    numbers_stay_new();
    desk.call(alloc, 0, asked)
}

/// A desk at which connections are served, and the number of the next flight.
#[derive(Drop)]
pub struct Front {
    desk: LoneDesk,
    k: u64,
}

impl Model for Front {
    ghost use Rattle.std.specs.Prelude.{⊤};
    ghost use Rattle.push_model.specs.DeskViews.{IsHonest};
    ghost use Rattle.lone_desk.specs.LoneViews.{lone_view};
    ghost use Rattle.http_front.specs.OpNumbers.{IsAbove};

    ghost Value = { ⊤ };

    ghost view = { λ _. tt };

    ghost invariant = { λ f. IsHonest (lone_view f.desk) × IsAbove (lone_view f.desk) f.k };
}

// A desk of a new shard, whose next message has that number.
fn new_desk(alloc: Global, next: u64) -> Result<LoneDesk, NoMemory>
    requires { next ≤ 2 ^ 63 }
    ensures honest { IfOk result (λ desk. IsHonest (lone_view desk)) }
    ensures above { IfOk result (λ desk. (n : ℕ) → IsAbove (lone_view desk) n) }
{
    numbers_are_new_at_first();
    let shard = Shard::start_at(alloc, 0, next);
    shard.is_reached();
    LoneDesk::new(alloc, shard)
}

impl Front {
    /// A desk with one user, whose session is attached, and one channel. The next message has that number, and so has the next
    /// flight.
    pub fn from(alloc: Global, next: u64, k: u64) -> Result<Front, Fail>
        requires { next ≤ 2 ^ 63 }
    {
        let s = session()?;
        let mut desk = new_desk(alloc, next)?;
        let _ = make(alloc, &mut desk, Step::Create(s))?;
        let _ = make(alloc, &mut desk, Step::Attach(s))?;
        let _ = make(alloc, &mut desk, Step::Register(s, ChannelId(7), TOKEN))?;
        Ok(Front { desk, k })
    }

    /// The same, before the first message and the first flight.
    pub fn new(alloc: Global) -> Result<Front, Fail> {
        Front::from(alloc, 1, 0)
    }

    /// Makes a step that begins no flight.
    pub fn make(&mut self, alloc: Global, asked: Step) -> Result<Reply, NoMemory>
        requires allowed { proper 0 asked ≡ true }
        requires quiet { IsBelow 0 asked }
    {
        make(alloc, &mut self.desk, asked)
    }

    /// The number of the next flight.
    pub fn next(&self) -> u64 {
        self.k
    }

    /// Serves the connection of a wire at second 1,000, and says how it ended.
    pub fn serve(&mut self, alloc: Global, wire: &mut ListWire) -> Result<HttpEnd, Fail> {
        let paths = Paths::new(alloc)?;
        let mut ops = Ops::at(self.k);
        let end = serve_http(
            alloc,
            &mut self.desk,
            &mut HereLink,
            &SetClock::new(1_000_999),
            wire,
            &mut ops,
            &paths,
        );
        self.k = ops.k;
        Ok(end)
    }

    /// Serves a connection that gives these bytes.
    pub fn talk(&mut self, alloc: Global, bytes: &[u8]) -> Result<Talk, Fail> {
        let mut wire = wire_of(alloc, bytes)?;
        let end = self.serve(alloc, &mut wire)?;
        Ok(Talk { wire, end })
    }
}

/// What a connection wrote, and how it ended.
#[derive(Drop)]
pub struct Talk {
    /// Its wire.
    pub wire: ListWire,
    /// How it ended.
    pub end: HttpEnd,
}

/// A wire that gives these bytes.
pub fn wire_of(alloc: Global, bytes: &[u8]) -> Result<ListWire, Fail> {
    let bytes = Vec::from_slice(alloc, bytes)?;
    Ok(ListWire::new(alloc, bytes, Vec::new(alloc), Vec::new(alloc)))
}

/// Compares what is answered to these bytes, and how the connection ends, at a new desk.
pub fn answers(
    rt: &impl Abort,
    alloc: Global,
    bytes: &str,
    wanted: &str,
    end: HttpEnd,
) -> Result<(), Fail> {
    let talked = Front::new(alloc)?.talk(alloc, bytes.as_bytes())?;
    assert_eq!(rt; talked.wire.written(), wanted.as_bytes(), "{bytes}");
    assert_eq!(rt; talked.end, end, "{bytes}");
    Ok(())
}

/// The text of a refusal with these lines in its head and this body.
pub fn refusal(alloc: Global, status: &str, lines: &str, body: &str) -> Result<String, Fail> {
    let size = body.len();
    Ok(format!(in alloc;
        "HTTP/1.1 {status}\r\n{lines}Content-Length: {size}\r\nContent-Type: application/json\r\n\r\n{body}"
    )?)
}
