//! A shard, and what is done on it.
ghost use Rattle.std.specs.Prelude.{◌≡◌, true};
ghost use Rattle.push_model.specs.Steps.{proper};

use crate::mixed_draw::MixedDraw;
use endpoint_token::draw_token;
use lone_desk::LoneDesk;
use node_routes::HereLink;
use push_model::{
    Actor, Ask, Blob, ChannelId, Coding, Counts, Desks, NoMemory, NodeId, Op, Reply, SessionId,
    Step, Terms, Token, Uaid, Urgency,
};
use push_outside::{Chat, SetClock, fill};
use session_front::{Live, Place, Pumped, pump};
use shard_core::Shard;
use std::alloc::Global;

/// The channel of each user.
pub const CHANNEL: ChannelId = ChannelId(0x5a5a_5a5a_0000_4000_8000_0000_0000_0001);
/// What each message says.
const BODY: [u8; 256] = [0x61; 256];
/// The moment in milliseconds at which the clock stands.
const MILLIS: u64 = 1_000;
/// How many pumps are made in a row at most.
const PUMPS: u32 = 64;

/// How messages come to a session.
#[derive(Clone, Copy)]
pub enum Path {
    /// The session is given them.
    Direct,
    /// They are stored, and the session is told to look.
    Stored,
}

/// A shard with its caller, whose sessions are at one node. Its methods answer `None` where memory is missing.
#[derive(Drop)]
pub struct Bench {
    /// Where memory comes from.
    pub alloc: Global,
    /// The shard.
    pub desk: LoneDesk,
    draw: MixedDraw,
    node: NodeId,
}

// A message of 256 bytes, to be kept for a minute.
fn message(alloc: Global) -> Result<Ask, NoMemory> {
    Ok(Ask {
        terms: Terms {
            ttl: 60,
            topic: None,
            urgency: Urgency::Normal,
            coding: Coding::Aes128gcm,
        },
        encryption: Blob::copy(alloc, b"")?,
        crypto_key: Blob::copy(alloc, b"")?,
        payload: Blob::copy(alloc, &BODY)?,
    })
}

impl Bench {
    /// An empty shard.
    pub fn new(alloc: Global) -> Option<Bench> {
        Some(Bench {
            alloc,
            desk: LoneDesk::new(alloc, Shard::start(alloc, 0)).ok()?,
            draw: MixedDraw::new(),
            node: NodeId::new(1)?,
        })
    }

    /// Makes the step.
    pub fn make(&mut self, step: Step) -> Option<Reply>
        requires { proper 0 step ≡ true }
    {
        self.desk.call(self.alloc, 0, step).ok()
    }

    /// Registers the channel of the session's user, with a token that is drawn.
    pub fn register(&mut self, s: SessionId) -> Option<Token> {
        let token = draw_token(&mut self.draw, s.uaid);
        self.make(Step::Register(s, CHANNEL, token))?;
        Some(token)
    }

    /// Makes a user that is drawn, with a session and a channel.
    pub fn open(&mut self) -> Option<(SessionId, Token)> {
        let mut bytes = [0; 16];
        fill(&mut self.draw, &mut bytes);
        let s = SessionId {
            uaid: Uaid(u128::from_be_bytes(bytes)),
            node: self.node,
            at: MILLIS,
        };
        self.make(Step::Create(s))?;
        self.make(Step::Attach(s))?;
        Some((s, self.register(s)?))
    }

    /// Pumps the session of that chat while it moves.
    pub fn pump_all<H: Chat>(&mut self, chat: &mut H, live: &mut Live) {
        let clock = SetClock::new(MILLIS);
        let (node, port) = (self.node, 8082);
        let place = Place { node, port };
        for _ in 0..PUMPS {
            let (desk, draw) = (&mut self.desk, &mut self.draw);
            match pump(
                self.alloc,
                desk,
                chat,
                &mut HereLink,
                &clock,
                draw,
                &place,
                live,
            ) {
                Pumped::Moved => {}
                Pumped::Idle | Pumped::Done(_) => return,
            }
        }
    }

    // Gives the session the flight's message; or stores it, and tells the session to look.
    fn give(&mut self, op: Op, path: Path) -> Option<()>
        requires { op.pass ≡ 0 }
    {
        match path {
            Path::Direct => {
                self.make(Step::Direct(op))?;
            }
            Path::Stored => {
                self.make(Step::Lost(Actor::Flight(op)))?;
                self.make(Step::Store(op))?;
                self.make(Step::Reread(Actor::Flight(op)))?;
                self.make(Step::Nudge(Actor::Flight(op)))?;
            }
        }
        Some(())
    }

    /// Makes the flight of that number, from its begin to its end.
    pub fn fly(&mut self, token: Token, path: Path, number: u64) -> Option<()> {
        let op = Op { pass: 0, k: number };
        let ask = message(self.alloc).ok()?;
        self.make(Step::Begin(op, token, ask))?;
        self.give(op, path)?;
        self.make(Step::Heard(Actor::Flight(op)))?;
        Some(())
    }

    /// What is there.
    pub fn counts(&mut self) -> Option<Counts> {
        match self.make(Step::Report)? {
            Reply::Counts(counts) => Some(counts),
            _ => None,
        }
    }
}
