//! Messages by steps on the desk alone.
ghost use Rattle.std.specs.Prelude.{◌≡◌, true};
ghost use Rattle.push_model.specs.Steps.{proper};

use crate::user::{Maker, TOKEN};
use lone_desk::LoneDesk;
use node_routes::{HereLink, NodeLink};
use push_model::{
    Actor, Ask, Blob, Coding, Desks, Moment, NodeId, Op, Reply, Step, Terms, Topic, Urgency,
};
use shard_core::Shard;
use std::alloc::Global;

/// The desk, and the number of the next flight.
#[derive(Drop)]
pub struct Steps {
    desk: LoneDesk,
    k: u64,
}

impl Maker for Steps {
    fn make(&mut self, alloc: Global, asked: Step) -> Option<Reply> {
        self.step(alloc, asked)
    }

    fn send(&mut self, alloc: Global, has_topic: bool, count: u64) -> Option<u64> {
        let mut taken: u64 = 0;
        for _ in 0..count {
            taken = taken.saturating_add(self.take(alloc, has_topic)?);
        }
        Some(taken)
    }
}

// What a request with a topic or none asks for.
fn ask_of(alloc: Global, has_topic: bool) -> Option<Ask> {
    let topic = if has_topic { Topic::new(b"news") } else { None };
    Some(Ask {
        terms: Terms {
            ttl: 60,
            topic,
            urgency: Urgency::Normal,
            coding: Coding::Aes128gcm,
        },
        encryption: Blob::from_vec(Vec::new(alloc)),
        crypto_key: Blob::from_vec(Vec::new(alloc)),
        payload: Blob::copy(alloc, &[b'b'; 256]).ok()?,
    })
}

impl Steps {
    /// A desk of a new shard. None comes where memory is missing.
    pub fn new(alloc: Global) -> Option<Steps> {
        let desk = LoneDesk::new(alloc, Shard::start(alloc, 0)).ok()?;
        Some(Steps { desk, k: 0 })
    }

    fn step(&mut self, alloc: Global, asked: Step) -> Option<Reply>
        requires { proper 0 asked ≡ true }
    {
        self.desk.call(alloc, 0, asked).ok()
    }

    // Gives the flight's message to the session at that node.
    fn give(&mut self, alloc: Global, op: Op, node: NodeId) -> Option<Reply>
        requires { op.pass ≡ 0 }
    {
        let _ = HereLink.push(alloc, &mut self.desk, node, 0, op);
        self.step(alloc, Step::Heard(Actor::Flight(op)))
    }

    // Stores the flight's message.
    fn store(&mut self, alloc: Global, op: Op) -> Option<Reply>
        requires { op.pass ≡ 0 }
    {
        let _ = self.step(alloc, Step::Store(op))?;
        self.step(alloc, Step::Reread(Actor::Flight(op)))
    }

    // Makes the steps of one message, and tells how many were taken: it, or none.
    fn take(&mut self, alloc: Global, has_topic: bool) -> Option<u64> {
        let ask = ask_of(alloc, has_topic)?;
        let op = Op { pass: 0, k: self.k };
        self.k = self.k.wrapping_add(1);
        let _ = self.step(alloc, Step::Tick(Moment::new(1000)?))?;
        let Reply::Begun(_, place) = self.step(alloc, Step::Begin(op, TOKEN, ask))? else {
            return Some(0);
        };
        let last = match place {
            Some((node, _)) => self.give(alloc, op, node)?,
            None => self.store(alloc, op)?,
        };
        Some(u64::from(matches!(last, Reply::End(201))))
    }
}
