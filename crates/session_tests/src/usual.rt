//! A usual session, from hello to unregister.

ghost use Rattle.std.specs.Prelude.{◌≡◌, IfOk, vec_len};
ghost use Rattle.push_exchange.specs.Boards.{passes_view};
ghost use Rattle.session_tests.specs.Ready.{IsReady};

use crate::messages::{give, hi};
use crate::routed::routed;
use crate::talk::{TOKEN, Talk, says};
use lone_desk::LoneDesk;
use node_routes::HereLink;
use push_exchange::{Exchange, Passes};
use push_model::{Desks, Op};
use push_ports::NoBell;
use shard_core::Shard;
use std::alloc::Global;
use std::sync::Wait;
use std::test::Fail;

// What the client says and is sent. At MESSAGE one comes for its channel.
const USUAL: &str =
    "{\"messageType\":\"hello\",\"broadcasts\":{\"remote-settings/monitor_changes\":\"x\"},\"use_webpush\":true,\"uaid\":\"\"} > Moved {\"broadcasts\":{},\"messageType\":\"hello\",\"status\":200,\"uaid\":\"0102030405060708090a0b0c0d0e0f10\",\"use_webpush\":true}
{\"channelID\":\"5a5a5a5a-0000-4000-8000-000000000001\",\"messageType\":\"register\",\"key\":\"BAAA\"} > Moved {\"channelID\":\"5a5a5a5a-0000-4000-8000-000000000001\",\"messageType\":\"register\",\"pushEndpoint\":\"http://localhost:8082/wpush/v1/ARESExQVFhcYGRobHB0eHyAhIiMkJSYn\",\"status\":200}
MESSAGE
NOTHING > Moved {\"channelID\":\"5a5a5a5a-0000-4000-8000-000000000001\",\"data\":\"aGk\",\"headers\":{\"encoding\":\"aes128gcm\"},\"messageType\":\"notification\",\"version\":\"00-0000000000000001\"}
{\"messageType\":\"ack\",\"updates\":[{\"channelID\":\"5a5a5a5a-0000-4000-8000-000000000001\",\"version\":\"00-0000000000000001\",\"code\":100}]} > Moved
{\"messageType\":\"nack\",\"code\":301,\"version\":\"00-0000000000000001\"} > Moved
{} > Moved {}
{\"channelID\":\"5a5a5a5a-0000-4000-8000-000000000001\",\"messageType\":\"unregister\",\"code\":200} > Moved {\"channelID\":\"5a5a5a5a-0000-4000-8000-000000000001\",\"messageType\":\"unregister\",\"status\":200}
END > Done(Left)";

#[test]
fn a_usual_session(rt: HostRuntime) -> Result<(), Fail> {
    let alloc = rt.alloc();
    let mut desk = LoneDesk::new(alloc, Shard::start(alloc, 0))?;
    let mut talk = Talk::new(alloc, USUAL, 1_000, &[], &[5])?;
    let (before, after) = USUAL.split_once("\nMESSAGE\n").ok_or("a message")?;
    says(&rt, alloc, &mut desk, &mut talk, before)?;
    give(
        alloc,
        &mut desk,
        Op { pass: 0, k: 1 },
        TOKEN,
        hi(alloc, 60)?,
    )?;
    talk.live.due = true;
    says(&rt, alloc, &mut desk, &mut talk, after)
}

// The bells of the eight nodes.
fn bells(alloc: Global) -> Result<Vec<NoBell>, Fail>
    ensures { IfOk result (λ v. vec_len v ≡ 8) }
{
    Ok(vec![in alloc; NoBell; 8]?)
}

// Passes of sixteen empty shards, for a client's session and for those that send it messages.
#[tactic(auto, using(crate::proofs::ReadyLemmas::ready_split))]
fn two_passes<R: Wait + Copy>(
    rt: R,
    alloc: Global,
) -> Result<(Passes<R, NoBell>, Passes<R, NoBell>), Fail>
    ensures { IfOk result (λ r. IsReady (passes_view r.1)) }
{
    let (_exchange, mut passes) = Exchange::new(rt, alloc, bells(alloc)?)?;
    let other = passes.split(alloc)?;
    Ok((passes, other))
}

#[test]
fn a_usual_session_of_sixteen_shards(rt: HostRuntime) -> Result<(), Fail> {
    let alloc = rt.alloc();
    let (mut passes, mut other) = two_passes(rt, alloc)?;
    let mut talk = Talk::new(alloc, USUAL, 1_000, &[], &[5])?;
    let (before, after) = USUAL.split_once("\nMESSAGE\n").ok_or("a message")?;
    says(&rt, alloc, &mut passes, &mut talk, before)?;
    let op = Op {
        pass: other.pass(0),
        k: 1,
    };
    let answer = routed(alloc, &mut other, &mut HereLink, op, hi(alloc, 60)?)?;
    assert_eq!(rt;
        answer.as_str(),
        "Created(MsgId { shard: 0, number: 1 }, 60)"
    );
    talk.live.due = true;
    says(&rt, alloc, &mut passes, &mut talk, after)
}
