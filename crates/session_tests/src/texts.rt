//! What a session does for its client's texts.

use crate::talk::{HELLO, REGISTER, holds};
use lone_desk::LoneDesk;
use push_model::{ChannelId, Desks, NodeId, SessionId, Step, Token, Uaid};
use shard_core::Shard;
use std::alloc::Global;
use std::test::Fail;

// A channel keeps its endpoint, also where it is named by 32 digits; and has another once it was removed.
const AGAIN: &str =
    "{\"messageType\":\"register\",\"channelID\":\"5A5A5A5A000040008000000000000001\"} > Moved {\"channelID\":\"5a5a5a5a-0000-4000-8000-000000000001\",\"messageType\":\"register\",\"pushEndpoint\":\"http://localhost:8082/wpush/v1/ARESExQVFhcYGRobHB0eHyAhIiMkJSYn\",\"status\":200}
{\"messageType\":\"unregister\",\"channelID\":\"5a5a5a5a-0000-4000-8000-000000000001\"} > Moved {\"channelID\":\"5a5a5a5a-0000-4000-8000-000000000001\",\"messageType\":\"unregister\",\"status\":200}
{\"messageType\":\"register\",\"channelID\":\"5a5a5a5a-0000-4000-8000-000000000001\"} > Moved {\"channelID\":\"5a5a5a5a-0000-4000-8000-000000000001\",\"messageType\":\"register\",\"pushEndpoint\":\"http://localhost:8082/wpush/v1/AT9AQUJDREVGR0hJSktMTU5PUFFSU1RV\",\"status\":200}
{\"messageType\":\"unregister\",\"channelID\":\"00000000000000000000000000000005\"} > Moved {\"channelID\":\"00000000-0000-0000-0000-000000000005\",\"messageType\":\"unregister\",\"status\":200}";

#[test]
fn registering_again(rt: HostRuntime) -> Result<(), Fail> {
    let alloc = rt.alloc();
    let mut desk = LoneDesk::new(alloc, Shard::start(alloc, 0))?;
    let lines = format!(in alloc; "{HELLO}\n{REGISTER}\n{AGAIN}")?;
    holds(&rt, alloc, &mut desk, lines.as_str())
}

// Gives a token to another user's channel of that number.
fn take_token(
    alloc: Global,
    desk: &mut LoneDesk,
    s: SessionId,
    number: u8,
    first: u8,
) -> Result<(), Fail> {
    let mut token = [1; 24];
    for place in 1..24 {
        token[place] = first.wrapping_add(place as u8);
    }
    let step = Step::Register(s, ChannelId(u128::from(number)), Token(token));
    let _ = desk.call(alloc, 0, step)?;
    Ok(())
}

// A desk at which the tokens from these bytes on are another user's.
fn desk_without(alloc: Global, firsts: &[u8]) -> Result<LoneDesk, Fail> {
    let mut desk = LoneDesk::new(alloc, Shard::start(alloc, 0))?;
    let s = SessionId {
        uaid: Uaid(2),
        node: NodeId::new(2).ok_or("a node")?,
        at: 100,
    };
    let _ = desk.call(alloc, 0, Step::Create(s))?;
    let _ = desk.call(alloc, 0, Step::Attach(s))?;
    for first in firsts {
        take_token(alloc, &mut desk, s, *first, *first)?;
    }
    Ok(desk)
}

#[test]
fn tokens_that_are_taken(rt: HostRuntime) -> Result<(), Fail> {
    let alloc = rt.alloc();
    let mut desk = desk_without(alloc, &[16, 39, 62])?;
    let lines = format!(in alloc;
        "{HELLO}
{{\"messageType\":\"register\",\"channelID\":\"5a5a5a5a-0000-4000-8000-000000000001\"}} > Moved {{\"channelID\":\"5a5a5a5a-0000-4000-8000-000000000001\",\"messageType\":\"register\",\"pushEndpoint\":\"http://localhost:8082/wpush/v1/AVZXWFlaW1xdXl9gYWJjZGVmZ2hpamts\",\"status\":200}}"
    )?;
    holds(&rt, alloc, &mut desk, lines.as_str())
}

#[test]
fn no_token_is_free(rt: HostRuntime) -> Result<(), Fail> {
    let alloc = rt.alloc();
    let mut desk = desk_without(alloc, &[16, 39, 62, 85])?;
    let lines = format!(in alloc;
        "{HELLO}
{{\"messageType\":\"register\",\"channelID\":\"5a5a5a5a-0000-4000-8000-000000000001\"}} > Done(TokenSpent) 4507"
    )?;
    holds(&rt, alloc, &mut desk, lines.as_str())
}
