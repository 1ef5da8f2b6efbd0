//! What the server says.

use client_messages::{ServerMsg, write_server};
use push_model::{ChannelId, Token, Uaid};
use std::alloc::Global;
use std::process::Abort;
use std::test::Fail;

fn writes(rt: &impl Abort, alloc: Global, msg: &ServerMsg<'_>, text: &str) -> Result<(), Fail> {
    assert_eq!(rt; write_server(alloc, msg)?.as_str(), text);
    Ok(())
}

#[test]
fn a_hello(rt: HostRuntime) -> Result<(), Fail> {
    let text =
        "{\"broadcasts\":{},\"messageType\":\"hello\",\"status\":200,\"uaid\":\"000000000000000000000000000000ff\",\"use_webpush\":true}";
    writes(&rt, rt.alloc(), &ServerMsg::Hello(Uaid(255)), text)
}

#[test]
fn an_endpoint(rt: HostRuntime) -> Result<(), Fail> {
    let text =
        "{\"channelID\":\"00000000-0000-0000-0000-00000000000a\",\"messageType\":\"register\",\"pushEndpoint\":\"http://localhost:8080/wpush/v1/-_v7-_v7-_v7-_v7-_v7-_v7-_v7-_v7\",\"status\":200}";
    let msg = ServerMsg::Endpoint(ChannelId(10), 8080, Token([0xfb; 24]));
    writes(&rt, rt.alloc(), &msg, text)
}

#[test]
fn a_channel_is_removed(rt: HostRuntime) -> Result<(), Fail> {
    let text =
        "{\"channelID\":\"00000000-0000-0000-0000-00000000000a\",\"messageType\":\"unregister\",\"status\":200}";
    writes(
        &rt,
        rt.alloc(),
        &ServerMsg::Unregistered(ChannelId(10)),
        text,
    )
}

#[test]
fn a_pong(rt: HostRuntime) -> Result<(), Fail> {
    writes(&rt, rt.alloc(), &ServerMsg::Pong, "{}")
}
