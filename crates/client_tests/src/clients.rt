//! What clients say.

use client_messages::{ClientMsg, Updates, read_client};
use push_model::{ChannelId, MsgId};
use std::alloc::Global;
use std::process::Abort;
use std::test::Fail;

// The messages that an acknowledgement names, as words: the channel, the shard and the number.
fn show_updates(alloc: Global, updates: &Updates) -> Result<String, Fail> {
    let mut text = String::from_str(alloc, "Ack")?;
    for place in 0..updates.len() {
        let (chid, id) = updates.at(place);
        let named = format!(in alloc; " {}:{}:{}", chid.0, id.shard, id.number)?;
        text.push_str(named.as_str())?;
    }
    Ok(text)
}

// What a text says, or its fault.
fn show(alloc: Global, text: &str) -> Result<String, Fail> {
    match read_client(alloc, text) {
        Ok(ClientMsg::Hello(None)) => Ok(String::from_str(alloc, "Hello")?),
        Ok(ClientMsg::Hello(Some(uaid))) => Ok(format!(in alloc; "Hello {}", uaid.0)?),
        Ok(ClientMsg::Register(chid)) => Ok(format!(in alloc; "Register {}", chid.0)?),
        Ok(ClientMsg::Unregister(chid)) => Ok(format!(in alloc; "Unregister {}", chid.0)?),
        Ok(ClientMsg::Ack(updates)) => show_updates(alloc, &updates),
        Ok(ClientMsg::Nack) => Ok(String::from_str(alloc, "Nack")?),
        Ok(ClientMsg::BroadcastSubscribe) => Ok(String::from_str(alloc, "BroadcastSubscribe")?),
        Ok(ClientMsg::Ping) => Ok(String::from_str(alloc, "Ping")?),
        Err(fault) => Ok(format!(in alloc; "{fault:?}")?),
    }
}

// Each line has a client's text, and what it says.
fn say(rt: &impl Abort, alloc: Global, lines: &str) -> Result<(), Fail> {
    for line in lines.lines() {
        let (text, wanted) = line.split_once(" > ").ok_or("a text and what it says")?;
        assert_eq!(rt; show(alloc, text)?.as_str(), wanted, "{text}");
    }
    Ok(())
}

const UNTYPED: &str = "{} > Ping
 { }  > Ping
[] > NoType
5 > NoType
\"hello\" > NoType
null > NoType
{\"a\":1} > NoType
{\"messageType\":7} > NoType
{\"messagetype\":\"hello\"} > NoType
{\"messageType\":\"Hello\"} > UnknownType
{\"messageType\":\"\"} > UnknownType
{ > NotJson
 > NotJson
{}{} > NotJson
{\"messageType\":\"hello\"} x > NotJson";

#[test]
fn texts_without_a_type(rt: HostRuntime) -> Result<(), Fail> {
    say(&rt, rt.alloc(), UNTYPED)
}

const HELLOS: &str = "{\"messageType\":\"hello\"} > Hello
{\"messageType\":\"hello\",\"uaid\":\"000000000000000000000000000000fF\",\"use_webpush\":true} > Hello 255
{\"uaid\":\"00000000-0000-0000-0000-0000000000FF\",\"messageType\":\"hello\"} > Hello 255
{\"messageType\":\"hello\",\"uaid\":\"0000000000000000000000000000000\"} > Hello
{\"messageType\":\"hello\",\"uaid\":\"{00000000-0000-0000-0000-0000000000ff}\"} > Hello
{\"messageType\":\"hello\",\"uaid\":\"0000000-00000-0000-0000-0000000000ff\"} > Hello
{\"messageType\":\"hello\",\"uaid\":255} > Hello
{\"messageType\":\"hello\",\"uaid\":\"\"} > Hello";

#[test]
fn hellos(rt: HostRuntime) -> Result<(), Fail> {
    say(&rt, rt.alloc(), HELLOS)
}

const CHANNELS: &str =
    "{\"messageType\":\"register\",\"channelID\":\"00000000-0000-0000-0000-00000000000a\"} > Register 10
{\"messageType\":\"register\",\"channelID\":\"0000000000000000000000000000000A\"} > Register 10
{\"messageType\":\"register\"} > BadField(ChannelId)
{\"messageType\":\"register\",\"channelID\":10} > BadField(ChannelId)
{\"messageType\":\"register\",\"channelID\":\"urn:uuid:00000000-0000-0000-0000-00000000000a\"} > BadField(ChannelId)
{\"messageType\":\"unregister\",\"channelID\":\"00000000-0000-0000-0000-00000000000a\",\"code\":200} > Unregister 10
{\"messageType\":\"unregister\",\"channelID\":\"a\"} > BadField(ChannelId)";

#[test]
fn channels(rt: HostRuntime) -> Result<(), Fail> {
    say(&rt, rt.alloc(), CHANNELS)
}

const OTHERS: &str = "{\"messageType\":\"nack\",\"version\":\"x\"} > Nack
{\"messageType\":\"broadcast_subscribe\",\"broadcasts\":{}} > BroadcastSubscribe
{\"messageType\":\"ack\"} > BadField(Updates)
{\"messageType\":\"ack\",\"updates\":{}} > BadField(Updates)
{\"messageType\":\"ack\",\"updates\":[]} > Ack
{\"messageType\":\"ack\",\"updates\":[7,{},[]]} > Ack";

#[test]
fn other_messages(rt: HostRuntime) -> Result<(), Fail> {
    say(&rt, rt.alloc(), OTHERS)
}

// Of these members the first and the last name a message. The others lack a channel or a version, or have a version of
// another form.
const MEMBERS: &str =
    "{\"channelID\":\"00000000000000000000000000000005\",\"version\":\"00-0000000000000001\",\"code\":100}
{\"version\":\"00-0000000000000001\"}
{\"channelID\":\"00000000000000000000000000000005\"}
{\"channelID\":\"00000000000000000000000000000005\",\"version\":1}
{\"channelID\":\"00000000000000000000000000000005\",\"version\":\"00-000000000000001\"}
{\"channelID\":\"00000000000000000000000000000005\",\"version\":\"00-000000000000000F\"}
{\"channelID\":\"00000000-0000-0000-0000-000000000006\",\"version\":\"0a-00000000000000ff\"}";

#[test]
fn an_acknowledgement(rt: HostRuntime) -> Result<(), Fail> {
    let alloc = rt.alloc();
    let members = MEMBERS.replace(alloc, "\n", ",")?;
    let text = format!(in alloc; "{{\"messageType\":\"ack\",\"updates\":[{members}]}}")?;
    assert_eq!(rt; show(alloc, text.as_str())?.as_str(), "Ack 5:0:1 6:10:255");
    Ok(())
}

#[test]
fn updates(rt: HostRuntime) -> Result<(), Fail> {
    let mut updates = Updates::new(rt.alloc());
    assert!(rt; updates.is_empty());
    let id = MsgId {
        shard: 1,
        number: 2,
    };
    updates.push(ChannelId(3), id)?;
    assert_eq!(rt; updates.len(), 1);
    assert_eq!(rt; updates.at(0), (ChannelId(3), id));
    Ok(())
}
