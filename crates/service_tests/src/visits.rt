//! What clients do over their WebSockets.

use std::alloc::Global;
use std::net::{Ipv4Addr, Net, TcpStream};
use std::process::Abort;
use std::test::Fail;
use std::thread;
use std::time::{Clock, Duration};
use ws_socket_tests::Client;

/// The channel that every client asks for.
const CHANNEL: &str = "5a5a5a5a-0000-4000-8000-000000000001";

/// How many times a connection is tried.
const TRIES: usize = 500;

/// How many milliseconds lie between two tries.
const PAUSE: u64 = 10;

/// The text between the first such two texts.
fn between<'a>(text: &'a str, before: &str, after: &str) -> Result<&'a str, Fail> {
    let Some((_, rest)) = text.split_once(before) else {
        return Err(Fail::from("the text before it"));
    };
    match rest.split_once(after) {
        Some((found, _)) => Ok(found),
        None => Err(Fail::from("the text behind it")),
    }
}

// A connection to that port, as soon as someone listens there.
fn connect<R: Net<Stream = TcpStream> + Clock>(rt: &R, port: u16) -> Result<Client, Fail> {
    for _ in 0..TRIES {
        if TcpStream::connect(rt, (Ipv4Addr::LOCALHOST, port)).is_ok() {
            return Client::connect(rt, port);
        }
        thread::sleep(rt, Duration::from_millis(PAUSE));
    }
    Err(Fail::from("a service that listens"))
}

/// A client of the connection node at that port, which says hello as that user, or as a new one where the name is empty; and the name
/// that it has.
pub fn hello<R: Net<Stream = TcpStream> + Clock + Abort>(
    rt: &R,
    alloc: Global,
    port: u16,
    uaid: &str,
) -> Result<(Client, String), Fail> {
    let client = connect(rt, port)?;
    assert!(rt; client.is_accepted(alloc)?);
    let text = format!(in alloc;
        "{{\"messageType\":\"hello\",\"use_webpush\":true,\"uaid\":\"{uaid}\"}}"
    )?;
    client.send(alloc, 0x81, text.as_bytes())?;
    let told = client.text(alloc)?;
    let name = String::from_str(alloc, between(&told, "\"uaid\":\"", "\"")?)?;
    let wanted = format!(in alloc;
        "{{\"broadcasts\":{{}},\"messageType\":\"hello\",\"status\":200,\"uaid\":\"{name}\",\"use_webpush\":true}}"
    )?;
    assert_eq!(rt; told.as_str(), wanted.as_str());
    Ok((client, name))
}

/// The client asks for its channel. This is the target of messages to it, at the endpoint node of that port.
pub fn register(client: &Client, alloc: Global, port: u16) -> Result<String, Fail> {
    let text = format!(in alloc; "{{\"messageType\":\"register\",\"channelID\":\"{CHANNEL}\"}}")?;
    client.send(alloc, 0x81, text.as_bytes())?;
    let told = client.text(alloc)?;
    let address = format!(in alloc; "\"pushEndpoint\":\"http://localhost:{port}")?;
    Ok(String::from_str(alloc, between(&told, &address, "\"")?)?)
}

/// The client says that it took the message of that version.
pub fn acknowledge(client: &Client, alloc: Global, version: &str) -> Result<(), Fail> {
    let text = format!(in alloc;
        "{{\"messageType\":\"ack\",\"updates\":[{{\"channelID\":\"{CHANNEL}\",\"version\":\"{version}\"}}]}}"
    )?;
    client.send(alloc, 0x81, text.as_bytes())
}

/// The client is told of a message with this data. This is the version of it.
pub fn notified<R: Abort>(
    rt: &R,
    client: &Client,
    alloc: Global,
    data: &str,
) -> Result<String, Fail> {
    let told = client.text(alloc)?;
    assert_eq!(rt; between(&told, "\"data\":\"", "\"")?, data);
    assert_eq!(rt; between(&told, "\"channelID\":\"", "\"")?, CHANNEL);
    assert_eq!(rt; between(&told, "\"messageType\":\"", "\"")?, "notification");
    Ok(String::from_str(alloc, between(&told, "\"version\":\"", "\"")?)?)
}
