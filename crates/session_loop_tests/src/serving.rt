//! One session from its handshake to the stop of its node.

use crate::gates::SendGate;
use crate::pieces::{HANDSHAKE, Page, PieceWire, client_frame, new_page, server_frame};
use node_loops::ListGate;
use node_routes::HereLink;
use node_sessions::connection_loop;
use push_exchange::{Exchange, Passes};
use push_model::{Desks, NodeId, Reply, Step, Token};
use push_outside::{ListDraw, SetClock};
use push_ports::{ListListener, NoBell};
use session_front::Place;
use std::alloc::Global;
use std::sync::Wait;
use std::test::Fail;

const HELLO: &str = "{\"messageType\":\"hello\",\"use_webpush\":true,\"uaid\":\"\"}";

const GREETED: &str =
    "{\"broadcasts\":{},\"messageType\":\"hello\",\"status\":200,\"uaid\":\"0102030405060708090a0b0c0d0e0f10\",\"use_webpush\":true}";

const REGISTER: &str =
    "{\"channelID\":\"5a5a5a5a-0000-4000-8000-000000000001\",\"messageType\":\"register\"}";

const REGISTERED: &str =
    "{\"channelID\":\"5a5a5a5a-0000-4000-8000-000000000001\",\"messageType\":\"register\",\"pushEndpoint\":\"http://localhost:8082/wpush/v1/ARESExQVFhcYGRobHB0eHyAhIiMkJSYn\",\"status\":200}";

const NOTIFIED: &str =
    "{\"channelID\":\"5a5a5a5a-0000-4000-8000-000000000001\",\"messageType\":\"notification\",\"version\":\"00-0000000000000001\"}";
/// A close frame of the code 1001.
const GONE: &[u8] = &[0x88, 2, 3, 0xe9];

/// The token that the client's channel is given: the first byte of its user, and the 23 bytes that are drawn behind the user's 16.
const TOKEN: Token = Token([
    1, 17, 18, 19, 20, 21, 22, 23, 24, 25, 26, 27, 28, 29, 30, 31, 32, 33, 34, 35, 36, 37, 38, 39,
]);

// A wire on which no handshake comes.
fn stray(alloc: Global) -> Result<PieceWire, Fail> {
    let request = Vec::from_slice(alloc, b"GET / HTTP/1.1\r\nHost: localhost\r\n\r\n")?;
    let mut pieces = Vec::new(alloc);
    pieces.push(request)?;
    Ok(PieceWire::new(pieces, new_page(alloc)?))
}

// A client's wire: a handshake, a hello and a register.
fn client(alloc: Global, page: &Page) -> Result<PieceWire, Fail> {
    let handshake = Vec::from_slice(alloc, HANDSHAKE)?;
    let mut pieces = Vec::new(alloc);
    pieces.push(handshake)?;
    pieces.push(client_frame(alloc, HELLO)?)?;
    pieces.push(client_frame(alloc, REGISTER)?)?;
    Ok(PieceWire::new(pieces, page.clone()?))
}

// A stray wire, and then the client's.
fn wires(alloc: Global, page: &Page) -> Result<ListListener<PieceWire>, Fail> {
    let mut wires = Vec::new(alloc);
    wires.push(stray(alloc)?)?;
    wires.push(client(alloc, page)?)?;
    Ok(ListListener::new(wires))
}

// What follows the first empty line.
fn behind_head(page: &[u8]) -> &[u8] {
    for i in 0..page.len() {
        if page[i..].starts_with(b"\r\n\r\n") {
            return &page[i..][4..];
        }
    }
    &[]
}

// Whether the page has an answer to the handshake, and then these texts and the frame that tells that the server goes away.
fn says(alloc: Global, page: &Page, texts: &[&str]) -> Result<bool, Fail> {
    let mut wanted = Vec::new(alloc);
    for text in texts {
        let frame = server_frame(alloc, text)?;
        wanted.extend_from_slice(&frame)?;
    }
    wanted.extend_from_slice(GONE)?;
    match page.try_borrow() {
        Ok(sent) => Ok(
            sent.starts_with(b"HTTP/1.1 101 ") && behind_head(&sent) == wanted.as_slice(),
        ),
        Err(_) => Err(Fail::from("the page is in use")),
    }
}

fn passes<R: Wait + Copy>(rt: R, alloc: Global) -> Result<Passes<R, NoBell>, Fail> {
    let bells = vec![in alloc; NoBell; 8]?;
    let (_exchange, passes) = Exchange::new(rt, alloc, bells)?;
    Ok(passes)
}

// The users of the first shard, what is stored there, and what sessions and savers hold.
fn counted<D: Desks>(alloc: Global, desks: &mut D) -> Result<(u64, u64, u64), Fail> {
    if desks.count() == 0 {
        return Err(Fail::from("no shard"));
    }
    match desks.call(alloc, 0, Step::Report)? {
        Reply::Counts(counts) => Ok((counts.users, counts.stored, counts.held)),
        _ => Err(Fail::from("no counts")),
    }
}

#[test]
fn a_message_that_comes_by_mail_is_shown(rt: HostRuntime) -> Result<(), Fail> {
    let alloc = rt.alloc();
    let page = new_page(alloc)?;
    let mut listener = wires(alloc, &page)?;
    let node = NodeId::new(1).ok_or("a node")?;
    let place = Place { node, port: 8082 };
    let mut desks = passes(rt, alloc)?;
    let others = desks.split(alloc)?;
    let gate = SendGate::new(alloc, others, node, TOKEN, 8, ListGate::new(alloc, 13, 0)?);
    let mut draw = ListDraw::new(1);
    let (mut desks, _link, gate) = connection_loop(
        &rt,
        alloc,
        desks,
        &mut listener,
        HereLink,
        &SetClock::new(1_000),
        &mut draw,
        &place,
        gate,
    );
    assert!(rt; gate.is_here());
    assert!(rt; says(alloc, &page, &[GREETED, REGISTERED, NOTIFIED])?);
    assert_eq!(rt; counted(alloc, &mut desks)?, (1, 1, 0));
    Ok(())
}
