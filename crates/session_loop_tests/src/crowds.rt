//! A loop with as many sessions as it may hold.

use crate::pieces::{HANDSHAKE, Page, PieceWire, new_page};
use lone_desk::LoneDesk;
use node_loops::{GateNote, ListGate};
use node_routes::HereLink;
use node_sessions::connection_loop;
use push_model::NodeId;
use push_outside::{ListDraw, SetClock};
use push_ports::{Accepted, ListListener, Listener};
use session_front::Place;
use shard_core::Shard;
use std::alloc::Global;
use std::test::Fail;

// A wire of a client that says nothing after its handshake.
fn silent(alloc: Global, page: &Page) -> Result<PieceWire, Fail> {
    let handshake = Vec::from_slice(alloc, HANDSHAKE)?;
    let mut pieces = Vec::new(alloc);
    pieces.push(handshake)?;
    Ok(PieceWire::new(pieces, page.clone()?))
}

// So many such wires.
fn crowd(alloc: Global, count: usize, page: &Page) -> Result<ListListener<PieceWire>, Fail> {
    let mut wires = Vec::new(alloc);
    for _ in 0..count {
        wires.push(silent(alloc, page)?)?;
    }
    Ok(ListListener::new(wires))
}

// How many wires are left.
fn left(listener: &mut ListListener<PieceWire>, most: usize) -> usize {
    for count in 0..most {
        match listener.accept() {
            Accepted::Got(_) => {}
            Accepted::NotYet | Accepted::Failed => return count,
        }
    }
    most
}

#[test]
fn a_loop_takes_no_wire_beyond_256_sessions(rt: HostRuntime) -> Result<(), Fail> {
    let alloc = rt.alloc();
    let page = new_page(alloc)?;
    let mut listener = crowd(alloc, 259, &page)?;
    let node = NodeId::new(1).ok_or("a node")?;
    let place = Place { node, port: 8082 };
    let desk = LoneDesk::new(alloc, Shard::start(alloc, 0))?;
    let mut draw = ListDraw::new(1);
    let (_desk, _link, gate) = connection_loop(
        &rt,
        alloc,
        desk,
        &mut listener,
        HereLink,
        &SetClock::new(1_000),
        &mut draw,
        &place,
        ListGate::new(alloc, 301, 5)?,
    );
    let first = [
        GateNote::Stop,
        GateNote::Turn(1),
        GateNote::Stop,
        GateNote::Turn(2),
        GateNote::Stop,
    ];
    assert_eq!(rt; gate.notes(), first.as_slice());
    assert_eq!(rt; left(&mut listener, 10), 3);
    Ok(())
}
