//! Each call on values, lists and flights that may want memory, made once with ample memory.

use crate::support::{message, shared};
use flight_rows::{Flight, Flights};
use push_model::{
    Blob, ChannelId, IdList, Moment, MsgId, NodeId, Op, Pages, Shared, Stage, Text, Token, Topic,
    Uaid, Users,
};
use std::alloc::Global;
use std::test::Fail;

#[test]
fn values(rt: HostRuntime) -> Result<(), Fail> {
    let alloc = rt.alloc();
    assert_eq!(rt; Blob::copy(alloc, b"hi")?.bytes(), b"hi".as_slice());
    assert_eq!(rt; Text::copy(alloc, "hi")?.as_str(), "hi");
    for (number, valid) in [(0, false), (1, true), (8, true), (9, false), (255, false)] {
        assert_eq!(rt; NodeId::new(number).is_some(), valid, "node {number}");
    }
    for (text, valid) in [
        ("a".as_bytes(), true),
        (b"abcdefghijklmnopqrstuvwxyz-_0123", true),
        (b"abcdefghijklmnopqrstuvwxyz-_01234", false),
        (b"", false),
        (b"a+b", false),
        (b"AZ09", true),
    ] {
        assert_eq!(rt; Topic::new(text).is_some(), valid);
    }
    Ok(())
}

#[test]
fn moments(rt: HostRuntime) {
    assert_eq!(rt; Moment::zero().seconds(), 0);
    for (seconds, moment) in [
        (0, Some(0)),
        (60, Some(60)),
        (4_611_686_018_427_387_903, Some(4_611_686_018_427_387_903)),
        (4_611_686_018_427_387_904, None),
        (u64::MAX, None),
    ] {
        assert_eq!(rt; Moment::new(seconds).map(|m| m.seconds()), moment);
    }
}

#[test]
fn lists(rt: HostRuntime) -> Result<(), Fail> {
    let alloc = rt.alloc();
    let shared = Shared::new(alloc, message(alloc, 7, b"hi")?)?;
    let mut pages = Pages::new(alloc);
    assert!(rt; pages.is_empty());
    pages.push(shared.share()?)?;
    pages.push(shared)?;
    assert_eq!(rt; pages.len(), 2);
    assert_eq!(rt; pages.at(1).id.number, 7);
    assert_eq!(rt; pages.at(0).ask.payload.bytes(), b"hi".as_slice());
    let mut ids = IdList::new(alloc);
    let id = MsgId {
        shard: 0,
        number: 7,
    };
    ids.push(ChannelId(5), id)?;
    assert!(rt; ids.has(id));
    assert!(rt; !ids.remove(ChannelId(6), id));
    assert!(rt; ids.remove(ChannelId(5), id));
    assert!(rt; ids.is_empty());
    Ok(())
}

#[test]
fn users(rt: HostRuntime) -> Result<(), Fail> {
    let mut users = Users::new(rt.alloc());
    users.push(Uaid(7), NodeId::new(3), 100)?;
    users.push(Uaid(8), None, 101)?;
    assert_eq!(rt; users.len(), 2);
    let (first, node, at) = users.at(0);
    assert_eq!(rt; first.0, 7);
    assert_eq!(rt; node.map(|node| node.get()), Some(3));
    assert_eq!(rt; at, 100);
    let (second, none, at) = users.at(1);
    assert_eq!(rt; second.0, 8);
    assert!(rt; none.is_none());
    assert_eq!(rt; at, 101);
    Ok(())
}

fn token(first: u8) -> Token {
    let mut bytes = [0; 24];
    bytes[0] = first;
    Token(bytes)
}

fn flight(alloc: Global, number: u64) -> Result<Flight, Fail> {
    Ok(Flight {
        message: shared(alloc, number)?,
        token: token(1),
        stage: Stage::Store,
    })
}

#[test]
fn flights(rt: HostRuntime) -> Result<(), Fail> {
    let alloc = rt.alloc();
    let mut flights = Flights::new(alloc);
    let first = Op { pass: 1, k: 1 };
    let second = Op { pass: 1, k: 2 };
    assert!(rt; flights.begin(first, flight(alloc, 7)?)?);
    assert!(rt; !flights.begin(first, flight(alloc, 8)?)?);
    flights.append(second, flight(alloc, 9)?)?;
    let [one, other] = flights.rows() else {
        return Err(Fail::from("two flights"));
    };
    assert_eq!(rt; one.message.message().id.number, 7);
    assert_eq!(rt; other.message.message().id.number, 9);
    assert_eq!(rt; other.op, second);
    Ok(())
}
