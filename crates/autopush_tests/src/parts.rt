//! The parts of a user's cell: each of their calls that may want memory, made once with ample memory.

use crate::support::{first_session, session, shared};
use channel_rows::Channels;
use clock_expiry::Due;
use endpoint_token::{InsertFault, TokenRows, read_token, spell};
use message_rows::{PutAnswer, Rows, StoreAnswer};
use node_registry::Registry;
use push_model::{Channel, ChannelId, IdList, Moment, MsgId, NodeId, Stage, Token, Uaid};
use router_rows::RouterRow;
use session_core::SessionCore;
use shutdown_save::SaverRows;
use std::alloc::Global;
use std::process::Abort;
use std::test::Fail;

const SEVEN: MsgId = MsgId {
    shard: 0,
    number: 7,
};

#[test]
fn moments_of_expiry(rt: HostRuntime) -> Result<(), Fail> {
    let mut dues = Due::new(rt.alloc());
    dues.insert(9, SEVEN)?;
    dues.reserve(1)?;
    dues.put(4, SEVEN);
    assert_eq!(rt; dues.soonest(), Some(4));
    assert!(rt; dues.remove(4, SEVEN));
    assert_eq!(rt; dues.soonest(), Some(9));
    Ok(())
}

#[test]
fn rows(rt: HostRuntime) -> Result<(), Fail> {
    let alloc = rt.alloc();
    let mut rows = Rows::new(alloc);
    rows.reserve(1)?;
    assert_eq!(rt; rows.put_reserved(shared(alloc, 1)?), PutAnswer::Saved);
    assert_eq!(rt; rows.store(shared(alloc, 2)?)?, StoreAnswer::Stored);
    let sent = IdList::new(alloc);
    assert_eq!(rt; rows.page_plain(alloc, &sent)?.len(), 2);
    assert_eq!(rt; rows.page_topic(alloc, &sent)?.len(), 0);
    assert_eq!(rt; rows.soonest(), Some(60));
    let end = Moment::new(60).ok_or("a moment")?;
    assert_eq!(rt; rows.expire(end), 2);
    assert_eq!(rt; rows.soonest(), None);
    Ok(())
}

#[test]
fn channels(rt: HostRuntime) -> Result<(), Fail> {
    let mut channels = Channels::new(rt.alloc());
    let channel = Channel {
        chid: ChannelId(5),
        token: Token([7; 24]),
    };
    channels.add(channel)?;
    assert_eq!(rt;
        channels.find(ChannelId(5)).map(|token| token.0),
        Some([7; 24])
    );
    assert_eq!(rt; channels.channel_of(&Token([7; 24])), Some(ChannelId(5)));
    assert!(rt; channels.remove(ChannelId(5)).is_some());
    assert_eq!(rt; channels.len(), 0);
    Ok(())
}

// Spells the token, and reads it again.
fn spells(rt: &impl Abort, alloc: Global, token: Token, text: &str) -> Result<(), Fail> {
    assert_eq!(rt; spell(alloc, &token)?.as_str(), text);
    let again = read_token(text.as_bytes()).ok_or("a token")?;
    assert_eq!(rt; again.0, token.0);
    Ok(())
}

#[test]
fn tokens(rt: HostRuntime) -> Result<(), Fail> {
    let alloc = rt.alloc();
    spells(
        &rt,
        alloc,
        Token([0; 24]),
        "AAAAAAAAAAAAAAAAAAAAAAAAAAAAAAAA",
    )?;
    spells(
        &rt,
        alloc,
        Token([255; 24]),
        "________________________________",
    )?;
    spells(
        &rt,
        alloc,
        Token([0xfb; 24]),
        "-_v7-_v7-_v7-_v7-_v7-_v7-_v7-_v7",
    )?;
    let mut bytes = [0; 24];
    bytes[22] = 0x01;
    bytes[23] = 0xab;
    spells(&rt, alloc, Token(bytes), "AAAAAAAAAAAAAAAAAAAAAAAAAAAAAAGr")
}

// None; one character and two too few, the last of which leave bits over, and one too many; padding; the other alphabet;
// and characters of neither.
const NO_TOKENS: &str = "
AAAAAAAAAAAAAAAAAAAAAAAAAAAAAAG
AAAAAAAAAAAAAAAAAAAAAAAAAAAAAB
AAAAAAAAAAAAAAAAAAAAAAAAAAAAAAGrA
AAAAAAAAAAAAAAAAAAAAAAAAAAAAAAA=
AAAAAAAAAAAAAAAAAAAAAAAAAAAAAA==
AAAAAAAAAAAAAAAAAAAAAAAAAAAAAAGr=
+AAAAAAAAAAAAAAAAAAAAAAAAAAAAAAA
AAAAAAAAAAAAAAAA/AAAAAAAAAAAAAAA
AAAAAAAAAAAAAAAAAAAAAAAAAAAAAAA.
 AAAAAAAAAAAAAAAAAAAAAAAAAAAAAAA
AAAAAAAAAAAAAAAAAAAAAAAAAAAAAA\u{e9}";

#[test]
fn other_texts_are_no_tokens(rt: HostRuntime) {
    for text in NO_TOKENS.lines() {
        assert!(rt; read_token(text.as_bytes()).is_none(), "{text}");
    }
}

#[test]
fn owners_of_tokens(rt: HostRuntime) -> Result<(), Fail> {
    let mut owners = TokenRows::new(rt.alloc());
    owners.insert(Token([1; 24]), Uaid(1), ChannelId(5))?;
    let again = owners.insert(Token([1; 24]), Uaid(2), ChannelId(6));
    assert!(rt; matches!(again, Err(InsertFault::Taken)));
    let (uaid, chid) = owners.find(&Token([1; 24])).ok_or("an owner")?;
    assert_eq!(rt; uaid.0, 1);
    assert_eq!(rt; chid.0, 5);
    Ok(())
}

// How many messages a session is shown at that moment, and how many it holds then, when it was given message 7.
fn shown(alloc: Global, seconds: u64) -> Result<(usize, usize), Fail> {
    let mut session = SessionCore::new(alloc, first_session()?);
    if !session.give(shared(alloc, 7)?)? {
        return Err(Fail::from("room"));
    }
    let moment = Moment::new(seconds).ok_or("a moment")?;
    let page = session.take_direct(alloc, moment)?;
    Ok((page.len(), session.held()))
}

#[test]
fn a_session_is_shown_what_is_not_expired(rt: HostRuntime) -> Result<(), Fail> {
    let alloc = rt.alloc();
    assert_eq!(rt; shown(alloc, 59)?, (1, 1));
    assert_eq!(rt; shown(alloc, 60)?, (0, 0));
    Ok(())
}

#[test]
fn what_a_session_was_sent(rt: HostRuntime) -> Result<(), Fail> {
    let alloc = rt.alloc();
    let mut rows = Rows::new(alloc);
    rows.store(shared(alloc, 7)?)?;
    let mut session = SessionCore::new(alloc, first_session()?);
    let page = rows.page_plain(alloc, session.sent())?;
    session.sent_page(&page)?;
    assert!(rt; session.sent().has(SEVEN));
    assert_eq!(rt; rows.page_plain(alloc, session.sent())?.len(), 0);
    Ok(())
}

#[test]
fn sessions_of_a_user(rt: HostRuntime) -> Result<(), Fail> {
    let alloc = rt.alloc();
    let mut registry = Registry::new(alloc);
    assert_eq!(rt; registry.attach(alloc, first_session()?).ok(), Some(None));
    assert_eq!(rt; registry.attach(alloc, session(1, 2)?).ok(), Some(None));
    assert_eq!(rt; registry.at(NodeId::new(2).ok_or("a node")?), Some(1));
    assert!(rt; registry.leave(first_session()?).is_some());
    assert_eq!(rt; registry.sessions.len(), 1);
    Ok(())
}

#[test]
fn a_saver_has_its_place(rt: HostRuntime) -> Result<(), Fail> {
    let alloc = rt.alloc();
    let mut savers = SaverRows::new(alloc);
    savers.reserve(1)?;
    let mut saved = Vec::new(alloc);
    saved.try_reserve(1)?;
    let mut direct = Vec::new(alloc);
    direct.push(shared(alloc, 7)?)?;
    let s = first_session()?;
    savers.put(s, direct, Vec::new(alloc), saved);
    assert!(rt; matches!(savers.stage(s), Some(Stage::Saving)));
    assert_eq!(rt; savers.held(), 1);
    Ok(())
}

#[test]
fn a_route(rt: HostRuntime) -> Result<(), Fail> {
    let s = first_session()?;
    let mut route = RouterRow::new(s, Moment::zero());
    let other = NodeId::new(2).ok_or("a node")?;
    assert_eq!(rt; route.claim(other, 100, Moment::zero()), Err(100));
    assert_eq!(rt; route.claim(other, 101, Moment::zero()), Ok(Some(s.node)));
    assert_eq!(rt; route.place(), Some((other, 101)));
    Ok(())
}
