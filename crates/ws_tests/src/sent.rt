//! What a client is sent.

use crate::bytes::{chat_of, written};
use push_outside::{Chat, ListWire, Sent};
use std::alloc::Global;
use std::test::Fail;
use ws_front::WsChat;

// What each of these sends comes to, and what is written by then.
fn sends(alloc: Global, chat: &mut WsChat<ListWire>, texts: &[&str]) -> Result<String, Fail> {
    let mut told = String::new(alloc);
    for text in texts {
        let sent = chat.send(alloc, text);
        let written = written(alloc, chat)?;
        let line = format!(in alloc; "{sent:?} {written};")?;
        told.push_str(line.as_str())?;
    }
    Ok(told)
}

#[test]
fn texts(rt: HostRuntime) -> Result<(), Fail> {
    let alloc = rt.alloc();
    let mut chat = chat_of(alloc, &[], &[], &[])?;
    let told = sends(alloc, &mut chat, &["{}", "é", ""])?;
    assert_eq!(rt;
        told.as_str(),
        "Done 81027b7d;Done 81027b7d8102c3a9;Done 81027b7d8102c3a98100;"
    );
    Ok(())
}

// A frame that the wire has no room for now waits, and goes out in front of the next.
#[test]
fn a_frame_that_waits(rt: HostRuntime) -> Result<(), Fail> {
    let alloc = rt.alloc();
    let mut chat = chat_of(alloc, &[], &[], &[3])?;
    let told = sends(alloc, &mut chat, &["a", "b"])?;
    assert_eq!(rt; told.as_str(), "Done ;Done 810161810162;");
    Ok(())
}

#[test]
fn a_send_that_fails(rt: HostRuntime) -> Result<(), Fail> {
    let alloc = rt.alloc();
    let mut chat = chat_of(alloc, &[], &[3], &[])?;
    let told = sends(alloc, &mut chat, &["a"])?;
    assert_eq!(rt; told.as_str(), "Failed ;");
    Ok(())
}

// The code of an end, big end first.
#[test]
fn codes(rt: HostRuntime) -> Result<(), Fail> {
    let alloc = rt.alloc();
    for (code, wanted) in [(4400, "88021130"), (4409, "88021139"), (4500, "88021194")] {
        let mut chat = chat_of(alloc, &[], &[], &[])?;
        assert_eq!(rt; chat.finish(code), Sent::Done);
        assert_eq!(rt; written(alloc, &chat)?.as_str(), wanted);
    }
    Ok(())
}

// So many sends of 16,384 bytes are done while the client reads nothing.
fn count_done(alloc: Global, chat: &mut WsChat<ListWire>, text: &str) -> u32 {
    for count in 0..100 {
        if chat.send(alloc, text) != Sent::Done {
            return count;
        }
    }
    100
}

// 256 KiB may wait for a client that doesn't read.
#[test]
fn a_client_that_does_not_read(rt: HostRuntime) -> Result<(), Fail> {
    let alloc = rt.alloc();
    let mut text = String::new(alloc);
    for _ in 0..16_384 {
        text.push_str("x")?;
    }
    let mut not_yet = Vec::new(alloc);
    for call in 3..100 {
        not_yet.push(call)?;
    }
    let mut chat = chat_of(alloc, &[], &[], &not_yet)?;
    assert_eq!(rt; count_done(alloc, &mut chat, text.as_str()), 15);
    Ok(())
}
