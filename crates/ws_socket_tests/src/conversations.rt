//! Texts to and fro.

use crate::meeting::Meeting;
use push_outside::{Chat, Heard, Sent};
use push_ports::Listener;
use std::test::Fail;

// The text of section 5.7 in one frame, as it stands there.
#[test]
fn a_text_each_way(rt: HostRuntime) -> Result<(), Fail> {
    let alloc = rt.alloc();
    let mut meeting = Meeting::new(rt, alloc)?;
    meeting
        .client
        .write(b"\x81\x85\x37\xfa\x21\x3d\x7f\x9f\x4d\x51\x58")?;
    assert_eq!(rt; meeting.heard(alloc)?.as_str(), "Hello");
    assert_eq!(rt; meeting.chat.send(alloc, "Hello"), Sent::Done);
    assert_eq!(rt; meeting.client.told(alloc)?.as_str(), "81 48656c6c6f");
    Ok(())
}

// A ping stands between the fragments, and its pong comes before the text is whole.
#[test]
fn a_text_of_three_fragments(rt: HostRuntime) -> Result<(), Fail> {
    let alloc = rt.alloc();
    let mut meeting = Meeting::new(rt, alloc)?;
    meeting.client.send(alloc, 0x01, b"Hel")?;
    meeting.client.send(alloc, 0x00, b"l")?;
    meeting.client.send(alloc, 0x89, b"hi")?;
    meeting.client.send(alloc, 0x80, b"o")?;
    assert_eq!(rt; meeting.heard(alloc)?.as_str(), "Hello");
    assert_eq!(rt; meeting.client.told(alloc)?.as_str(), "8a 6869");
    Ok(())
}

// A frame comes in two pieces, between which the server finds nothing.
#[test]
fn a_frame_of_two_pieces(rt: HostRuntime) -> Result<(), Fail> {
    let alloc = rt.alloc();
    let mut meeting = Meeting::new(rt, alloc)?;
    meeting.client.write(b"\x81\x85\x37\xfa\x21")?;
    meeting.listener.wait(true);
    assert!(rt; matches!(meeting.chat.take(alloc), Heard::NotYet));
    meeting.client.write(b"\x3d\x7f\x9f\x4d\x51\x58")?;
    assert_eq!(rt; meeting.heard(alloc)?.as_str(), "Hello");
    Ok(())
}
