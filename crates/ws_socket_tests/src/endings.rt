//! How conversations end: the client reads what it is told of that, and then the end of the connection.

use crate::meeting::Meeting;
use push_outside::{Chat, Sent};
use std::alloc::Global;
use std::net::{Net, TcpListener, TcpStream};
use std::process::Abort;
use std::test::Fail;
use std::time::Clock;

// The client sends these bytes; the server hears that, and tells the client this.
fn ends<R: Net<Listener = TcpListener, Stream = TcpStream> + Clock + Copy + Abort>(
    rt: R,
    alloc: Global,
    sent: &[u8],
    heard: &str,
    told: &str,
) -> Result<(), Fail> {
    let mut meeting = Meeting::new(rt, alloc)?;
    meeting.client.write(sent)?;
    assert_eq!(rt; meeting.heard(alloc)?.as_str(), heard);
    assert_eq!(rt; meeting.client.told(alloc)?.as_str(), told);
    meeting.part(&rt)
}

// A close with the code 1000 (section 7.4.1), masked by zeros.
#[test]
fn a_close_with_a_code(rt: HostRuntime) -> Result<(), Fail> {
    let close = b"\x88\x82\0\0\0\0\x03\xe8";
    ends(rt, rt.alloc(), close, "End", "88 03e8")
}

#[test]
fn a_close_without_a_code(rt: HostRuntime) -> Result<(), Fail> {
    ends(rt, rt.alloc(), b"\x88\x80\0\0\0\0", "End", "88 ")
}

// A frame that isn't masked (section 5.1): the code is 1002.
#[test]
fn a_frame_without_a_mask(rt: HostRuntime) -> Result<(), Fail> {
    ends(rt, rt.alloc(), b"\x81\x05Hello", "Failed", "88 03ea")
}

// A text that isn't UTF-8 (section 8.1): the code is 1007.
#[test]
fn a_text_that_is_none(rt: HostRuntime) -> Result<(), Fail> {
    let text = b"\x81\x82\0\0\0\0\xc3\x28";
    ends(rt, rt.alloc(), text, "Failed", "88 03ef")
}

// The client writes no more, but still reads.
#[test]
fn a_client_that_hangs_up(rt: HostRuntime) -> Result<(), Fail> {
    let alloc = rt.alloc();
    let mut meeting = Meeting::new(rt, alloc)?;
    meeting.client.hang_up()?;
    assert_eq!(rt; meeting.heard(alloc)?.as_str(), "End");
    meeting.part(&rt)
}

// The server ends it, though it has not read what the client sent.
#[test]
fn an_end_by_the_server(rt: HostRuntime) -> Result<(), Fail> {
    let alloc = rt.alloc();
    let mut meeting = Meeting::new(rt, alloc)?;
    meeting.client.send(alloc, 0x81, b"Hello")?;
    assert_eq!(rt; meeting.chat.finish(4410), Sent::Done);
    assert_eq!(rt; meeting.client.told(alloc)?.as_str(), "88 113a");
    meeting.part(&rt)
}
