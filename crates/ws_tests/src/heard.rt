//! What is heard of a client's frames.

use crate::bytes::{chat_of, frames, push_masked, written};
use push_outside::{Chat, Heard, ListWire};
use std::alloc::Global;
use std::process::Abort;
use std::test::Fail;
use ws_front::WsChat;

/// How many times a chat is asked.
const TAKES: usize = 8;

fn is_last(heard: &Heard) -> bool {
    matches!(heard, Heard::End | Heard::Failed | Heard::TooLong)
}

// What was heard: the text, or the name of the answer.
fn push_heard(alloc: Global, told: &mut String, heard: &Heard) -> Result<(), Fail> {
    match heard {
        Heard::Text(text) => {
            told.push_str("`")?;
            told.push_str(text.as_str())?;
            told.push_str("`")?;
        }
        other => {
            let name = format!(in alloc; "{other:?}")?;
            told.push_str(name.as_str())?;
        }
    }
    Ok(())
}

// All that is heard, up to an end.
fn all_heard(alloc: Global, chat: &mut WsChat<ListWire>) -> Result<String, Fail> {
    let mut told = String::new(alloc);
    for _ in 0..TAKES {
        let heard = chat.take(alloc);
        push_heard(alloc, &mut told, &heard)?;
        if is_last(&heard) {
            break;
        }
        told.push_str(" ")?;
    }
    Ok(told)
}

// All that is heard of these frames, and what is written meanwhile.
fn answered(alloc: Global, words: &str, failing: &[u64], not_yet: &[u64]) -> Result<String, Fail> {
    let mut chat = chat_of(alloc, &frames(alloc, words)?, failing, not_yet)?;
    let mut told = all_heard(alloc, &mut chat)?;
    told.push_str(" > ")?;
    told.push_str(written(alloc, &chat)?.as_str())?;
    Ok(told)
}

// Each line has the frames, what is heard, and what is written.
fn hears(rt: &impl Abort, alloc: Global, lines: &str) -> Result<(), Fail> {
    for line in lines.lines() {
        let (words, wanted) = line.split_once(" > ").ok_or("frames and an answer")?;
        assert_eq!(rt;
            answered(alloc, words, &[], &[])?.as_str(),
            wanted,
            "{words}"
        );
    }
    Ok(())
}

// Texts in one frame and in several, and what stands between; the wire then ends. A text of two bytes may be cut between
// them.
const MESSAGES: &str = " > End > 
81:Hello > `Hello` End > 
#818537fa213d7f9f4d5158 > `Hello` End > 
81: > `` End > 
81:a|81:b|81:c > `a` `b` `c` End > 
01:Hel|80:lo > `Hello` End > 
01:H|00:ell|80:o > `Hello` End > 
01=c3|80=a9 > `é` End > 
82:x > Binary End > 
02:x|80:y > Binary End > 
89:ping > End > 8a0470696e67
8a:pong > End > 
01:Hel|89:x|80:lo > `Hello` End > 8a0178
01:Hel|8a:|80:lo > `Hello` End > ";

#[test]
fn messages(rt: HostRuntime) -> Result<(), Fail> {
    hears(&rt, rt.alloc(), MESSAGES)
}

// A close is answered in kind (RFC 6455, section 5.5.1), one by a code that no endpoint may send by 1002, and nothing behind
// it is heard. A wire that ends is the same to the caller, also in the middle of a frame.
const ENDS: &str = "88: > End > 8800
88=03e8 > End > 880203e8
88=03e9627965|81:x > End > 880503e9627965
88=03ed > End > 881403ea50726f746f636f6c2076696f6c6174696f6e
81:a|88=03e8 > `a` End > 880203e8
#81 > End > 
#818537fa213d7f > End > 
01:Hel > End > ";

#[test]
fn ends(rt: HostRuntime) -> Result<(), Fail> {
    hears(&rt, rt.alloc(), ENDS)
}

// A client that breaks the protocol is told so by 1002, and one whose text isn't UTF-8 by 1007 (section 7.4.1).
const BREAKS: &str = "81!Hello > Failed > 880203ea
83:x > Failed > 880203ea
c1:x > Failed > 880203ea
09:x > Failed > 880203ea
80:x > Failed > 880203ea
01:a|81:b > Failed > 880203ea
88=03 > Failed > 880203ea
81=ff > Failed > 880203ef
81=c3 > Failed > 880203ef
01=c3|80=28 > Failed > 880203ef
88=03e8ff > Failed > 880203ef";

#[test]
fn breaks(rt: HostRuntime) -> Result<(), Fail> {
    hears(&rt, rt.alloc(), BREAKS)
}

// So many bytes of text.
fn text(alloc: Global, size: usize) -> Result<Vec<u8>, Fail> {
    let mut bytes = Vec::new(alloc);
    for _ in 0..size {
        bytes.push(b'x')?;
    }
    Ok(bytes)
}

// A text of so many bytes, the first of which come in a frame of their own.
fn long(alloc: Global, front: usize, back: usize) -> Result<Vec<u8>, Fail> {
    let mut bytes = Vec::new(alloc);
    if front > 0 {
        push_masked(&mut bytes, 0x01, &text(alloc, front)?)?;
        push_masked(&mut bytes, 0x80, &text(alloc, back)?)?;
    } else {
        push_masked(&mut bytes, 0x81, &text(alloc, back)?)?;
    }
    Ok(bytes)
}

// What is heard first, and what the chat's end writes then.
fn ended(alloc: Global, front: usize, back: usize) -> Result<String, Fail> {
    let mut chat = chat_of(alloc, &long(alloc, front, back)?, &[], &[])?;
    let heard = match chat.take(alloc) {
        Heard::Text(text) => text.as_str().len(),
        Heard::TooLong => 0,
        _ => 1,
    };
    let _ = chat.finish(4400);
    let written = written(alloc, &chat)?;
    Ok(format!(in alloc; "{heard} {written}")?)
}

#[test]
fn long_texts(rt: HostRuntime) -> Result<(), Fail> {
    let alloc = rt.alloc();
    for (front, back, wanted) in [
        (0, 126, "126 88021130"),
        (0, 16_384, "16384 88021130"),
        (0, 16_385, "0 88021130"),
        (10_000, 6_384, "16384 88021130"),
        (10_000, 6_385, "0 88021130"),
    ] {
        assert_eq!(rt;
            ended(alloc, front, back)?.as_str(),
            wanted,
            "{front} {back}"
        );
    }
    Ok(())
}

// The first read has nothing, or fails; two calls of the wire were the handshake's.
#[test]
fn lulls_and_failures(rt: HostRuntime) -> Result<(), Fail> {
    let alloc = rt.alloc();
    assert_eq!(rt;
        answered(alloc, "81:a", &[], &[3, 4])?.as_str(),
        "NotYet NotYet `a` End > "
    );
    assert_eq!(rt; answered(alloc, "81:a", &[3], &[])?.as_str(), "Failed > ");
    assert_eq!(rt;
        answered(alloc, "81:a", &[4], &[])?.as_str(),
        "`a` Failed > "
    );
    Ok(())
}

// One take reads 64 frames.
#[test]
fn many_pings(rt: HostRuntime) -> Result<(), Fail> {
    let alloc = rt.alloc();
    let mut bytes = Vec::new(alloc);
    for _ in 0..64 {
        push_masked(&mut bytes, 0x8a, b"")?;
    }
    push_masked(&mut bytes, 0x81, b"a")?;
    let mut chat = chat_of(alloc, &bytes, &[], &[])?;
    assert_eq!(rt; all_heard(alloc, &mut chat)?.as_str(), "NotYet `a` End");
    Ok(())
}
