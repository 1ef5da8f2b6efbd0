//! How messages are told to clients.
ghost use Rattle.std.specs.Prelude.{◌≡◌};

use client_messages::{ServerMsg, write_server};
use push_model::{
    Ask, Blob, ChannelId, Coding, Message, Moment, MsgId, Terms, Topic, Uaid, Urgency,
};
use std::alloc::Global;
use std::process::Abort;
use std::test::Fail;

// A minute, at the usual urgency.
fn terms(coding: Coding) -> Terms
    ensures ttl { result.ttl ≡ 60 }
    ensures coding { result.coding ≡ coding }
{
    Terms {
        ttl: 60,
        topic: None,
        urgency: Urgency::Normal,
        coding,
    }
}

// No payload, at that urgency, with a topic.
fn bare(alloc: Global, urgency: Urgency) -> Result<Ask, Fail> {
    Ok(Ask {
        terms: Terms {
            ttl: 60,
            topic: Topic::new(b"t"),
            urgency,
            coding: Coding::Bare,
        },
        encryption: Blob::copy(alloc, b"")?,
        crypto_key: Blob::copy(alloc, b"")?,
        payload: Blob::copy(alloc, b"")?,
    })
}

// That payload, in today's coding (RFC 8291).
fn aes128gcm(alloc: Global, payload: &[u8]) -> Result<Ask, Fail> {
    if payload.is_empty() || payload.len() > 4_096 {
        return Err(Fail::from("a payload of 1 to 4,096 bytes"));
    }
    Ok(Ask {
        terms: terms(Coding::Aes128gcm),
        encryption: Blob::copy(alloc, b"")?,
        crypto_key: Blob::copy(alloc, b"")?,
        payload: Blob::copy(alloc, payload)?,
    })
}

// The payload `hi` in the older coding, with none of its headers.
fn aesgcm(alloc: Global) -> Result<Ask, Fail> {
    Ok(Ask {
        terms: terms(Coding::Aesgcm),
        encryption: Blob::copy(alloc, b"")?,
        crypto_key: Blob::copy(alloc, b"")?,
        payload: Blob::copy(alloc, b"hi")?,
    })
}

// The same with the header Encryption.
fn salted(alloc: Global) -> Result<Ask, Fail> {
    Ok(Ask {
        terms: terms(Coding::Aesgcm),
        encryption: Blob::copy(alloc, b"salt=c2FsdA")?,
        crypto_key: Blob::copy(alloc, b"")?,
        payload: Blob::copy(alloc, b"hi")?,
    })
}

// The same with both headers, of which one has characters that JSON escapes.
fn keyed(alloc: Global) -> Result<Ask, Fail> {
    Ok(Ask {
        terms: terms(Coding::Aesgcm),
        encryption: Blob::copy(alloc, b"salt=c2FsdA")?,
        crypto_key: Blob::copy(alloc, b"dh=BP;p=\"\\\"")?,
        payload: Blob::copy(alloc, b"hi")?,
    })
}

// The message of that ask and id, on channel 10.
fn tells(rt: &impl Abort, alloc: Global, ask: Ask, id: MsgId, wanted: &str) -> Result<(), Fail> {
    let message = Message {
        id,
        uaid: Uaid(255),
        chid: ChannelId(10),
        ask,
        accepted: Moment::zero(),
    };
    let text = write_server(alloc, &ServerMsg::Notification(&message))?;
    assert_eq!(rt; text.as_str(), wanted);
    Ok(())
}

/// The first message of the first shard.
const FIRST: MsgId = MsgId {
    shard: 0,
    number: 1,
};

/// The last of the last.
const LAST: MsgId = MsgId {
    shard: 15,
    number: 9_223_372_036_854_775_807,
};

// No urgency is told.
#[test]
fn without_a_payload(rt: HostRuntime) -> Result<(), Fail> {
    let alloc = rt.alloc();
    let text =
        "{\"channelID\":\"00000000-0000-0000-0000-00000000000a\",\"messageType\":\"notification\",\"version\":\"00-0000000000000001\"}";
    for urgency in [
        Urgency::VeryLow,
        Urgency::Low,
        Urgency::Normal,
        Urgency::High,
    ] {
        tells(&rt, alloc, bare(alloc, urgency)?, FIRST, text)?;
    }
    let text =
        "{\"channelID\":\"00000000-0000-0000-0000-00000000000a\",\"messageType\":\"notification\",\"version\":\"0f-7fffffffffffffff\"}";
    tells(&rt, alloc, bare(alloc, Urgency::High)?, LAST, text)
}

#[test]
fn of_todays_coding(rt: HostRuntime) -> Result<(), Fail> {
    let alloc = rt.alloc();
    for (payload, coded) in [
        (b"h".as_slice(), "aA"),
        (b"hi".as_slice(), "aGk"),
        (b"hi!".as_slice(), "aGkh"),
        (b"\xfb\xff".as_slice(), "-_8"),
        (b"\0".as_slice(), "AA"),
    ] {
        let text = format!(in alloc;
            "{{\"channelID\":\"00000000-0000-0000-0000-00000000000a\",\"data\":\"{coded}\",\"headers\":{{\"encoding\":\"aes128gcm\"}},\"messageType\":\"notification\",\"version\":\"00-0000000000000001\"}}"
        )?;
        tells(&rt, alloc, aes128gcm(alloc, payload)?, FIRST, text.as_str())?;
    }
    Ok(())
}

#[test]
fn of_the_older_coding(rt: HostRuntime) -> Result<(), Fail> {
    let alloc = rt.alloc();
    let text =
        "{\"channelID\":\"00000000-0000-0000-0000-00000000000a\",\"data\":\"aGk\",\"headers\":{\"encoding\":\"aesgcm\"},\"messageType\":\"notification\",\"version\":\"00-0000000000000001\"}";
    tells(&rt, alloc, aesgcm(alloc)?, FIRST, text)?;
    let text =
        "{\"channelID\":\"00000000-0000-0000-0000-00000000000a\",\"data\":\"aGk\",\"headers\":{\"encoding\":\"aesgcm\",\"encryption\":\"salt=c2FsdA\"},\"messageType\":\"notification\",\"version\":\"00-0000000000000001\"}";
    tells(&rt, alloc, salted(alloc)?, FIRST, text)?;
    let text =
        "{\"channelID\":\"00000000-0000-0000-0000-00000000000a\",\"data\":\"aGk\",\"headers\":{\"crypto_key\":\"dh=BP;p=\\\"\\\\\\\"\",\"encoding\":\"aesgcm\",\"encryption\":\"salt=c2FsdA\"},\"messageType\":\"notification\",\"version\":\"00-0000000000000001\"}";
    tells(&rt, alloc, keyed(alloc)?, FIRST, text)
}

// The longest payload.
#[test]
fn of_4096_bytes(rt: HostRuntime) -> Result<(), Fail> {
    let alloc = rt.alloc();
    let payload = [0xff; 4_096];
    let mut coded = String::new(alloc);
    for _ in 0..5_461 {
        coded.push_str("_")?;
    }
    coded.push_str("w")?;
    let text = format!(in alloc;
        "{{\"channelID\":\"00000000-0000-0000-0000-00000000000a\",\"data\":\"{coded}\",\"headers\":{{\"encoding\":\"aes128gcm\"}},\"messageType\":\"notification\",\"version\":\"00-0000000000000001\"}}"
    )?;
    tells(
        &rt,
        alloc,
        aes128gcm(alloc, payload.as_slice())?,
        FIRST,
        text.as_str(),
    )
}
