//! What a client and its server write, as bytes.

use hex::FromHex;
use push_outside::ListWire;
use std::alloc::Global;
use std::test::Fail;
use ws_front::WsChat;

// The key with which the client masks its frames (RFC 6455, section 5.3).
const KEY: [u8; 4] = [0x37, 0xfa, 0x21, 0x3d];

/// What a browser asks for, up to its last header. The key is the one of RFC 6455, section 1.3.
pub const REQUEST: &str = "GET / HTTP/1.1\r
Host: localhost:8081\r
User-Agent: Mozilla/5.0 (X11; Linux x86_64; rv:140.0) Gecko/20100101 Firefox/140.0\r
Accept: */*\r
Accept-Language: en-US,en;q=0.5\r
Accept-Encoding: gzip, deflate, br, zstd\r
Sec-WebSocket-Version: 13\r
Origin: wss://localhost:8081\r
Sec-WebSocket-Protocol: push-notification\r
Sec-WebSocket-Extensions: permessage-deflate\r
Sec-WebSocket-Key: dGhlIHNhbXBsZSBub25jZQ==\r
Connection: keep-alive, Upgrade\r
Sec-Fetch-Dest: empty\r
Sec-Fetch-Mode: websocket\r
Sec-Fetch-Site: cross-site\r
Pragma: no-cache\r
Cache-Control: no-cache\r
Upgrade: websocket\r
";

/// What it is answered.
pub const RESPONSE: &str = "HTTP/1.1 101 Switching Protocols\r
connection: Upgrade\r
upgrade: websocket\r
sec-websocket-accept: s3pPLMBiTxaQ9kYGzzhZRbK+xOo=\r
\r
";

/// How many bytes one read of a handshake takes.
const READ: usize = 4_096;

// The request with one more header, so that the first read takes it and nothing behind it.
fn whole_request(alloc: Global) -> Result<Vec<u8>, Fail> {
    let mut bytes = Vec::from_slice(alloc, REQUEST.as_bytes())?;
    bytes.extend_from_slice(b"X-Padding: ")?;
    for _ in bytes.len()..READ - 4 {
        bytes.push(b'x')?;
    }
    bytes.extend_from_slice(b"\r\n\r\n")?;
    Ok(bytes)
}

// ---- frames

// The length of a payload, behind the bit that says whether it is masked.
fn push_length(bytes: &mut Vec<u8>, mask: u8, length: usize) -> Result<(), Fail> {
    if length < 126 {
        bytes.push(mask | length as u8)?;
        return Ok(());
    }
    let Ok(length) = u16::try_from(length) else {
        return Err(Fail::from("a payload of at most 65,535 bytes"));
    };
    bytes.push(mask | 126)?;
    bytes.extend_from_slice(length.to_be_bytes().as_slice())?;
    Ok(())
}

/// Adds a client's frame that begins with that byte.
pub fn push_masked(bytes: &mut Vec<u8>, first: u8, payload: &[u8]) -> Result<(), Fail> {
    bytes.push(first)?;
    push_length(bytes, 0x80, payload.len())?;
    bytes.extend_from_slice(KEY.as_slice())?;
    for place in 0..payload.len() {
        bytes.push(payload[place] ^ KEY[place % 4])?;
    }
    Ok(())
}

// Adds a frame that isn't masked, which no client may send.
fn push_plain(bytes: &mut Vec<u8>, first: u8, payload: &[u8]) -> Result<(), Fail> {
    bytes.push(first)?;
    push_length(bytes, 0, payload.len())?;
    bytes.extend_from_slice(payload)?;
    Ok(())
}

fn byte_of(digits: &str) -> Result<u8, Fail> {
    match <[u8; 1] as FromHex>::from_hex(digits) {
        Ok(byte) => Ok(byte[0]),
        Err(_) => Err(Fail::from("two digits")),
    }
}

fn bytes_of(alloc: Global, digits: &str) -> Result<Vec<u8>, Fail> {
    match hex::decode(alloc, digits) {
        Ok(bytes) => Ok(bytes),
        Err(_) => Err(Fail::from("an even number of digits")),
    }
}

// Adds what a word says: behind the first byte of a masked frame in two digits a `:` and its payload as text, or a `=` and
// that in digits; a `!` and the payload of a frame that isn't masked; or behind a `#` bytes that may be any.
fn push_word(alloc: Global, bytes: &mut Vec<u8>, word: &str) -> Result<(), Fail> {
    if let Some((first, text)) = word.split_once(":") {
        return push_masked(bytes, byte_of(first)?, text.as_bytes());
    }
    if let Some((first, digits)) = word.split_once("=") {
        let payload = bytes_of(alloc, digits)?;
        return push_masked(bytes, byte_of(first)?, &payload);
    }
    if let Some((first, text)) = word.split_once("!") {
        return push_plain(bytes, byte_of(first)?, text.as_bytes());
    }
    if let Some((_, digits)) = word.split_once("#") {
        let some = bytes_of(alloc, digits)?;
        bytes.extend_from_slice(&some)?;
        return Ok(());
    }
    Err(Fail::from("a frame"))
}

/// The bytes of these frames, which stand with `|` between them.
pub fn frames(alloc: Global, words: &str) -> Result<Vec<u8>, Fail> {
    let mut bytes = Vec::new(alloc);
    if words.is_empty() {
        return Ok(bytes);
    }
    for word in words.split("|") {
        push_word(alloc, &mut bytes, word)?;
    }
    Ok(bytes)
}

// ---- chats

/// A chat whose handshake is done, and whose client sends these bytes. The calls of its wire of these numbers fail, or have
/// nothing now; two are of the handshake.
pub fn chat_of(
    alloc: Global,
    sent: &[u8],
    failing: &[u64],
    not_yet: &[u64],
) -> Result<WsChat<ListWire>, Fail> {
    let mut bytes = whole_request(alloc)?;
    bytes.extend_from_slice(sent)?;
    let failing = Vec::from_slice(alloc, failing)?;
    let not_yet = Vec::from_slice(alloc, not_yet)?;
    match WsChat::accept(alloc, ListWire::new(alloc, bytes, failing, not_yet)) {
        Ok(chat) => Ok(chat),
        Err(_) => Err(Fail::from("no handshake")),
    }
}

/// What the server wrote after the handshake, in digits.
pub fn written(alloc: Global, chat: &WsChat<ListWire>) -> Result<String, Fail> {
    let written = chat.wire().written();
    let behind = written.get(RESPONSE.len()..).ok_or("an answer")?;
    Ok(hex::encode(alloc, behind)?)
}
