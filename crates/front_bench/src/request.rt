//! The text of a request.

use std::alloc::{AllocError, Global};

// The target of the one channel that there is.
const TARGET: &str = "/wpush/v1/AAAAAAAAAAAAAAAAAAAAAAAAAAAAAAAB";

// The lines that only a long head has: a token of 215 characters, and keys of 87.
fn long_lines(alloc: Global, is_long: bool) -> Result<String, AllocError> {
    if !is_long {
        return Ok(String::new(alloc));
    }
    let token = "t".repeat(alloc, 215)?;
    let key = "k".repeat(alloc, 87)?;
    format!(in alloc;
        "Authorization: vapid t={token}, k={key}\r\nCrypto-Key: p256ecdsa={key}\r\nUrgency: normal\r\n"
    )
}

/// A request with a long or a short head and a body of 256 bytes, whose message has a topic or none.
pub fn request_text(alloc: Global, is_long: bool, has_topic: bool) -> Result<String, AllocError> {
    let topic = if has_topic { "Topic: news\r\n" } else { "" };
    let more = long_lines(alloc, is_long)?;
    let body = "b".repeat(alloc, 256)?;
    format!(in alloc;
        "POST {TARGET} HTTP/1.1\r\nHost: localhost:8082\r\nUser-Agent: curl/8.5.0\r\nAccept: */*\r\nTTL: 60\r\n{topic}{more}Content-Encoding: aes128gcm\r\nContent-Length: 256\r\n\r\n{body}"
    )
}
