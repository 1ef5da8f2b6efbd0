//! Requests that are refused.

use crate::support::{Front, TARGET, answers, refusal};
use http_bytes::WireFault;
use http_front::HttpEnd;
use std::alloc::Global;
use std::process::Abort;
use std::test::Fail;

// Compares what is answered to a request with this line and these lines, where the connection goes on.
fn refuses(
    rt: &impl Abort,
    alloc: Global,
    request: &str,
    status: &str,
    lines: &str,
    body: &str,
) -> Result<(), Fail> {
    let wanted = refusal(alloc, status, lines, body)?;
    answers(
        rt,
        alloc,
        request,
        wanted.as_str(),
        HttpEnd::Fault(WireFault::Ended),
    )
}

const NOT_FOUND: &str =
    "{\"code\":404,\"errno\":101,\"error\":\"Not Found\",\"message\":\"Unknown path\"}";

#[test]
fn an_unknown_path(rt: HostRuntime) -> Result<(), Fail> {
    let request = "GET / HTTP/1.1\r\n\r\n";
    refuses(&rt, rt.alloc(), request, "404 Not Found", "", NOT_FOUND)
}

const NOT_ALLOWED: &str =
    "{\"code\":405,\"errno\":105,\"error\":\"Method Not Allowed\",\"message\":\"Method not allowed\"}";

#[test]
fn another_method(rt: HostRuntime) -> Result<(), Fail> {
    let alloc = rt.alloc();
    let request = format!(in alloc; "GET {TARGET} HTTP/1.1\r\n\r\n")?;
    refuses(
        &rt,
        alloc,
        request.as_str(),
        "405 Method Not Allowed",
        "Allow: POST\r\n",
        NOT_ALLOWED,
    )
}

// Compares what is answered to a message whose head has these lines.
fn refuses_head(rt: &impl Abort, alloc: Global, lines: &str, body: &str) -> Result<(), Fail> {
    let request = format!(in alloc; "POST {TARGET} HTTP/1.1\r\n{lines}\r\n")?;
    refuses(rt, alloc, request.as_str(), "400 Bad Request", "", body)
}

#[test]
fn heads(rt: HostRuntime) -> Result<(), Fail> {
    let alloc = rt.alloc();
    refuses_head(
        &rt,
        alloc,
        "Topic: !\r\n",
        "{\"code\":400,\"errno\":111,\"error\":\"Bad Request\",\"message\":\"TTL header missing\"}",
    )?;
    refuses_head(
        &rt,
        alloc,
        "TTL: 12a\r\nTopic: !\r\n",
        "{\"code\":400,\"errno\":112,\"error\":\"Bad Request\",\"message\":\"TTL header invalid\"}",
    )?;
    refuses_head(
        &rt,
        alloc,
        "TTL: 12\r\nTopic: abcdefghijklmnopqrstuvwxyzabcdefg\r\n",
        "{\"code\":400,\"errno\":113,\"error\":\"Bad Request\",\"message\":\"Topic header invalid\"}",
    )
}

const NO_TOKEN: &str =
    "{\"code\":404,\"errno\":102,\"error\":\"Not Found\",\"message\":\"Malformed token\"}";

#[test]
fn no_token(rt: HostRuntime) -> Result<(), Fail> {
    let request = "POST /wpush/v1/AAAAAAAAAAAAAAAAAAAAAAAAAAAAAAA HTTP/1.1\r\nTTL: 1\r\n\r\n";
    refuses(&rt, rt.alloc(), request, "404 Not Found", "", NO_TOKEN)
}

const GONE: &str =
    "{\"code\":410,\"errno\":103,\"error\":\"Gone\",\"message\":\"Unknown endpoint\"}";

#[test]
fn no_channel(rt: HostRuntime) -> Result<(), Fail> {
    let request = "POST /wpush/v1/AAAAAAAAAAAAAAAAAAAAAAAAAAAAAAAC HTTP/1.1\r\nTTL: 1\r\n\r\n";
    refuses(&rt, rt.alloc(), request, "410 Gone", "", GONE)
}

const SPENT: &str =
    "{\"code\":503,\"errno\":203,\"error\":\"Service Unavailable\",\"message\":\"Message numbers spent\"}";

#[test]
fn message_numbers_are_spent(rt: HostRuntime) -> Result<(), Fail> {
    let alloc = rt.alloc();
    let mut front = Front::from(alloc, 1 << 63, 0)?;
    let request = format!(in alloc; "POST {TARGET} HTTP/1.1\r\nTTL: 60\r\n\r\n")?;
    let wanted = refusal(alloc, "503 Service Unavailable", "", SPENT)?;
    let talked = front.talk(alloc, request.as_bytes())?;
    assert_eq!(rt; talked.wire.written(), wanted.as_bytes());
    assert_eq!(rt; front.next(), 1);
    Ok(())
}
