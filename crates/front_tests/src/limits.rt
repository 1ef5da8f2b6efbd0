//! Limits of connections and of users.

use crate::support::{Front, TARGET, refusal, session};
use http_bytes::WireFault;
use http_front::HttpEnd;
use push_model::Step;
use std::alloc::Global;
use std::test::Fail;

// So many requests in one piece.
fn requests(alloc: Global, count: usize) -> Result<String, Fail> {
    let request = format!(in alloc; "POST {TARGET} HTTP/1.1\r\nTTL: 60\r\n\r\n")?;
    Ok(request.as_str().repeat(alloc, count)?)
}

const UNKNOWN: &str =
    "{\"code\":404,\"errno\":101,\"error\":\"Not Found\",\"message\":\"Unknown path\"}";

#[test]
fn a_connection_has_1000_requests(rt: HostRuntime) -> Result<(), Fail> {
    let alloc = rt.alloc();
    let mut front = Front::new(alloc)?;
    let bytes = "GET / HTTP/1.1\r\n\r\n".repeat(alloc, 1001)?;
    let talked = front.talk(alloc, bytes.as_bytes())?;
    let going = refusal(alloc, "404 Not Found", "", UNKNOWN)?;
    let last = refusal(alloc, "404 Not Found", "Connection: close\r\n", UNKNOWN)?;
    let others = going.as_str().repeat(alloc, 999)?;
    let wanted = format!(in alloc; "{others}{last}")?;
    assert_eq!(rt; talked.end, HttpEnd::Limit);
    assert!(rt; talked.wire.written() == wanted.as_bytes());
    assert_eq!(rt; front.next(), 0);
    Ok(())
}

const FULL: &str =
    "{\"code\":503,\"errno\":202,\"error\":\"Service Unavailable\",\"message\":\"Message storage full\"}";

#[test]
fn a_user_has_1000_rows(rt: HostRuntime) -> Result<(), Fail> {
    let alloc = rt.alloc();
    let mut front = Front::new(alloc)?;
    let _ = front.make(alloc, Step::Close(session()?))?;
    let _ = front.make(alloc, Step::Release(session()?))?;
    let stored = front.talk(alloc, requests(alloc, 1000)?.as_bytes())?;
    assert_eq!(rt; stored.end, HttpEnd::Limit);
    let full = front.talk(alloc, requests(alloc, 1)?.as_bytes())?;
    let wanted = refusal(alloc, "503 Service Unavailable", "", FULL)?;
    assert_eq!(rt; full.wire.written(), wanted.as_bytes());
    assert_eq!(rt; full.end, HttpEnd::Fault(WireFault::Ended));
    assert_eq!(rt; front.next(), 1001);
    Ok(())
}

// Serves a connection of two requests, where the next flight has that number.
fn two_from(alloc: Global, k: u64) -> Result<(HttpEnd, u64, usize), Fail> {
    let mut front = Front::from(alloc, 1, k)?;
    let talked = front.talk(alloc, requests(alloc, 2)?.as_bytes())?;
    Ok((talked.end, front.next(), talked.wire.written().len()))
}

const LAST: &str =
    "HTTP/1.1 201 Created\r\nConnection: close\r\nContent-Length: 0\r\nLocation: /m/00-0000000000000001\r\nTTL: 60\r\n\r\n";

#[test]
fn numbers_of_flights_are_spent(rt: HostRuntime) -> Result<(), Fail> {
    let alloc = rt.alloc();
    let spent = 1 << 63;
    assert_eq!(rt; two_from(alloc, spent)?, (HttpEnd::OpsSpent, spent, 0));
    assert_eq!(rt;
        two_from(alloc, spent - 1)?,
        (HttpEnd::OpsSpent, spent, LAST.len())
    );
    Ok(())
}
