//! JSON: what is read, and the bodies of refusals.

ghost use Rattle.std.specs.Prelude.{◌≡◌};
ghost use Rattle.push_json.specs.Bodies.{IsRow};

use push_json::{JsonFault, error_body, parse, text_field};
use std::alloc::Global;
use std::process::Abort;
use std::test::Fail;

#[test]
fn members(rt: HostRuntime) -> Result<(), Fail> {
    let value = parse(
        rt.alloc(),
        "{\"a\":\"b\",\"c\":1,\"\\u0064\":\"\\n\",\"a\":\"d\"}",
    )?;
    assert_eq!(rt; text_field(&value, "a"), Some("d"));
    assert_eq!(rt; text_field(&value, "c"), None);
    assert_eq!(rt; text_field(&value, "d"), Some("\n"));
    assert_eq!(rt; text_field(&value, "e"), None);
    assert_eq!(rt; text_field(&parse(rt.alloc(), "[\"a\"]")?, "a"), None);
    Ok(())
}

// No text; an object that is cut; a text behind a value; a word; a lone surrogate; a number out of range.
const NO_JSON: &str = "|{|{}{}|True|\"\\ud800\"|1e400|{a:1}";

#[test]
fn texts_that_are_none(rt: HostRuntime) {
    for text in NO_JSON.split('|') {
        let read = parse(rt.alloc(), text);
        assert!(rt; matches!(read, Err(JsonFault::NotJson)), "{text}");
    }
}

#[test]
fn levels(rt: HostRuntime) -> Result<(), Fail> {
    let alloc = rt.alloc();
    for (count, read) in [(127, true), (128, false)] {
        let mut text = "[".repeat(alloc, count)?;
        text.push_str("]".repeat(alloc, count)?.as_str())?;
        assert_eq!(rt; parse(alloc, text.as_str()).is_ok(), read, "{count}");
    }
    Ok(())
}

// Compares the body of a refusal.
fn says(
    rt: &impl Abort,
    alloc: Global,
    code: u16,
    errno: u16,
    phrase: &str,
    message: &str,
) -> Result<(), Fail>
    requires { IsRow code errno }
{
    let text = format!(in alloc;
        "{{\"code\":{code},\"errno\":{errno},\"error\":\"{phrase}\",\"message\":\"{message}\"}}"
    )?;
    assert_eq!(rt; error_body(alloc, code, errno)?.as_str(), text.as_str());
    Ok(())
}

#[test]
fn requests_are_refused(rt: HostRuntime) -> Result<(), Fail> {
    let alloc = rt.alloc();
    says(&rt, alloc, 400, 100, "Bad Request", "Malformed request")?;
    says(&rt, alloc, 404, 101, "Not Found", "Unknown path")?;
    says(&rt, alloc, 404, 102, "Not Found", "Malformed token")?;
    says(&rt, alloc, 410, 103, "Gone", "Unknown endpoint")?;
    says(
        &rt,
        alloc,
        413,
        104,
        "Payload Too Large",
        "Body over 4096 bytes",
    )?;
    says(
        &rt,
        alloc,
        405,
        105,
        "Method Not Allowed",
        "Method not allowed",
    )
}

#[test]
fn heads_are_refused(rt: HostRuntime) -> Result<(), Fail> {
    let alloc = rt.alloc();
    says(
        &rt,
        alloc,
        431,
        107,
        "Request Header Fields Too Large",
        "Head over 65536 bytes",
    )?;
    says(
        &rt,
        alloc,
        400,
        110,
        "Bad Request",
        "Content-Encoding header invalid",
    )?;
    says(&rt, alloc, 400, 111, "Bad Request", "TTL header missing")?;
    says(&rt, alloc, 400, 112, "Bad Request", "TTL header invalid")?;
    says(&rt, alloc, 400, 113, "Bad Request", "Topic header invalid")?;
    says(
        &rt,
        alloc,
        400,
        114,
        "Bad Request",
        "Urgency header invalid",
    )
}

#[test]
fn the_service_refuses(rt: HostRuntime) -> Result<(), Fail> {
    let alloc = rt.alloc();
    says(
        &rt,
        alloc,
        503,
        202,
        "Service Unavailable",
        "Message storage full",
    )?;
    says(
        &rt,
        alloc,
        503,
        203,
        "Service Unavailable",
        "Message numbers spent",
    )?;
    says(
        &rt,
        alloc,
        500,
        900,
        "Internal Server Error",
        "Out of memory",
    )
}
