//! The bodies of refusals.
ghost use Rattle.std.specs.Prelude.{◌≡◌, IfOk};
ghost use Rattle.push_json.specs.Bodies.{IsRow, phrase, message, error_body};

use push_model::{NoMemory, Text};
use std::alloc::Global;

// The phrase of a status code.
fn phrase(code: u16) -> &'static str
    ensures { result.now ≡ phrase code }
{
    match code {
        400 => "Bad Request",
        404 => "Not Found",
        405 => "Method Not Allowed",
        410 => "Gone",
        413 => "Payload Too Large",
        431 => "Request Header Fields Too Large",
        503 => "Service Unavailable",
        _ => "Internal Server Error",
    }
}

// What is wrong, in words.
fn message(errno: u16) -> &'static str
    ensures { result.now ≡ message errno }
{
    match errno {
        100 => "Malformed request",
        101 => "Unknown path",
        102 => "Malformed token",
        103 => "Unknown endpoint",
        104 => "Body over 4096 bytes",
        105 => "Method not allowed",
        107 => "Head over 65536 bytes",
        110 => "Content-Encoding header invalid",
        111 => "TTL header missing",
        112 => "TTL header invalid",
        113 => "Topic header invalid",
        114 => "Urgency header invalid",
        202 => "Message storage full",
        203 => "Message numbers spent",
        _ => "Out of memory",
    }
}

/// The body of a refusal: one line of JSON with the status code, the number of what is wrong, the code's phrase (RFC
/// 9110, section 15) and what is wrong in words. The code and the number are those of one refusal.
pub fn error_body(alloc: Global, code: u16, errno: u16) -> Result<Text, NoMemory>
    requires { IsRow code errno }
    ensures { IfOk result (λ text. text ≡ error_body code errno) }
{
    let error = phrase(code);
    let words = message(errno);
    match format!(in alloc;
        "{{\"code\":{code},\"errno\":{errno},\"error\":\"{error}\",\"message\":\"{words}\"}}"
    ) {
        Ok(body) => Ok(Text::from_string(body)),
        Err(_) => Err(NoMemory),
    }
}
