//! What a request asks for.
ghost use Rattle.std.specs.Prelude.{◌≡◌, ◌≤◌, ◌↔◌, [], true, length, IfOk};
ghost use Rattle.http_front.specs.Faults.{IsJudged, IsJudgedHead, IsSound, is_post};

use crate::fault::Fault;
use endpoint_token::read_token;
use http_wire::{Body, Head, Request};
use push_headers::{AskFault, read_ask};
use push_model::{Ask, Blob, NoMemory, Token};
use push_paths::Paths;
use std::alloc::Global;

/// What a request asks for, or its first fault.
#[derive(Debug, Drop)]
pub enum Judged {
    /// This is to be sent to the channel of that token.
    Asked(Token, Ask),
    /// It is refused.
    Faulty(Fault),
}

// Whether the method is POST.
fn is_post(head: &Head) -> bool
    ensures { result ≡ is_post head.now.method }
{
    head.method() == b"POST".as_slice()
}

// What a request asks for whose path, method and size are right.
fn judge_head(alloc: Global, head: &Head, payload: Blob, text: &[u8]) -> Result<Judged, NoMemory>
    requires size { length payload ≤ 4096 }
    requires empty { (payload ≡ []) ↔ (head.now.body_empty ≡ true) }
    ensures { IfOk result (λ judged. IsJudgedHead judged head.now payload text.now) }
{
    match read_ask(alloc, head, payload) {
        Ok(ask) => match read_token(text) {
            Some(token) => Ok(Judged::Asked(token, ask)),
            None => Ok(Judged::Faulty(Fault::BadToken)),
        },
        Err(AskFault::Head(fault)) => Ok(Judged::Faulty(Fault::Head(fault))),
        Err(AskFault::NoMemory) => Err(NoMemory),
    }
}

/// What a request that was read asks for, or its first fault in the order path, method, size, head and token. The payload
/// isn't copied. `NoMemory` comes where there was none to copy two headers.
pub fn judge(alloc: Global, paths: &Paths, request: Request) -> Result<Judged, NoMemory>
    requires { IsSound request }
    ensures { IfOk result (λ judged. IsJudged judged request) }
{
    let Request { head, body } = request;
    let Some(text) = paths.token(head.target()) else {
        return Ok(Judged::Faulty(Fault::UnknownPath));
    };
    if !is_post(&head) {
        return Ok(Judged::Faulty(Fault::WrongMethod));
    }
    match body {
        Body::TooLong => Ok(Judged::Faulty(Fault::LongBody)),
        Body::Bytes(payload) => judge_head(alloc, &head, payload, text),
    }
}
