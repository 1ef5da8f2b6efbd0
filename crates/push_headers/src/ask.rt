//! What a head and a payload ask for.
ghost use Rattle.std.specs.Prelude.{◌≡◌, ◌≤◌, ◌↔◌, [], true, length, IfOk, IfErr};
ghost use Rattle.http_wire.specs.Heads.{values_of};
ghost use Rattle.push_headers.specs.Asks.{Asks, IsAskFault, parameter_of};

use crate::check::{HeadFault, check_head};
use http_wire::{Head, Lone};
use push_model::{Ask, Blob, Coding, NoMemory};
use std::alloc::Global;
use thiserror::Error;

/// Why a request asks for nothing.
#[derive(Clone, Copy, Debug, PartialEq, Eq, Error)]
pub enum AskFault {
    /// Its head is refused.
    #[error("the head is refused: {0}")]
    Head(HeadFault),
    /// There was no memory.
    #[error("out of memory")]
    NoMemory,
}

// The value of the line of that name, which is in lower case, where the coding uses it.
fn copy_parameter(alloc: Global, head: &Head, name: &[u8], coding: Coding) -> Result<Blob, NoMemory>
    ensures { IfOk result (λ bytes. bytes ≡ parameter_of coding (values_of name.now head.now.lines)) }
{
    match coding {
        Coding::Bare | Coding::Aes128gcm => Ok(Blob::from_vec(Vec::new(alloc))),
        Coding::Aesgcm => match head.find(name) {
            Lone::One(value) => Blob::copy(alloc, value),
            Lone::Absent | Lone::Several => Ok(Blob::from_vec(Vec::new(alloc))),
        },
    }
}

/// What a request with this head and this payload asks for. The payload has at most 4,096 bytes, and is empty exactly where the
/// head says so; it is not copied. Encryption and Crypto-Key are copied where the coding is `Aesgcm`, and are else empty.
///
/// - `Head`: the head's first fault, as `check_head` names it;
/// - `NoMemory`: there was none to copy them.
pub fn read_ask(alloc: Global, head: &Head, payload: Blob) -> Result<Ask, AskFault>
    requires size { length payload ≤ 4096 }
    requires empty { (payload ≡ []) ↔ (head.now.body_empty ≡ true) }
    ensures ok { IfOk result (λ ask. Asks head.now payload ask) }
    ensures err { IfErr result (λ fault. IsAskFault fault head.now) }
{
    let terms = match check_head(head) {
        Ok(terms) => terms,
        Err(fault) => return Err(AskFault::Head(fault)),
    };
    let Ok(encryption) = copy_parameter(alloc, head, b"encryption", terms.coding) else {
        return Err(AskFault::NoMemory);
    };
    let Ok(crypto_key) = copy_parameter(alloc, head, b"crypto-key", terms.coding) else {
        return Err(AskFault::NoMemory);
    };
    Ok(Ask {
        terms,
        encryption,
        crypto_key,
        payload,
    })
}
