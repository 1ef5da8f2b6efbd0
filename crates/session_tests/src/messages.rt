//! Messages, and how they reach a session.
ghost use Rattle.std.specs.Prelude.{◌≡◌, ◌<◌};

use node_routes::{HereLink, Linked, NodeLink};
use push_model::{Actor, Ask, Blob, Coding, Desks, NodeId, Op, Reply, Step, Terms, Token, Urgency};
use std::alloc::Global;
use std::test::Fail;

/// The payload `hi`, for at most 18 hours.
pub fn hi(alloc: Global, ttl: u16) -> Result<Ask, Fail> {
    Ok(Ask {
        terms: Terms {
            ttl: u32::from(ttl),
            topic: None,
            urgency: Urgency::Normal,
            coding: Coding::Aes128gcm,
        },
        encryption: Blob::copy(alloc, b"")?,
        crypto_key: Blob::copy(alloc, b"")?,
        payload: Blob::copy(alloc, b"hi")?,
    })
}

/// Begins the flight of a message, and gives it to the session at node 1.
pub fn give<D: Desks>(
    alloc: Global,
    desks: &mut D,
    op: Op,
    token: Token,
    ask: Ask,
) -> Result<(), Fail>
    requires within { 0 < (D.view desks.old).size }
    requires signs { (D.view desks.old).number 0 ≡ op.pass }
{
    let node = NodeId::new(1).ok_or("a node")?;
    let Reply::Begun(_, _) = desks.call(alloc, 0, Step::Begin(op, token, ask))? else {
        return Err(Fail::from("not begun"));
    };
    let Linked::Here = HereLink.push(alloc, desks, node, 0, op) else {
        return Err(Fail::from("no session was found"));
    };
    let Reply::End(201) = desks.call(alloc, 0, Step::Heard(Actor::Flight(op)))? else {
        return Err(Fail::from("not taken"));
    };
    Ok(())
}
