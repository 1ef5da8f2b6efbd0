//! Sums over sixteen shards.
ghost use Rattle.std.specs.Prelude.{◌≡◌, IfOk, vec_len};

use crate::lines::answers;
use push_exchange::Exchange;
use push_model::{Desks, NodeId, SessionId, Step, Uaid};
use push_ports::NoBell;
use std::alloc::Global;
use std::test::Fail;

// The bells of the eight nodes.
fn bells(alloc: Global) -> Result<Vec<NoBell>, Fail>
    ensures { IfOk result (λ v. vec_len v ≡ 8) }
{
    Ok(vec![in alloc; NoBell; 8]?)
}

fn session(node: NodeId, user: u128) -> SessionId {
    SessionId {
        uaid: Uaid(user),
        node,
        at: 100,
    }
}

#[test]
fn answers_are_sums_over_all_shards(rt: HostRuntime) -> Result<(), Fail> {
    let alloc = rt.alloc();
    let node = NodeId::new(3).ok_or("a node")?;
    let (_exchange, mut passes) = Exchange::new(rt, alloc, bells(alloc)?)?;
    let _ = passes.call(alloc, 0, Step::Create(session(node, 1)))?;
    let _ = passes.call(alloc, 15, Step::Create(session(node, 2)))?;
    answers(
        &rt,
        alloc,
        &mut passes,
        b"kill 3\nreport\nup 3\n",
        b"killed 0 0\nreport users 2 stored 0 held 0 flights 0 unsent 0 orphans 0 waiting 0\ndone\n",
    )
}
