//! An exchange is closed where no pass is out, and mail goes from pass to pass.
ghost use Rattle.std.specs.Prelude.{◌≡◌, IfOk, vec_len};

use push_exchange::{Exchange, Shards};
use push_model::{Desks, Mail, NodeId, Uaid};
use push_ports::NoBell;
use std::alloc::Global;
use std::sync::Wait;
use std::test::Fail;

/// The bells of the eight nodes, which ring nowhere.
pub fn bells(alloc: Global) -> Result<Vec<NoBell>, Fail>
    ensures { IfOk result (λ v. vec_len v ≡ 8) }
{
    Ok(vec![in alloc; NoBell; 8]?)
}

// Whether an exchange is handed back where a pass is out.
fn is_refused<R: Wait + Copy>(rt: R, alloc: Global) -> Result<bool, Fail> {
    let (exchange, mut passes) = Exchange::new(rt, alloc, bells(alloc)?)?;
    let _other = passes.split(alloc)?;
    match exchange.close(passes) {
        Ok(_) => Ok(false),
        Err(_) => Ok(true),
    }
}

// The shards of an exchange of which no other pass was made.
fn closed<R: Wait + Copy>(rt: R, alloc: Global) -> Result<Shards, Fail> {
    let (exchange, passes) = Exchange::new(rt, alloc, bells(alloc)?)?;
    match exchange.close(passes) {
        Ok(shards) => Ok(shards),
        Err(_) => Err(Fail::from("not closed")),
    }
}

#[test]
fn an_exchange_is_not_closed_while_a_pass_is_out(rt: HostRuntime) -> Result<(), Fail> {
    let alloc = rt.alloc();
    let refused = is_refused(rt, alloc)?;
    assert!(rt; refused, "closed while a pass was out");
    Ok(())
}

#[test]
fn an_exchange_is_closed_where_no_pass_is_out(rt: HostRuntime) -> Result<(), Fail> {
    let alloc = rt.alloc();
    let mut shards = closed(rt, alloc)?;
    assert_eq!(rt; shards.report(alloc).users, 0);
    assert_eq!(rt; shards.tally().begun, 0);
    Ok(())
}

#[test]
fn mail_goes_from_pass_to_pass(rt: HostRuntime) -> Result<(), Fail> {
    let alloc = rt.alloc();
    let node = NodeId::new(8).ok_or("a node")?;
    let (_exchange, mut passes) = Exchange::new(rt, alloc, bells(alloc)?)?;
    let mut other = passes.split(alloc)?;
    assert_eq!(rt; passes.count(), 16);
    assert_eq!(rt; passes.pass(15), 0);
    assert_eq!(rt; other.pass(15), 1);
    passes.post(15, node, Uaid(67));
    assert_eq!(rt; other.take_mail(14, node), Mail::Quiet);
    assert_eq!(rt; other.take_mail(15, node), Mail::Bits(8));
    assert_eq!(rt; passes.take_mail(15, node), Mail::Quiet);
    Ok(())
}
