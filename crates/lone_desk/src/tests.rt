//! A desk of one shard, with ample memory.
ghost use Rattle.std.specs.Prelude.{◌≡◌, ◌<◌, true};
ghost use Rattle.push_model.specs.Steps.{proper};
ghost use Rattle.push_model.specs.DeskViews.{IsSameDesk};

use crate::LoneDesk;
use push_model::{Desks, Mail, NodeId, SessionId, Step, Uaid};
use shard_core::Shard;
use std::alloc::Global;
use std::test::Fail;

// The step's reply at any desks, as text.
fn replied<D: Desks>(desks: &mut D, alloc: Global, asked: Step) -> Result<String, Fail>
    requires within { 0 < (D.view desks.old).size }
    requires allowed { proper ((D.view desks.old).number 0) asked ≡ true }
    ensures { IsSameDesk (D.view desks.old) (D.view desks.new) }
{
    let reply = desks.call(alloc, 0, asked)?;
    Ok(format!(in alloc; "{reply:?}")?)
}

// What the node takes after a post to it, and what it takes then.
fn taken_twice<D: Desks>(desks: &mut D, node: NodeId, uaid: Uaid) -> (Mail, Mail)
    requires { 0 < (D.view desks.old).size }
    ensures { IsSameDesk (D.view desks.old) (D.view desks.new) }
{
    desks.post(0, node, uaid);
    let first = desks.take_mail(0, node);
    (first, desks.take_mail(0, node))
}

#[test]
fn a_session_at_the_desk(rt: HostRuntime) -> Result<(), Fail> {
    let alloc = rt.alloc();
    let node = NodeId::new(8).ok_or("a node")?;
    let session = SessionId {
        uaid: Uaid(67),
        node,
        at: 100,
    };
    let mut desk = LoneDesk::new(alloc, Shard::start(alloc, 0))?;
    assert_eq!(rt; desk.count(), 1);
    assert_eq!(rt; desk.pass(0), 0);
    assert_eq!(rt;
        replied(&mut desk, alloc, Step::Create(session))?.as_str(),
        "Made"
    );
    assert_eq!(rt;
        replied(&mut desk, alloc, Step::Attach(session))?.as_str(),
        "Attached(None)"
    );
    assert_eq!(rt;
        replied(&mut desk, alloc, Step::TakeCheck(session))?.as_str(),
        "Due"
    );
    assert_eq!(rt;
        replied(&mut desk, alloc, Step::TakeCheck(session))?.as_str(),
        "NotDue"
    );
    Ok(())
}

#[test]
fn mail_at_the_desk(rt: HostRuntime) -> Result<(), Fail> {
    let alloc = rt.alloc();
    let first = NodeId::new(1).ok_or("a node")?;
    let last = NodeId::new(8).ok_or("a node")?;
    let mut desk = LoneDesk::new(alloc, Shard::start(alloc, 0))?;
    assert_eq!(rt; desk.take_mail(0, last), Mail::Quiet);
    desk.post(0, last, Uaid(63));
    assert_eq!(rt;
        taken_twice(&mut desk, first, Uaid(67)),
        (Mail::Bits(8), Mail::Quiet)
    );
    assert_eq!(rt;
        taken_twice(&mut desk, last, Uaid(0)),
        (Mail::Bits(9_223_372_036_854_775_809), Mail::Quiet)
    );
    Ok(())
}
