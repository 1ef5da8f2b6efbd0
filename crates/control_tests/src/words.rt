//! The words of `serve`.

use serve_words::{ServePlan, read_serve};
use std::alloc::Global;
use std::process::Abort;
use std::test::Fail;

// The plan of the words in a line.
fn plan_of(alloc: Global, line: &str) -> Result<Option<ServePlan>, Fail> {
    let mut words = Vec::new(alloc);
    for word in line.split(' ') {
        words.push(String::from_str(alloc, word)?)?;
    }
    Ok(read_serve(&words))
}

fn is_refused(rt: &impl Abort, alloc: Global, line: &str) -> Result<(), Fail> {
    assert!(rt; plan_of(alloc, line)?.is_none(), "{line} is no plan");
    Ok(())
}

#[test]
fn words_are_a_plan(rt: HostRuntime) -> Result<(), Fail> {
    let alloc = rt.alloc();
    let plan = plan_of(alloc, "serve 8 2 1 65534")?.ok_or("a plan")?;
    assert_eq!(rt; plan.connections(), 8);
    assert_eq!(rt; plan.endpoints(), 2);
    assert_eq!(rt; plan.connection_port(), 1);
    assert_eq!(rt; plan.endpoint_port(), 65534);
    Ok(())
}

#[test]
fn other_words_are_no_plan(rt: HostRuntime) -> Result<(), Fail> {
    let alloc = rt.alloc();
    is_refused(&rt, alloc, "serve 1 1 9001 9001")?;
    is_refused(&rt, alloc, "serve 2 1 9001 9002")?;
    is_refused(&rt, alloc, "serve 0 1 9001 9101")?;
    is_refused(&rt, alloc, "serve 1 9 9001 9101")?;
    is_refused(&rt, alloc, "serve 1 2 9001 65535")?;
    is_refused(&rt, alloc, "serve 1 1 0 9101")?;
    is_refused(&rt, alloc, "serve 01 1 9001 9101")?;
    is_refused(&rt, alloc, "serve +1 1 9001 9101")?;
    is_refused(&rt, alloc, "serve 1 1 9001 65536")?;
    is_refused(&rt, alloc, "serve 1 1 9001")?;
    is_refused(&rt, alloc, "replay")
}
