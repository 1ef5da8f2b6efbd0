//! Two loops in two threads, which use one listener in turn.

use node_loops::{Each, Gate, Share, endpoint_loop};
use push_outside::ListWire;
use push_ports::ListListener;
use std::alloc::{AllocError, Global};
use std::sync::atomic::{AtomicU64, Ordering};
use std::sync::{Arc, Wait};
use std::test::Fail;
use std::thread::{Threads, join};

// What both loops share.
#[derive(Drop)]
struct Counts {
    begun: AtomicU64,
    served: AtomicU64,
    // The gate gave up holding the first wire.
    gave_up: AtomicU64,
}

// Holds the first wire of both loops until another one was served, and stops them once two were.
#[derive(Drop)]
struct Holding {
    counts: Arc<Counts>,
    stopped: bool,
}

impl Gate for Holding {
    ghost stopped = { λ gate. gate.stopped };

    fn stop(&mut self) -> bool {
        let is_last = count(&self.counts.served) >= 2;
        self.stopped = self.stopped || is_last;
        is_last
    }

    fn turn(&mut self, _n: u64) {
        if self.counts.begun.fetch_add(1, Ordering::SeqCst) == 0 && !comes(&self.counts.served) {
            self.counts.gave_up.store(1, Ordering::SeqCst);
        }
    }
}

fn count(counter: &AtomicU64) -> u64 {
    counter.load(Ordering::SeqCst)
}

// Whether the count rises within ten million looks. A look is a write too, which takes long enough for another thread.
fn comes(counter: &AtomicU64) -> bool {
    for _ in 0..10_000_000 {
        if counter.fetch_or(0, Ordering::SeqCst) > 0 {
            return true;
        }
    }
    false
}

#[derive(Drop)]
struct Counting {
    counts: Arc<Counts>,
    served: u64,
}

impl Each<ListWire> for Counting {
    ghost served = { λ each. each.served };

    ghost goes_on = { λ one other. Unit {0} };

    fn serve(&mut self, _wire: ListWire) {
        self.counts.served.fetch_add(1, Ordering::SeqCst);
        self.served = self.served.saturating_add(1);
    }

    ghost none_served = { λ one. tt };

    ghost more_served = { λ one two three before after. tt };
}

fn gate_of(counts: &Arc<Counts>) -> Result<Holding, AllocError> {
    Ok(Holding {
        counts: Arc::try_clone(counts)?,
        stopped: false,
    })
}

fn each_of(counts: &Arc<Counts>) -> Result<Counting, AllocError> {
    Ok(Counting {
        counts: Arc::try_clone(counts)?,
        served: 0,
    })
}

// How many wires a loop served.
fn run<R: Wait + Copy>(
    rt: &R,
    mut listener: Share<R, ListListener<ListWire>>,
    each: Counting,
    gate: Holding,
) -> u64 {
    let (each, _) = endpoint_loop(rt, &mut listener, each, gate);
    each.served
}

// How many wires each of two loops served, of two wires, and whether the gate gave up.
fn two_loops<R: Wait + Threads + Copy + Send + Sync + 'static>(
    rt: R,
    alloc: Global,
) -> Result<(u64, u64, u64), Fail> {
    let mut wires = Vec::new(alloc);
    for _ in 0..2 {
        wires.push(ListWire::new(alloc, Vec::new(alloc), Vec::new(alloc), Vec::new(alloc)))?;
    }
    let listener = ListListener::new(wires);
    let (one, two) = Share::pair(rt, alloc, listener).ok().ok_or("memory")?;
    let counts = Arc::new(
        alloc,
        Counts {
            begun: AtomicU64::new(0),
            served: AtomicU64::new(0),
            gave_up: AtomicU64::new(0),
        },
    )?;
    let first = (each_of(&counts)?, gate_of(&counts)?);
    let second = (each_of(&counts)?, gate_of(&counts)?);
    let (a, b) = join(
        &rt,
        || run(&rt, one, first.0, first.1),
        || run(&rt, two, second.0, second.1),
    );
    Ok((a, b, count(&counts.gave_up)))
}

// A loop that ran after the other had ended would leave the first wire held.
#[test]
fn one_loop_serves_while_the_other_is_held(rt: HostRuntime) -> Result<(), Fail> {
    let (one, two, gave_up) = two_loops(rt, rt.alloc())?;
    assert_eq!(rt; gave_up, 0, "no wire was served while the first was held");
    assert_eq!(rt; one, 1);
    assert_eq!(rt; two, 1);
    Ok(())
}
