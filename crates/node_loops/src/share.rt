//! One listener for two loops.
ghost use Rattle.std.specs.Prelude.{◌≡◌, IfOk, IfSome, IsNone};
ghost use Rattle.push_ports.specs.Accepts.{AcceptFails, given_after, lulls_after_accept};
ghost use Rattle.node_loops.specs.Shares.{IsNew};

use push_model::NoMemory;
use push_ports::{Accepted, Listener};
use std::alloc::Global;
use std::marker::Model;
use std::sync::{Arc, Mutex, Wait};

// What a share has of the listener.
#[derive(Drop)]
enum Held<L> {
    // A listener of the same port for itself.
    Own(L),
    // The one listener, which both use in turn.
    Common(Arc<Mutex<L>>),
}

impl<L: Listener> Held<L> {
    fn accept<R: Wait>(&mut self, rt: &R) -> Accepted<L::W> {
        match self {
            Held::Own(listener) => listener.accept(),
            Held::Common(listener) => listener.lock(rt).accept(),
        }
    }

    fn bell<R: Wait>(&self, rt: &R) -> Result<L::B, NoMemory> {
        match self {
            Held::Own(listener) => listener.bell(),
            Held::Common(listener) => listener.lock(rt).bell(),
        }
    }

    fn next_news(&mut self) -> Option<u64> {
        match self {
            Held::Own(listener) => listener.next_news(),
            Held::Common(_) => None,
        }
    }

    fn wait<R: Wait>(&mut self, rt: &R, idle: bool) {
        match self {
            Held::Own(listener) => listener.wait(idle),
            Held::Common(listener) => listener.lock(rt).wait(idle),
        }
    }
}

/// One of two listeners by which two loops take wires from one port. Each has a listener of its own where the first one could
/// make a twin, and else both use that one in turn, by a lock, so that a call may wait for the other's to end.
///
/// Contracts see its own counts, each up to 2^64 - 1: of its accepts that failed, of the wires that it gave, and of its accepts in
/// a row that answered `NotYet`.
#[derive(Drop)]
pub struct Share<R, L> {
    rt: R,
    held: Held<L>,
    faults: u64,
    given: u64,
    lulls: u64,
}

impl<R, L> Model for Share<R, L> {
    ghost use Rattle.node_loops.specs.ShareValue.{ShareValue};

    ghost Value = { ShareValue };

    ghost view = { λ s. record { faults = s.faults; given = s.given; lulls = s.lulls } };
}

impl<R: Wait + Copy, L: Listener> Share<R, L> {
    fn over(rt: R, held: Held<L>) -> Share<R, L>
        ensures { IsNew result }
    {
        Share {
            rt,
            held,
            faults: 0,
            given: 0,
            lulls: 0,
        }
    }

    /// The two shares of this listener, before their first accepts. `NoMemory` drops the listener.
    pub fn pair(
        rt: R,
        alloc: Global,
        mut listener: L,
    ) -> Result<(Share<R, L>, Share<R, L>), NoMemory>
        ensures first { IfOk result (λ pair. IsNew pair.0) }
        ensures second { IfOk result (λ pair. IsNew pair.1) }
    {
        if let Some(twin) = listener.twin() {
            let first = Share::over(rt, Held::Own(listener));
            let second = Share::over(rt, Held::Own(twin));
            return Ok((first, second));
        }
        let Ok(common) = Arc::new(alloc, Mutex::new(listener)) else {
            return Err(NoMemory);
        };
        let Ok(again) = Arc::try_clone(&common) else {
            return Err(NoMemory);
        };
        let first = Share::over(rt, Held::Common(common));
        let second = Share::over(rt, Held::Common(again));
        Ok((first, second))
    }

    // Counts an answer of an accept.
    fn count(&mut self, answer: &Accepted<L::W>)
        ensures cause { AcceptFails answer.now self.old.faults self.new.faults }
        ensures lulls { self.new.lulls ≡ lulls_after_accept answer.now self.old.lulls }
        ensures given { self.new.given ≡ given_after answer.now self.old.given }
    {
        match answer {
            Accepted::Got(_) => {
                self.given = self.given.saturating_add(1);
                self.lulls = 0;
            }
            Accepted::NotYet => self.lulls = self.lulls.saturating_add(1),
            Accepted::Failed => {
                self.faults = self.faults.saturating_add(1);
                self.lulls = 0;
            }
        }
    }
}

impl<R: Wait + Copy, L: Listener> Listener for Share<R, L> {
    type W = L::W;

    type B = L::B;

    ghost faults = { λ s. s.faults };

    ghost lulls = { λ s. s.lulls };

    ghost given = { λ s. s.given };

    /// Accepts at the listener that it has, in its turn where the other share has it too.
    fn accept(&mut self) -> Accepted<L::W> {
        let answer = self.held.accept(&self.rt);
        self.count(&answer);
        answer
    }

    /// The bell of the listener that it has.
    fn bell(&self) -> Result<L::B, NoMemory> {
        self.held.bell(&self.rt)
    }

    /// None: it is one of two.
    fn twin(&mut self) -> Option<Share<R, L>>
        ensures fresh { IfSome result (λ twin. twin.given ≡ 0) }
        ensures calm { IfSome result (λ twin. twin.lulls ≡ 0) }
        ensures faults { self.new.faults ≡ self.old.faults }
        ensures lulls { self.new.lulls ≡ self.old.lulls }
        ensures given { self.new.given ≡ self.old.given }
        ensures none { IsNone result }
    {
        None
    }

    /// The news of a listener of its own; none where the listener is also the other's, which counts both shares' wires.
    fn next_news(&mut self) -> Option<u64> {
        self.held.next_news()
    }

    /// Waits by the listener that it has. Where that is also the other's, the other's calls wait meanwhile.
    fn wait(&mut self, idle: bool) {
        self.held.wait(&self.rt, idle);
    }
}
