//! The places at which a loop calls its gate, its listener and what serves its wires.
ghost use Rattle.std.specs.Prelude.{◌≡◌, IfSome};

use node_loops::{Each, Gate, endpoint_loop};
use push_model::NoMemory;
use push_outside::ListWire;
use push_ports::{Accepted, Listener, NoBell};
use std::alloc::{AllocError, Global};
use std::sync::{Arc, Mutex, Wait};
use std::test::Fail;

// The calls so far, as words.
#[derive(Drop)]
struct Log<R> {
    rt: R,
    words: Arc<Mutex<String>>,
}

impl<R: Wait + Copy> Log<R> {
    fn new(rt: R, alloc: Global) -> Result<Log<R>, AllocError> {
        let words = Arc::new(alloc, Mutex::new(String::new(alloc)))?;
        Ok(Log { rt, words })
    }

    fn again(&self) -> Result<Log<R>, AllocError> {
        let words = Arc::try_clone(&self.words)?;
        Ok(Log { rt: self.rt, words })
    }

    fn note(&self, word: &str) {
        let mut words = self.words.lock(&self.rt);
        let _ = words.push_str(word);
        let _ = words.push(' ');
    }

    fn is(&self, wanted: &str) -> bool {
        self.words.lock(&self.rt).trim_end() == wanted
    }
}

// Answers true at its stop of this number.
#[derive(Drop)]
struct LogGate<R> {
    log: Log<R>,
    left: u64,
    stopped: bool,
}

impl<R: Wait + Copy> Gate for LogGate<R> {
    ghost stopped = { λ gate. gate.stopped };

    fn stop(&mut self) -> bool {
        self.log.note("stop");
        self.left = self.left.saturating_sub(1);
        let is_last = self.left == 0;
        self.stopped = self.stopped || is_last;
        is_last
    }

    fn turn(&mut self, n: u64) {
        match n {
            1 => self.log.note("turn1"),
            2 => self.log.note("turn2"),
            _ => self.log.note("turn"),
        }
    }
}

// Its accepts answer by the letters: g gives a wire, f fails, and any other has none.
#[derive(Drop)]
struct LogListener<R> {
    alloc: Global,
    log: Log<R>,
    answers: &'static [u8],
    faults: u64,
    lulls: u64,
    given: u64,
}

impl<R: Wait + Copy> Listener for LogListener<R> {
    type W = ListWire;

    type B = NoBell;

    ghost faults = { λ l. l.faults };

    ghost lulls = { λ l. l.lulls };

    ghost given = { λ l. l.given };

    fn accept(&mut self) -> Accepted<ListWire> {
        self.log.note("accept");
        let Some((answer, rest)) = self.answers.split_first() else {
            self.lulls = self.lulls.saturating_add(1);
            return Accepted::NotYet;
        };
        self.answers = rest;
        match *answer {
            b'g' => {
                self.lulls = 0;
                self.given = self.given.saturating_add(1);
                let none = Vec::new(self.alloc);
                Accepted::Got(ListWire::new(
                    self.alloc,
                    none,
                    Vec::new(self.alloc),
                    Vec::new(self.alloc),
                ))
            }
            b'f' => {
                self.lulls = 0;
                self.faults = self.faults.saturating_add(1);
                Accepted::Failed
            }
            _ => {
                self.lulls = self.lulls.saturating_add(1);
                Accepted::NotYet
            }
        }
    }

    fn bell(&self) -> Result<NoBell, NoMemory> {
        Ok(NoBell)
    }

    fn twin(&mut self) -> Option<LogListener<R>>
        ensures fresh { IfSome result (λ twin. twin.given ≡ 0) }
        ensures calm { IfSome result (λ twin. twin.lulls ≡ 0) }
        ensures faults { self.new.faults ≡ self.old.faults }
        ensures lulls { self.new.lulls ≡ self.old.lulls }
        ensures given { self.new.given ≡ self.old.given }
    {
        None
    }

    fn next_news(&mut self) -> Option<u64> {
        None
    }

    fn wait(&mut self, idle: bool) {
        self.log.note(if idle { "wait" } else { "look" });
    }
}

#[derive(Drop)]
struct LogEach<R> {
    log: Log<R>,
    served: u64,
}

impl<R: Wait + Copy> Each<ListWire> for LogEach<R> {
    ghost served = { λ each. each.served };

    ghost goes_on = { λ one other. Unit {0} };

    fn serve(&mut self, _wire: ListWire) {
        self.log.note("serve");
        self.served = self.served.saturating_add(1);
    }

    ghost none_served = { λ one. tt };

    ghost more_served = { λ one two three before after. tt };
}

// The calls of a loop whose accepts answer so, and that is stopped at the stop of this number.
fn calls<R: Wait + Copy>(
    rt: R,
    alloc: Global,
    answers: &'static [u8],
    stops: u64,
) -> Result<Log<R>, AllocError> {
    let log = Log::new(rt, alloc)?;
    let mut listener = LogListener {
        alloc,
        log: log.again()?,
        answers,
        faults: 0,
        lulls: 0,
        given: 0,
    };
    let each = LogEach {
        log: log.again()?,
        served: 0,
    };
    let gate = LogGate {
        log: log.again()?,
        left: stops,
        stopped: false,
    };
    let _ = endpoint_loop(&rt, &mut listener, each, gate);
    Ok(log)
}

// It asks before each accept, and tells of a wire before it serves it.
#[test]
fn a_loop_asks_accepts_tells_and_serves(rt: HostRuntime) -> Result<(), Fail> {
    let log = calls(rt, rt.alloc(), b"gg", 3)?;
    let wanted = "stop accept turn1 serve stop accept turn2 serve stop";
    assert!(rt; log.is(wanted));
    Ok(())
}

// It waits where an accept gave none, and goes on after accepts that fail.
#[test]
fn a_loop_waits_and_goes_on(rt: HostRuntime) -> Result<(), Fail> {
    let log = calls(rt, rt.alloc(), b"f-g", 4)?;
    let wanted = "stop accept wait stop accept wait stop accept turn1 serve stop";
    assert!(rt; log.is(wanted));
    Ok(())
}

#[test]
fn a_loop_that_is_stopped_at_once_accepts_none(rt: HostRuntime) -> Result<(), Fail> {
    let log = calls(rt, rt.alloc(), b"g", 1)?;
    assert!(rt; log.is("stop"));
    Ok(())
}
