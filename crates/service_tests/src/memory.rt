//! Services in memory: no connection comes, and each loop is run where it is joined.

use autopush_serve::{Ended, start_serve};
use push_outside::{ListDraw, ListWire, SetClock, SureSink, SureSource};
use push_ports::{FailSpawner, ListPorts};
use serve_run::{Halt, ServeEnd};
use std::alloc::Global;
use std::process::Abort;
use std::sync::Wait;
use std::test::Fail;

// What a service is given: its words, the listen and the start that fail, and whether there are random bytes.
#[derive(Clone, Copy)]
struct Case {
    words: &'static [&'static str],
    listen: u64,
    start: u64,
    has_draw: bool,
}

/// The words of one node of each kind.
const PAIR: Case = Case {
    words: &["serve", "1", "1", "9001", "9101"],
    listen: 9,
    start: 9,
    has_draw: true,
};

// Serves these lines, and compares how it ended, what it wrote and what it said.
fn ends<R: Wait + Copy + Abort>(
    rt: R,
    alloc: Global,
    case: Case,
    lines: &[u8],
    ended: Ended,
    status: u8,
    written: &[u8],
    said: &[u8],
) -> Result<(), Fail> {
    let mut words = Vec::new(alloc);
    for word in case.words {
        words.push(String::from_str(alloc, word)?)?;
    }
    let mut input = SureSource::new(Vec::from_slice(alloc, lines)?);
    let mut output = SureSink::new(alloc);
    let mut messages = SureSink::new(alloc);
    let lots: Vec<Vec<ListWire>> = Vec::new(alloc);
    let mut ports = ListPorts::new(alloc, lots, vec![in alloc; case.listen]?);
    let mut spawner = FailSpawner::new(vec![in alloc; case.start]?);
    let draw = case.has_draw.then_some(ListDraw::new(0));
    let ending = start_serve(
        rt,
        alloc,
        &words,
        &mut input,
        &mut output,
        &mut messages,
        &SetClock::new(1),
        draw,
        &mut ports,
        &mut spawner,
    );
    assert_eq!(rt; ending.ended, ended);
    assert_eq!(rt; ending.status, status);
    assert!(rt; output.bytes() == written, "what is written at {status}");
    assert!(rt; messages.bytes() == said, "what is said at {status}");
    Ok(())
}

// Each line is answered, and then the lines of the sums are written.
#[test]
fn lines_and_sums(rt: HostRuntime) -> Result<(), Fail> {
    let written = b"done
unknown
killed 0 0
report users 0 stored 0 held 0 flights 0 unsent 0 orphans 0 waiting 0
report users 0 stored 0 held 0 flights 0 unsent 0 orphans 0 waiting 0
tally begun 0 ok 0 refused 0 stored 0 shown 0 acked 0 saved 0 left 0 lost 0
";
    let lines = b"up 1\nfly\nkill 1\nreport\nstop\n";
    let done = Ended::Served(ServeEnd::Done);
    ends(rt, rt.alloc(), PAIR, lines, done, 0, written, b"")
}

// A refusal writes nothing, and says why.
#[test]
fn refusals(rt: HostRuntime) -> Result<(), Fail> {
    let alloc = rt.alloc();
    let same_port = Case {
        words: &["serve", "1", "1", "9001", "9001"],
        ..PAIR
    };
    let usage =
        b"autopush: usage: autopush replay < SCHEDULE, or autopush serve CONNECTIONS ENDPOINTS CONNECTION_PORT ENDPOINT_PORT\n";
    ends(rt, alloc, same_port, b"", Ended::WrongWords, 2, b"", usage)?;
    let no_draw = Case {
        has_draw: false,
        ..PAIR
    };
    let no_seed = b"autopush: the machine gave no random seed\n";
    ends(rt, alloc, no_draw, b"", Ended::NoSeed, 12, b"", no_seed)?;
    let second_listen = Case { listen: 2, ..PAIR };
    let port = Ended::Served(ServeEnd::Halted(Halt::Port));
    let no_port = b"autopush: a port can't be listened at\n";
    ends(rt, alloc, second_listen, b"", port, 3, b"", no_port)?;
    let second_start = Case { start: 2, ..PAIR };
    let loop_refused = Ended::Served(ServeEnd::Halted(Halt::Loop));
    let no_loop = b"autopush: a loop can't be started\n";
    ends(rt, alloc, second_start, b"", loop_refused, 8, b"", no_loop)
}
