//! One request of a connection, and its answer.
ghost use Rattle.std.specs.Prelude.{◌≡◌, ◌<◌, ◌≤◌, ◌^◌, ℕ, List, Ok, Err};
ghost use Rattle.std.specs.Io.KnownBytes.{Keeps};
ghost use Rattle.push_model.specs.DeskViews.{IsHonest};
ghost use Rattle.http_bytes.specs.Causes.{CausedBy, CausedByWrites};
ghost use Rattle.http_bytes.specs.Puts.{WritesAll};
ghost use Rattle.http_front.specs.Exchanges.{Tells, TellsAnswer, TellsRefusal};
ghost use Rattle.http_front.specs.Faults.{IsSound};
ghost use Rattle.http_front.specs.OpNumbers.{IsAbove};
ghost use Rattle.http_front.specs.Rows.{fault_row};
ghost use Rattle.http_front.specs.Served.{FaultTold, scene};
ghost use Rattle.http_front.specs.Steps.{Answers, Nexts};

use crate::ends::{HttpEnd, end_after, request_end};
use crate::fault::Fault;
use crate::laws::requests_are_sound;
use crate::ops::Ops;
use crate::outcome::{Outcome, outcome_of};
use crate::refusal::Refusal;
use crate::tell::{tell_created, tell_malformed, tell_no_memory, tell_refusal};
use endpoint_router::Answer;
use http_bytes::{Rest, WireFault};
use http_wire::{Request, next_request};
use node_routes::NodeLink;
use push_model::Desks;
use push_outside::{Clock, Wire};
use push_paths::Paths;
use std::alloc::Global;

fn tell_answer<W: Wire>(
    alloc: Global,
    wire: &mut W,
    answer: Answer,
    close: bool,
) -> Result<(), WireFault>
    ensures written { (text : List ℕ) × TellsAnswer (Ok answer) close text × WritesAll result text (W.written wire.old) (W.written wire.new) }
    ensures kept { Keeps (W.left wire.old) (W.left wire.new) }
    ensures cause { CausedByWrites result (W.faults wire.old) (W.faults wire.new) (W.lulls wire.new) }
{
    match Refusal::of_answer(answer) {
        Ok((id, ttl)) => tell_created(wire, id, ttl, close),
        Err(refusal) => tell_refusal(alloc, wire, refusal, close),
    }
}

fn tell_faulty<W: Wire>(
    alloc: Global,
    wire: &mut W,
    fault: Fault,
    close: bool,
) -> Result<(), WireFault>
    ensures written { (text : List ℕ) × TellsRefusal (fault_row fault) close text × WritesAll result text (W.written wire.old) (W.written wire.new) }
    ensures kept { Keeps (W.left wire.old) (W.left wire.new) }
    ensures cause { CausedByWrites result (W.faults wire.old) (W.faults wire.new) (W.lulls wire.new) }
{
    tell_refusal(alloc, wire, Refusal::of_fault(fault), close)
}

// Tells what a request came to.
fn tell<W: Wire>(
    alloc: Global,
    wire: &mut W,
    outcome: Outcome,
    close: bool,
) -> Result<(), WireFault>
    ensures written { (text : List ℕ) × Tells outcome close text × WritesAll result text (W.written wire.old) (W.written wire.new) }
    ensures kept { Keeps (W.left wire.old) (W.left wire.new) }
    ensures cause { CausedByWrites result (W.faults wire.old) (W.faults wire.new) (W.lulls wire.new) }
{
    match outcome {
        Outcome::Faulty(fault) => tell_faulty(alloc, wire, fault, close),
        Outcome::Unread => tell_no_memory(wire, close),
        Outcome::Routed(Ok(answer)) => tell_answer(alloc, wire, answer, close),
        Outcome::Routed(Err(_)) => tell_no_memory(wire, close),
    }
}

// Answers a request, the one of that count, and says what ends the connection after it, if anything does.
fn answer<D: Desks, L: NodeLink<D>, C: Clock, W: Wire>(
    alloc: Global,
    desks: &mut D,
    link: &mut L,
    clock: &C,
    wire: &mut W,
    ops: &mut Ops,
    paths: &Paths,
    request: Request,
    count: u32,
) -> Result<Option<HttpEnd>, WireFault>
    requires sound { IsSound request }
    requires honest { IsHonest (D.view desks.old) }
    requires above { IsAbove (D.view desks.old) ops.old.k }
    requires room { ops.old.k < 2 ^ 63 }
    ensures answers { Answers (C.moment clock.now) count request result (scene D.view L.faults W.left W.written desks.old link.old wire.old ops.old) (scene D.view L.faults W.left W.written desks.new link.new wire.new ops.new) }
    ensures faults { L.faults link.old ≤ L.faults link.new }
    ensures cause { CausedByWrites result (W.faults wire.old) (W.faults wire.new) (W.lulls wire.new) }
    ensures honest { IsHonest (D.view desks.new) }
    ensures above { IsAbove (D.view desks.new) ops.new.k }
{
    let wish = request_end(&request);
    let outcome = outcome_of(alloc, desks, link, clock, ops, paths, request);
    let end = end_after(wish, count, ops);
    match tell(alloc, wire, outcome, end.is_some()) {
        Ok(()) => Ok(end),
        Err(fault) => Err(fault),
    }
}

// Tells the sender why no request is read, where it is told, and says why the connection ends.
fn tell_fault<W: Wire>(alloc: Global, wire: &mut W, fault: WireFault) -> WireFault
    ensures told { FaultTold fault result (W.written wire.old) (W.written wire.new) }
    ensures kept { Keeps (W.left wire.old) (W.left wire.new) }
    ensures cause { (before : ℕ) → CausedBy {A = ℕ} (Err fault) before (W.faults wire.old) (W.lulls wire.old) → CausedBy {A = ℕ} (Err result) before (W.faults wire.new) (W.lulls wire.new) }
{
    match fault {
        WireFault::BadHead => tell_malformed(alloc, wire, fault, 400, 100),
        WireFault::HeadTooLong => tell_malformed(alloc, wire, fault, 431, 107),
        _ => fault,
    }
}

// Says that the sender is between two requests, where no byte of the next is kept.
fn pause<W: Wire>(wire: &mut W, rest: &Rest)
    ensures left { Keeps (W.left wire.old) (W.left wire.new) }
    ensures written { Keeps (W.written wire.old) (W.written wire.new) }
    ensures faults { W.faults wire.new ≡ W.faults wire.old }
{
    if rest.is_empty() {
        wire.rest();
    }
}

/// Reads the next request, the one of that count, and answers it, and says what ends the connection after it, if anything does.
/// Where no request is read the sender is told why, if there is something to say.
pub fn serve_next<D: Desks, L: NodeLink<D>, C: Clock, W: Wire>(
    alloc: Global,
    desks: &mut D,
    link: &mut L,
    clock: &C,
    wire: &mut W,
    ops: &mut Ops,
    paths: &Paths,
    rest: &mut Rest,
    count: u32,
) -> Result<Option<HttpEnd>, WireFault>
    requires honest { IsHonest (D.view desks.old) }
    requires above { IsAbove (D.view desks.old) ops.old.k }
    requires room { ops.old.k < 2 ^ 63 }
    ensures next { Nexts (C.moment clock.now) count result rest.old rest.new (scene D.view L.faults W.left W.written desks.old link.old wire.old ops.old) (scene D.view L.faults W.left W.written desks.new link.new wire.new ops.new) }
    ensures faults { L.faults link.old ≤ L.faults link.new }
    ensures cause { CausedBy result (W.faults wire.old) (W.faults wire.new) (W.lulls wire.new) }
    ensures honest { IsHonest (D.view desks.new) }
    ensures above { IsAbove (D.view desks.new) ops.new.k }
{
    requests_are_sound();
    pause(wire, rest);
    match next_request(alloc, wire, rest) {
        Ok(request) => answer(alloc, desks, link, clock, wire, ops, paths, request, count),
        Err(fault) => Err(tell_fault(alloc, wire, fault)),
    }
}
