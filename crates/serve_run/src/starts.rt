//! Starting the loops of the nodes.
ghost use Rattle.std.specs.Prelude.{◌≡◌, ◌<◌, ◌≤◌, ◌+◌, [], ◌*◌, IfOk, vec_capacity, vec_len};
ghost use Rattle.push_exchange.specs.Boards.{IsSplit, passes_view};
ghost use Rattle.push_model.specs.DeskViews.{Calls};
ghost use Rattle.serve_run.specs.Crews.{EachBeside, IsOpenedAlike, StaffedBy};
ghost use Rattle.serve_run.specs.Doors.{Started};
ghost use Rattle.serve_run.specs.Worlds.{IsEmpty};

use crate::crew::launch;
use crate::halt::Halt;
use client_messages::Port;
use node_loops::{Share, StopGate};
use node_runner::NodeJob;
use node_runner::laws::new_passes_began_no_flight;
use push_exchange::Passes;
use push_model::{NoMemory, NodeId};
use push_outside::{Clock, Draw};
use push_ports::{Listener, Spawner};
use session_front::Place;
use std::alloc::Global;
use std::sync::Wait;

// The bell of a loop's listener is kept for the end.
fn keep_bell<L: Listener>(listener: &L, alarms: &mut Vec<L::B>) -> Result<(), NoMemory> {
    let bell = listener.bell()?;
    match alarms.push(bell) {
        Ok(()) => Ok(()),
        Err(_) => Err(NoMemory),
    }
}

// What a loop is given: passes and a gate of its own.
fn equip<R: Wait + Copy, L: Listener>(
    alloc: Global,
    passes: &mut Passes<R, L::B>,
    gate: &StopGate,
) -> Result<(Passes<R, L::B>, StopGate), NoMemory>
    ensures stays { Calls (passes_view passes.old) (passes_view passes.new) [] }
    ensures split { IfOk result (λ r. IsSplit (passes_view passes.old) (passes_view r.0)) }
{
    let gate = gate.share()?;
    let theirs = passes.split(alloc)?;
    Ok((theirs, gate))
}

// Starts the loop of a connection node.
fn start_connection<R, L, C, G, S>(
    rt: R,
    alloc: Global,
    spawner: &mut S,
    running: &mut Vec<S::Running>,
    alarms: &mut Vec<L::B>,
    passes: &mut Passes<R, L::B>,
    gate: &StopGate,
    listener: L,
    clock: &C,
    draw: &mut G,
    place: Place,
) -> Result<(), Halt>
where
    R: Wait + Copy,
    L: Listener,
    C: Clock + Copy + Drop,
    G: Draw + Drop,
    S: Spawner<NodeJob<R, L::B, L, C, G>>,
    S::Running: Drop,
    requires can { S.can_start spawner.old }
    requires room { vec_len running.old < vec_capacity running.old }
    requires beside { EachBeside S.runs (passes_view passes.old) running.old.items }
    ensures can { S.can_start spawner.new }
    ensures staffed { StaffedBy result S.runs 1 (passes_view passes.old) (passes_view passes.new) running.old.items running.new.items (S.started spawner.old) (S.started spawner.new) }
    ensures joined { S.joined spawner.new ≡ S.joined spawner.old }
    ensures cause { Started result (S.faults spawner.old) (S.faults spawner.new) }
    ensures room { vec_capacity running.old ≤ vec_capacity running.new }
{
    let Ok(()) = keep_bell::<L>(&listener, alarms) else {
        return Err(Halt::NoMemory);
    };
    let Ok((theirs, gate)) = equip::<R, L>(alloc, passes, gate) else {
        return Err(Halt::NoMemory);
    };
    let job = NodeJob::connection(
        rt,
        alloc,
        theirs,
        listener,
        *clock,
        draw.fork(),
        place,
        gate,
    );
    launch::<NodeJob<R, L::B, L, C, G>, S>(spawner, running, job)
}

// Starts a loop of an endpoint node.
fn start_endpoint<R, L, C, G, S>(
    rt: R,
    alloc: Global,
    spawner: &mut S,
    running: &mut Vec<S::Running>,
    alarms: &mut Vec<L::B>,
    passes: &mut Passes<R, L::B>,
    gate: &StopGate,
    share: Share<R, L>,
    clock: &C,
) -> Result<(), Halt>
where
    R: Wait + Copy,
    L: Listener,
    C: Clock + Copy + Drop,
    G: Draw + Drop,
    S: Spawner<NodeJob<R, L::B, L, C, G>>,
    S::Running: Drop,
    requires can { S.can_start spawner.old }
    requires room { vec_len running.old < vec_capacity running.old }
    requires beside { EachBeside S.runs (passes_view passes.old) running.old.items }
    requires empty { IsEmpty (passes_view passes.old) }
    ensures can { S.can_start spawner.new }
    ensures staffed { StaffedBy result S.runs 1 (passes_view passes.old) (passes_view passes.new) running.old.items running.new.items (S.started spawner.old) (S.started spawner.new) }
    ensures joined { S.joined spawner.new ≡ S.joined spawner.old }
    ensures cause { Started result (S.faults spawner.old) (S.faults spawner.new) }
    ensures room { vec_capacity running.old ≤ vec_capacity running.new }
{
    let Ok(()) = keep_bell::<Share<R, L>>(&share, alarms) else {
        return Err(Halt::NoMemory);
    };
    let Ok((theirs, gate)) = equip::<R, L>(alloc, passes, gate) else {
        return Err(Halt::NoMemory);
    };
    new_passes_began_no_flight();
    let job = NodeJob::endpoint(rt, alloc, theirs, share, *clock, gate);
    launch::<NodeJob<R, L::B, L, C, G>, S>(spawner, running, job)
}

// Starts the two loops of an endpoint node.
fn start_pair<R, L, C, G, S>(
    rt: R,
    alloc: Global,
    spawner: &mut S,
    running: &mut Vec<S::Running>,
    alarms: &mut Vec<L::B>,
    passes: &mut Passes<R, L::B>,
    gate: &StopGate,
    listener: L,
    clock: &C,
) -> Result<(), Halt>
where
    R: Wait + Copy,
    L: Listener,
    C: Clock + Copy + Drop,
    G: Draw + Drop,
    S: Spawner<NodeJob<R, L::B, L, C, G>>,
    S::Running: Drop,
    requires can { S.can_start spawner.old }
    requires room { vec_len running.old + 1 < vec_capacity running.old }
    requires beside { EachBeside S.runs (passes_view passes.old) running.old.items }
    requires empty { IsEmpty (passes_view passes.old) }
    ensures can { S.can_start spawner.new }
    ensures staffed { StaffedBy result S.runs 2 (passes_view passes.old) (passes_view passes.new) running.old.items running.new.items (S.started spawner.old) (S.started spawner.new) }
    ensures joined { S.joined spawner.new ≡ S.joined spawner.old }
    ensures cause { Started result (S.faults spawner.old) (S.faults spawner.new) }
    ensures room { vec_capacity running.old ≤ vec_capacity running.new }
{
    let Ok((first, second)) = Share::pair(rt, alloc, listener) else {
        return Err(Halt::NoMemory);
    };
    if let Err(halt) = start_endpoint::<R, L, C, G, S>(
        rt, alloc, spawner, running, alarms, passes, gate, first, clock,
    ) {
        return Err(halt);
    }
    start_endpoint::<R, L, C, G, S>(
        rt, alloc, spawner, running, alarms, passes, gate, second, clock,
    )
}

/// Starts the loop of each connection node. The nodes are numbered from 1, in the order of their listeners.
pub fn start_connections<R, L, C, G, S>(
    rt: R,
    alloc: Global,
    spawner: &mut S,
    running: &mut Vec<S::Running>,
    alarms: &mut Vec<L::B>,
    passes: &mut Passes<R, L::B>,
    gate: &StopGate,
    listeners: Vec<L>,
    clock: &C,
    draw: &mut G,
    port: Port,
) -> Result<(), Halt>
where
    R: Wait + Copy,
    L: Listener,
    C: Clock + Copy + Drop,
    G: Draw + Drop,
    S: Spawner<NodeJob<R, L::B, L, C, G>>,
    S::Running: Drop,
    requires can { S.can_start spawner.old }
    requires nodes { vec_len listeners ≤ 8 }
    requires room { vec_len running.old + vec_len listeners ≤ vec_capacity running.old }
    requires beside { EachBeside S.runs (passes_view passes.old) running.old.items }
    ensures can { S.can_start spawner.new }
    ensures staffed { StaffedBy result S.runs (vec_len listeners) (passes_view passes.old) (passes_view passes.new) running.old.items running.new.items (S.started spawner.old) (S.started spawner.new) }
    ensures joined { S.joined spawner.new ≡ S.joined spawner.old }
    ensures cause { Started result (S.faults spawner.old) (S.faults spawner.new) }
    ensures room { vec_capacity running.old ≤ vec_capacity running.new }
{
    let mut listeners = listeners;
    while let Some(listener) = listeners.pop() {
        let Some(node) = NodeId::new(listeners.len() as u8 + 1) else {
            unreachable!()
        };
        let place = Place { node, port };
        if let Err(halt) = start_connection::<R, L, C, G, S>(
            rt, alloc, spawner, running, alarms, passes, gate, listener, clock, draw, place,
        ) {
            return Err(halt);
        }
    }
    Ok(())
}

/// Starts the two loops of each endpoint node.
pub fn start_endpoints<R, L, C, G, S>(
    rt: R,
    alloc: Global,
    spawner: &mut S,
    running: &mut Vec<S::Running>,
    alarms: &mut Vec<L::B>,
    passes: &mut Passes<R, L::B>,
    gate: &StopGate,
    listeners: Vec<L>,
    clock: &C,
) -> Result<(), Halt>
where
    R: Wait + Copy,
    L: Listener,
    C: Clock + Copy + Drop,
    G: Draw + Drop,
    S: Spawner<NodeJob<R, L::B, L, C, G>>,
    S::Running: Drop,
    requires can { S.can_start spawner.old }
    requires room { vec_len running.old + (vec_len listeners + vec_len listeners) ≤ vec_capacity running.old }
    requires beside { EachBeside S.runs (passes_view passes.old) running.old.items }
    requires empty { IsEmpty (passes_view passes.old) }
    ensures staffed { StaffedBy result S.runs (vec_len listeners + vec_len listeners) (passes_view passes.old) (passes_view passes.new) running.old.items running.new.items (S.started spawner.old) (S.started spawner.new) }
    ensures joined { S.joined spawner.new ≡ S.joined spawner.old }
    ensures cause { Started result (S.faults spawner.old) (S.faults spawner.new) }
{
    let mut listeners = listeners;
    while let Some(listener) = listeners.pop() {
        if let Err(halt) = start_pair::<R, L, C, G, S>(
            rt, alloc, spawner, running, alarms, passes, gate, listener, clock,
        ) {
            return Err(halt);
        }
    }
    Ok(())
}
