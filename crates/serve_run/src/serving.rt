//! A service, from its ports to its last two lines.
ghost use Rattle.std.specs.Prelude.{◌≡◌, ◌≤◌, ◌+◌, [], ℕ, vec_capacity, vec_len};
ghost use Rattle.push_exchange.specs.Boards.{IsOver, passes_view};
ghost use Rattle.autopush_main.specs.Known.{NoFault};
ghost use Rattle.node_control.specs.Controls.{BlamesInput as BlamesControlInput, BlamesOutput as BlamesControlOutput};
ghost use Rattle.serve_run.specs.Crews.{StaffedBy};
ghost use Rattle.serve_run.specs.Doors.{Started};
ghost use Rattle.serve_run.specs.Serves.{BlamesInput, BlamesOutput, BlamesPorts, BlamesSpawner, IsNoPort, LoopsRun, PortsGiven, Serves, loops_of};
ghost use Rattle.serve_run.specs.Lasts.{EndsAs, EndsSo, LastTold};
ghost use Rattle.serve_run.specs.Works.{WorkBlamesInput, WorkBlamesOutput, Worked};
ghost use Rattle.serve_run.specs.Worlds.{IsEmpty};

use crate::doors::{Doors, open_doors};
use crate::ends::ServeEnd;
use crate::halt::Halt;
use crate::house::{House, build, take_down};
use crate::starts::{start_connections, start_endpoints};
use crate::sums::tell_sums;
use autopush_main::Written;
use client_messages::Port;
use node_control::{ControlEnd, run_control};
use node_loops::StopGate;
use node_runner::NodeJob;
use push_exchange::{Passes, Shards};
use push_outside::{Clock, Draw, Sink, Source};
use push_ports::{Listener, Ports, Spawner};
use serve_words::ServePlan;
use std::alloc::Global;
use std::sync::Wait;

// Starts all loops.
fn start_all<R, L, C, G, S>(
    rt: R,
    alloc: Global,
    spawner: &mut S,
    running: &mut Vec<S::Running>,
    alarms: &mut Vec<L::B>,
    passes: &mut Passes<R, L::B>,
    gate: &StopGate,
    doors: Doors<L>,
    clock: &C,
    draw: &mut G,
    port: Port,
) -> Result<(), Halt>
where
    R: Wait + Copy,
    L: Listener,
    C: Clock + Copy + Drop,
    G: Draw + Drop,
    S: Spawner<NodeJob<R, L::B, L, C, G>>,
    S::Running: Drop,
    requires can { S.can_start spawner.old }
    requires connections { vec_len doors.connections ≤ 8 }
    requires endpoints { vec_len doors.endpoints ≤ 8 }
    requires room { 24 ≤ vec_capacity running.old }
    requires none { running.old.items ≡ [] }
    requires empty { IsEmpty (passes_view passes.old) }
    ensures staffed { StaffedBy result S.runs (vec_len doors.connections + (vec_len doors.endpoints + vec_len doors.endpoints)) (passes_view passes.old) (passes_view passes.new) running.old.items running.new.items (S.started spawner.old) (S.started spawner.new) }
    ensures joined { S.joined spawner.new ≡ S.joined spawner.old }
    ensures cause { Started result (S.faults spawner.old) (S.faults spawner.new) }
{
    let Doors {
        connections,
        endpoints,
    } = doors;
    if let Err(halt) = start_connections::<R, L, C, G, S>(
        rt,
        alloc,
        spawner,
        running,
        alarms,
        passes,
        gate,
        connections,
        clock,
        draw,
        port,
    ) {
        return Err(halt);
    }
    start_endpoints::<R, L, C, G, S>(
        rt, alloc, spawner, running, alarms, passes, gate, endpoints, clock,
    )
}

// Writes the last two lines, of shards that were taken off their boards.
fn tell_last<K: Sink>(alloc: Global, output: &mut K, shards: Option<Shards>) -> ServeEnd
    ensures told { LastTold result shards (K.written output.old) (K.written output.new) }
    ensures sink { BlamesOutput result (K.faults output.old) (K.faults output.new) (K.lulls output.old) (K.lulls output.new) }
    ensures no_read { (f g l m : ℕ) → NoFault f g l m → BlamesInput result f g l m }
{
    let Some(mut shards) = shards else {
        return ServeEnd::NoMemory;
    };
    match tell_sums(alloc, output, &mut shards) {
        Written::All => ServeEnd::Done,
        Written::Lost(fault) => ServeEnd::WriteFault(fault),
        Written::NoMemory => ServeEnd::NoMemory,
    }
}

// How a service ends whose operator's lines ended so.
fn end_of<K: Sink>(
    alloc: Global,
    output: &mut K,
    control: ControlEnd,
    shards: Option<Shards>,
) -> ServeEnd
    ensures ends { EndsAs result control shards (K.written output.old) (K.written output.new) }
    ensures sink { (f l : ℕ) → BlamesControlOutput control f (K.faults output.old) l (K.lulls output.old) → BlamesOutput result f (K.faults output.new) l (K.lulls output.new) }
    ensures source { (f g l m : ℕ) → BlamesControlInput control f g l m → BlamesInput result f g l m }
{
    match control {
        ControlEnd::Done => tell_last(alloc, output, shards),
        ControlEnd::ReadFault(fault) => ServeEnd::ReadFault(fault),
        ControlEnd::WriteFault(fault) => ServeEnd::WriteFault(fault),
        ControlEnd::NoMemory => ServeEnd::NoMemory,
    }
}

// Starts all loops, and answers the operator's lines until they end.
fn work<R, I, K, L, C, G, S>(
    rt: R,
    alloc: Global,
    spawner: &mut S,
    running: &mut Vec<S::Running>,
    alarms: &mut Vec<L::B>,
    passes: &mut Passes<R, L::B>,
    gate: &StopGate,
    doors: Doors<L>,
    input: &mut I,
    output: &mut K,
    clock: &C,
    draw: &mut G,
    port: Port,
) -> Result<ControlEnd, Halt>
where
    R: Wait + Copy,
    I: Source,
    K: Sink,
    L: Listener,
    C: Clock + Copy + Drop,
    G: Draw + Drop,
    S: Spawner<NodeJob<R, L::B, L, C, G>>,
    S::Running: Drop,
    requires can { S.can_start spawner.old }
    requires connections { vec_len doors.connections ≤ 8 }
    requires endpoints { vec_len doors.endpoints ≤ 8 }
    requires room { 24 ≤ vec_capacity running.old }
    requires none { running.old.items ≡ [] }
    requires empty { IsEmpty (passes_view passes.old) }
    ensures worked { Worked result S.runs (vec_len doors.connections + (vec_len doors.endpoints + vec_len doors.endpoints)) (passes_view passes.old) (passes_view passes.new) running.old.items running.new.items (S.started spawner.old) (S.started spawner.new) (I.left input.old) (I.left input.new) (K.written output.old) (K.written output.new) }
    ensures joined { S.joined spawner.new ≡ S.joined spawner.old }
    ensures cause { Started result (S.faults spawner.old) (S.faults spawner.new) }
    ensures source { WorkBlamesInput result (I.faults input.old) (I.faults input.new) (I.lulls input.old) (I.lulls input.new) }
    ensures sink { WorkBlamesOutput result (K.faults output.old) (K.faults output.new) (K.lulls output.old) (K.lulls output.new) }
{
    let begun = start_all::<R, L, C, G, S>(
        rt, alloc, spawner, running, alarms, passes, gate, doors, clock, draw, port,
    );
    match begun {
        Ok(()) => Ok(run_control(&rt, alloc, passes, input, output)),
        Err(halt) => Err(halt),
    }
}

// How a service ends that came so far.
fn end_so<K: Sink>(
    alloc: Global,
    output: &mut K,
    worked: Result<ControlEnd, Halt>,
    shards: Option<Shards>,
) -> ServeEnd
    ensures ends { EndsSo result worked shards (K.written output.old) (K.written output.new) }
    ensures sink { (f l : ℕ) → WorkBlamesOutput worked f (K.faults output.old) l (K.lulls output.old) → BlamesOutput result f (K.faults output.new) l (K.lulls output.new) }
    ensures source { (f g l m : ℕ) → WorkBlamesInput worked f g l m → BlamesInput result f g l m }
{
    match worked {
        Ok(control) => end_of(alloc, output, control, shards),
        Err(halt) => ServeEnd::Halted(halt),
    }
}

// Runs a service that was built.
fn run_house<R, I, K, L, C, G, S>(
    rt: R,
    alloc: Global,
    house: House<R, L::B, S::Running>,
    doors: Doors<L>,
    input: &mut I,
    output: &mut K,
    clock: &C,
    draw: &mut G,
    spawner: &mut S,
    port: Port,
) -> ServeEnd
where
    R: Wait + Copy,
    I: Source,
    K: Sink,
    L: Listener,
    C: Clock + Copy + Drop,
    G: Draw + Drop,
    S: Spawner<NodeJob<R, L::B, L, C, G>>,
    S::Running: Drop,
    requires can { S.can_start spawner.old }
    requires connections { vec_len doors.connections ≤ 8 }
    requires endpoints { vec_len doors.endpoints ≤ 8 }
    requires over { IsOver house.exchange (passes_view house.passes) }
    requires empty { IsEmpty (passes_view house.passes) }
    requires none { house.running.items ≡ [] }
    requires room { 24 ≤ vec_capacity house.running }
    ensures serves { Serves result (I.left input.old) (I.left input.new) (K.written output.old) (K.written output.new) }
    ensures loops { LoopsRun result (vec_len doors.connections + (vec_len doors.endpoints + vec_len doors.endpoints)) (S.started spawner.old) (S.started spawner.new) (S.joined spawner.old) (S.joined spawner.new) }
    ensures spawner { BlamesSpawner result (S.faults spawner.old) (S.faults spawner.new) }
    ensures no_port { IsNoPort result }
    ensures source { BlamesInput result (I.faults input.old) (I.faults input.new) (I.lulls input.old) (I.lulls input.new) }
    ensures sink { BlamesOutput result (K.faults output.old) (K.faults output.new) (K.lulls output.old) (K.lulls output.new) }
{
    let House {
        exchange,
        mut passes,
        gate,
        mut alarms,
        mut running,
    } = house;
    let worked = work::<R, I, K, L, C, G, S>(
        rt,
        alloc,
        spawner,
        &mut running,
        &mut alarms,
        &mut passes,
        &gate,
        doors,
        input,
        output,
        clock,
        draw,
        port,
    );
    let house = House {
        exchange,
        passes,
        gate,
        alarms,
        running,
    };
    let shards = take_down::<R, L, C, G, S>(spawner, house);
    end_so(alloc, output, worked, shards)
}

/// Runs a service with this plan until its operator stops it.
///
/// It asks for a listener at each port, makes an exchange of sixteen empty shards, and starts a loop for each connection node and two
/// for each endpoint node, each over passes of its own. Then it reads the operator's lines from the input, and answers each on the
/// output, as `run_control` does. Once they end, whatever ends them, it stops the loops, waits for each, and takes the shards off
/// their boards. Where the lines ended without a fault, it writes the line of the shards' summed report and that of their summed tally.
///
/// - `Done`: all of that was done and written.
/// - `Halted`: a port can't be listened at, a loop can't be started, or there was no memory for either; the loops that were started
///   are stopped and joined, and nothing was read or written.
/// - `ReadFault`, `WriteFault`: reading or writing broke off; `NoMemory`: memory ran out. All was taken down in order.
///
/// It waits as long as the operator's lines last, and for its loops to end.
pub fn serve<R, I, K, C, G, N, S>(
    rt: R,
    alloc: Global,
    plan: &ServePlan,
    input: &mut I,
    output: &mut K,
    clock: &C,
    draw: &mut G,
    ports: &mut N,
    spawner: &mut S,
) -> ServeEnd
where
    R: Wait + Copy,
    I: Source,
    K: Sink,
    C: Clock + Copy + Drop,
    G: Draw + Drop,
    N: Ports,
    S: Spawner<NodeJob<R, <N::L as Listener>::B, N::L, C, G>>,
    S::Running: Drop,

    // Where it may start loops at all.
    requires can { S.can_start spawner.old }

    // What was read and written, by how it ended.
    ensures serves { Serves result (I.left input.old) (I.left input.new) (K.written output.old) (K.written output.new) }

    // Where it began, each port had its listener, and each loop was started; each that was started was joined.
    ensures listeners { PortsGiven result plan.now (N.given ports.old) (N.given ports.new) }
    ensures loops { LoopsRun result (loops_of plan.now) (S.started spawner.old) (S.started spawner.new) (S.joined spawner.old) (S.joined spawner.new) }

    // What it blames.
    ensures ports { BlamesPorts result (N.faults ports.old) (N.faults ports.new) }
    ensures spawner { BlamesSpawner result (S.faults spawner.old) (S.faults spawner.new) }
    ensures source { BlamesInput result (I.faults input.old) (I.faults input.new) (I.lulls input.old) (I.lulls input.new) }
    ensures sink { BlamesOutput result (K.faults output.old) (K.faults output.new) (K.lulls output.old) (K.lulls output.new) }
{
    let doors = match open_doors(alloc, ports, plan) {
        Ok(doors) => doors,
        Err(halt) => return ServeEnd::Halted(halt),
    };
    let Ok(house) = build(rt, alloc, &doors) else {
        return ServeEnd::Halted(Halt::NoMemory);
    };
    let port: Port = plan.endpoint_port();
    run_house::<R, I, K, N::L, C, G, S>(
        rt, alloc, house, doors, input, output, clock, draw, spawner, port,
    )
}
