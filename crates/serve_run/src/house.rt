//! What a service is made of, and how it is taken down.
ghost use Rattle.std.specs.Prelude.{◌≡◌, ◌≤◌, ◌+◌, [], IfOk, IfSome, vec_capacity, vec_len};
ghost use Rattle.node_loops.specs.Together.{raised};
ghost use Rattle.push_exchange.specs.Boards.{IsFresh, IsOver, passes_view};
ghost use Rattle.push_model.specs.DeskViews.{IsHonest};
ghost use Rattle.serve_run.specs.Crews.{EachBeside};
ghost use Rattle.serve_run.specs.Worlds.{AreSound, IsEmpty};

use crate::crew::join_all;
use crate::doors::{Doors, bells_of};
use node_loops::StopGate;
use node_runner::NodeJob;
use push_exchange::{Exchange, Passes, Shards};
use push_model::NoMemory;
use push_outside::{Clock, Draw};
use push_ports::{Bell, Listener, Spawner};
use std::alloc::Global;
use std::sync::Wait;

/// The exchange, its first passes, the gate of all loops, and room for these and for their bells.
#[derive(Drop)]
pub struct House<R, B, T> {
    /// The boards.
    pub exchange: Exchange<B>,
    /// The passes of the operator.
    pub passes: Passes<R, B>,
    /// What stops the loops.
    pub gate: StopGate,
    /// The bells of the loops.
    pub alarms: Vec<B>,
    /// The loops that run.
    pub running: Vec<T>,
}

// Room for so many.
fn room_for<T>(alloc: Global, count: usize) -> Result<Vec<T>, NoMemory>
    ensures { IfOk result (λ room. (room.items ≡ []) × (count ≤ vec_capacity room)) }
{
    match Vec::with_capacity(alloc, count) {
        Ok(room) => Ok(room),
        Err(_) => Err(NoMemory),
    }
}

/// The house of a service with these doors, in which no loop runs yet.
pub fn build<R: Wait + Copy, L: Listener, T: Drop>(
    rt: R,
    alloc: Global,
    doors: &Doors<L>,
) -> Result<House<R, L::B, T>, NoMemory>
    requires some { 1 ≤ vec_len doors.now.connections }
    requires connections { vec_len doors.now.connections ≤ 8 }
    requires endpoints { vec_len doors.now.endpoints ≤ 8 }
    ensures over { IfOk result (λ house. IsOver house.exchange (passes_view house.passes)) }
    ensures empty { IfOk result (λ house. IsEmpty (passes_view house.passes)) }
    ensures honest { IfOk result (λ house. IsHonest (passes_view house.passes)) }
    ensures none { IfOk result (λ house. house.running.items ≡ []) }
    ensures room { IfOk result (λ house. 24 ≤ vec_capacity house.running) }
{
    let bells = bells_of(alloc, &doors.connections)?;
    let (exchange, passes) = Exchange::new(rt, alloc, bells)?;
    let gate = StopGate::new(alloc)?;
    let running = room_for(alloc, 24)?;
    Ok(House {
        exchange,
        passes,
        gate,
        alarms: Vec::new(alloc),
        running,
    })
}

// No loop sleeps on.
fn ring_all<B: Bell>(alarms: &[B]) {
    for alarm in alarms {
        alarm.ring();
    }
}

/// Stops all loops, waits for them, and takes the shards off the boards.
pub fn take_down<R, L, C, G, S>(
    spawner: &mut S,
    house: House<R, L::B, S::Running>,
) -> Option<Shards>
where
    R: Wait + Copy,
    L: Listener,
    C: Clock + Copy + Drop,
    G: Draw + Drop,
    S: Spawner<NodeJob<R, L::B, L, C, G>>,
    S::Running: Drop,
    requires over { IsOver house.exchange (passes_view house.passes) }
    requires beside { EachBeside S.runs (passes_view house.passes) house.running.items }
    requires empty { IsEmpty (passes_view house.passes) }
    ensures sound { IfSome result AreSound }
    ensures joined { S.joined spawner.new ≡ raised (vec_len house.running) (S.joined spawner.old) }
    ensures started { S.started spawner.new ≡ S.started spawner.old }
    ensures faults { S.faults spawner.new ≡ S.faults spawner.old }
{
    let House {
        exchange,
        mut passes,
        gate,
        alarms,
        running,
    } = house;
    gate.set();
    ring_all(&alarms);
    join_all::<R, L, C, G, S>(spawner, running, &mut passes);
    match exchange.close(passes) {
        Ok(shards) => Some(shards),
        Err(_) => None,
    }
}
