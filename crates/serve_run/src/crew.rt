//! The loops that run.
ghost use Rattle.std.specs.Prelude.{◌≡◌, ◌<◌, ◌≤◌, vec_capacity, vec_len};
ghost use Rattle.node_loops.specs.Together.{raised};
ghost use Rattle.push_exchange.specs.Boards.{passes_view};
ghost use Rattle.serve_run.specs.Crews.{EachBeside, IsOpenedAlike, Launched, started_after};
ghost use Rattle.serve_run.specs.Doors.{Started};

use crate::halt::Halt;
use node_runner::NodeJob;
use push_exchange::Passes;
use push_outside::{Clock, Draw};
use push_ports::{Job, Listener, Spawner};
use std::sync::Wait;

/// Starts a job, and keeps what runs, which takes no memory. `Loop` drops the job.
pub fn launch<J: Job, S: Spawner<J>>(
    spawner: &mut S,
    running: &mut Vec<S::Running>,
    job: J,
) -> Result<(), Halt>
where
    S::Running: Drop,
    requires can { S.can_start spawner.old }
    requires room { vec_len running.old < vec_capacity running.old }
    ensures can { S.can_start spawner.new }
    ensures launched { Launched S.runs result job running.old.items running.new.items }
    ensures started { S.started spawner.new ≡ started_after result (S.started spawner.old) }
    ensures joined { S.joined spawner.new ≡ S.joined spawner.old }
    ensures cause { Started result (S.faults spawner.old) (S.faults spawner.new) }
    ensures room { vec_capacity running.old ≤ vec_capacity running.new }
{
    let Some(one) = spawner.start(job) else {
        return Err(Halt::Loop);
    };
    match running.push(one) {
        Ok(()) => Ok(()),
        Err(_) => unreachable!(),
    }
}

/// Waits for all that run, the last first, and takes in the passes that they hand back.
pub fn join_all<R, L, C, G, S>(
    spawner: &mut S,
    running: Vec<S::Running>,
    passes: &mut Passes<R, L::B>,
)
where
    R: Wait + Copy,
    L: Listener,
    C: Clock + Drop,
    G: Draw + Drop,
    S: Spawner<NodeJob<R, L::B, L, C, G>>,
    S::Running: Drop,
    requires beside { EachBeside S.runs (passes_view passes.old) running.items }
    ensures joined { S.joined spawner.new ≡ raised (vec_len running) (S.joined spawner.old) }
    ensures started { S.started spawner.new ≡ S.started spawner.old }
    ensures faults { S.faults spawner.new ≡ S.faults spawner.old }
    ensures opening { IsOpenedAlike (passes_view passes.old) (passes_view passes.new) }
{
    let mut running = running;
    while let Some(one) = running.pop() {
        let back = spawner.join(one);
        passes.join(back);
    }
}
