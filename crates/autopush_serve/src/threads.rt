//! The loops of the nodes as threads of this process.
ghost use Rattle.std.specs.Prelude.{◌≡◌, IfSome};
ghost use Rattle.push_exchange.specs.Boards.{passes_view};
ghost use Rattle.push_outside.specs.Counts.{next_count};
ghost use Rattle.push_ports.specs.Offers.{NoneFails, count_after};
ghost use Rattle.node_runner.specs.Jobs.{HandsBack};

use node_runner::NodeJob;
use push_exchange::Passes;
use push_machine::{MachineClock, SeededDraw};
use push_ports::{Job, Spawner};
use push_sockets::{SocketBell, SocketListener};
use std::snapshot::Snapshot;
use std::sync::Wait;
use std::thread::{self, Promise, PromisedHandle, Threads};

/// The work of one loop over the sockets and the clock of this machine.
pub type Loop<R> = NodeJob<
    R,
    SocketBell,
    SocketListener<HostRuntime>,
    MachineClock<HostRuntime>,
    SeededDraw,
>;

/// What the thread of a loop promises: the passes that its job may give.
#[derive(Drop)]
pub struct Kept<R>(Snapshot<Loop<R>>);

impl<R> Promise<Passes<R, SocketBell>> for Kept<R> {
    ghost use Rattle.push_exchange.specs.Boards.{passes_view};
    ghost use Rattle.node_runner.specs.Jobs.{HandsBack};

    ghost kept_by = { λ p r. HandsBack (passes_view p.0.value) (passes_view r) };
}

/// The thread of a loop.
pub type LoopThread<R> = PromisedHandle<Passes<R, SocketBell>, Kept<R>>;

/// Starts the thread of a loop. `None` comes where the system gives no thread; the job is dropped then.
pub fn start_thread<R: Threads + Wait + Copy + Send + Sync + 'static>(
    rt: R,
    job: Loop<R>,
) -> Option<LoopThread<R>>
    ensures { IfSome result (λ thread. thread.promise.0.value ≡ job) }
{
    let promise = Kept(Snapshot::of(&job));
    match thread::spawn_with(&rt, promise, move || job.run()) {
        Ok(thread) => Some(thread),
        Err(_) => None,
    }
}

/// Runs each loop in a thread of its own, which `begin` starts: it is called with the job, and gives the thread that runs it, or
/// `None` where there is none.
///
/// A loop may be started wherever `begin` may be called with any job, and gives only threads of the very job.
#[derive(Drop)]
pub struct ThreadSpawner<R, F> {
    rt: R,
    begin: F,
    faults: u64,
    started: u64,
    joined: u64,
}

impl<R: Threads + Wait + Copy, F: Fn(Loop<R>) -> Option<LoopThread<R>>> ThreadSpawner<R, F> {
    /// A spawner that has started no thread.
    pub(crate) fn new(rt: R, begin: F) -> ThreadSpawner<R, F>
        ensures { result.begin ≡ begin }
    {
        ThreadSpawner {
            rt,
            begin,
            faults: 0,
            started: 0,
            joined: 0,
        }
    }
}

impl<R: Threads + Wait + Copy, F: Fn(Loop<R>) -> Option<LoopThread<R>>> Spawner<Loop<R>>
    for ThreadSpawner<R, F> {
    type Running = LoopThread<R>;

    ghost runs = { λ thread. thread.promise.0.value };

    ghost can_start = { λ s. F.IsAlwaysCallable s.begin × ((job : _) (thread : _) → F.post s.begin job thread → IfSome thread (λ thread. thread.promise.0.value ≡ job)) };

    ghost faults = { λ s. s.faults };

    ghost started = { λ s. s.started };

    ghost joined = { λ s. s.joined };

    fn start(&mut self, job: Loop<R>) -> Option<LoopThread<R>> {
        match (self.begin)(job) {
            Some(thread) => {
                self.started = self.started.saturating_add(1);
                Some(thread)
            }
            None => {
                self.faults = self.faults.saturating_add(1);
                None
            }
        }
    }

    fn join(&mut self, running: LoopThread<R>) -> Passes<R, SocketBell> {
        let passes = running.join(&self.rt);
        self.joined = self.joined.saturating_add(1);
        passes
    }
}
