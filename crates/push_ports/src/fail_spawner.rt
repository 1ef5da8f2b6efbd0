//! A spawner without threads.
ghost use Rattle.std.specs.Prelude.{◌≡◌, ⊤, IfSome};
ghost use Rattle.push_outside.specs.Counts.{next_count};
ghost use Rattle.push_ports.specs.Offers.{NoneFails, count_after};
ghost use Rattle.push_ports.specs.ListForms.{fails_start, spawner_after_join, spawner_after_start, started_or_not};

use crate::job::{Job, Spawner};
use std::marker::Model;

/// Runs each job where it is joined, in the caller's thread; its starts fail at the calls that it was told.
///
/// Starts and joins are counted together from 1, up to 2^64 - 1. Contracts see the number of calls so far, those at which a
/// start fails, the number of faults so far, which is that of the starts that failed, and how many jobs were started and joined,
/// both up to 2^64 - 1.
#[derive(Debug, Drop)]
pub struct FailSpawner {
    calls: u64,
    failing: Vec<u64>,
    faults: u64,
    started: u64,
    joined: u64,
}

impl Model for FailSpawner {
    ghost use Rattle.push_ports.specs.FormValues.{FailSpawnerValue};

    ghost Value = { FailSpawnerValue };

    ghost view = { λ s. record { calls = s.calls; failing = s.failing.items; faults = s.faults; started = s.started; joined = s.joined } };
}

/// A job that a `FailSpawner` was given, and that runs once it is joined. Contracts see it as the job.
#[derive(Drop)]
pub struct HeldJob<J> {
    job: J,
}

impl<J> Model for HeldJob<J> {
    ghost Value = { J };

    ghost view = { λ held. held.job };
}

impl FailSpawner {
    /// A spawner before its first call. A start whose number is in `failing` fails; a join whose number is in it does its work.
    pub fn new(failing: Vec<u64>) -> FailSpawner
        ensures { result ≡ record { calls = 0; failing = failing.items; faults = 0; started = 0; joined = 0 } }
    {
        FailSpawner {
            calls: 0,
            failing,
            faults: 0,
            started: 0,
            joined: 0,
        }
    }
}

impl<J: Job> Spawner<J> for FailSpawner {
    type Running = HeldJob<J>;

    ghost runs = { λ running. running };

    ghost can_start = { λ _. ⊤ };

    ghost faults = { λ s. s.faults };

    ghost started = { λ s. s.started };

    ghost joined = { λ s. s.joined };

    /// Counts the call, and keeps the job, or drops it as the number says.
    fn start(&mut self, job: J) -> Option<HeldJob<J>>
        ensures can { ⊤ }
        ensures same_job { IfSome result (λ running. running ≡ job) }
        ensures cause { NoneFails result self.old.faults self.new.faults }
        ensures started { self.new.started ≡ count_after result self.old.started }
        ensures joined { self.new.joined ≡ self.old.joined }
        ensures answer { result ≡ started_or_not self.old job }
        ensures after { self.new ≡ spawner_after_start self.old }
    {
        self.calls = self.calls.saturating_add(1);
        if self.failing.contains(&self.calls) {
            self.faults = self.faults.saturating_add(1);
            return None;
        }
        self.started = self.started.saturating_add(1);
        Some(HeldJob { job })
    }

    /// Counts the call, and runs the job.
    fn join(&mut self, running: HeldJob<J>) -> J::Out
        ensures can { ⊤ → ⊤ }
        ensures out { J.gives running result }
        ensures faults { self.new.faults ≡ self.old.faults }
        ensures started { self.new.started ≡ self.old.started }
        ensures joined { self.new.joined ≡ next_count self.old.joined }
        ensures after { self.new ≡ spawner_after_join self.old }
    {
        self.calls = self.calls.saturating_add(1);
        self.joined = self.joined.saturating_add(1);
        running.job.run()
    }
}
