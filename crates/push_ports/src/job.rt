//! Jobs, and what runs them.
ghost use Rattle.std.specs.Prelude.{◌≡◌, ℕ, IfSome};
ghost use Rattle.push_outside.specs.Counts.{next_count};
ghost use Rattle.push_ports.specs.Offers.{NoneFails, count_after};

/// Something that is run once.
///
/// `gives` is what a run may give, as a relation between the job and what came out of it.
pub trait Job: Drop {
    /// What comes out of it.
    type Out;

    ghost gives: { Self → Self.Out → Type 0 };

    /// Runs it to its end.
    fn run(self) -> Self::Out
        ensures { gives self result };
}

/// Starts jobs, and waits for what they give.
///
/// `faults` is a count of failures that never falls, `started` is how many jobs it started, and `joined` how many it waited for;
/// each goes up to 2^64 - 1. `runs` is the very job that was started there. `can_start` is what a start asks of the spawner, and
/// no call takes it away.
pub trait Spawner<J: Job> {
    /// A job that was started.
    type Running;

    ghost runs: { Self.Running → J };

    ghost can_start: { Self → Type 0 };

    ghost faults: { Self → ℕ };

    ghost started: { Self → ℕ };

    ghost joined: { Self → ℕ };

    /// Starts the job. `None` comes only where `faults` rose, or stood at its last value, and then the job is dropped; else
    /// `faults` stays as it was.
    fn start(&mut self, job: J) -> Option<Self::Running>
        requires can { can_start self.old }
        ensures can { can_start self.new }
        ensures same_job { IfSome result (λ running. runs running ≡ job) }
        ensures cause { NoneFails result (faults self.old) (faults self.new) }
        ensures started { started self.new ≡ count_after result (started self.old) }
        ensures joined { joined self.new ≡ joined self.old };

    /// Waits for the job's end, and hands back what it gave.
    fn join(&mut self, running: Self::Running) -> J::Out
        ensures can { can_start self.old → can_start self.new }
        ensures out { J.gives (runs running) result }
        ensures faults { faults self.new ≡ faults self.old }
        ensures started { started self.new ≡ started self.old }
        ensures joined { joined self.new ≡ next_count (joined self.old) };
}
