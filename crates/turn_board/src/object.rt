//! Objects that callers take turns on.
ghost use Rattle.std.specs.Prelude.{◌≡◌, ℕ, Bool, true, IfOk, OnErr};

use push_model::NoMemory;
use std::alloc::Global;

/// An object that answers steps, one at a time. Contracts see it as its world.
pub trait Object {
    /// What is asked of it.
    type Step;

    /// What it replies.
    type Reply;

    /// The world after a step, and the reply.
    ghost run: { Self → Self.Step → Self × Self.Reply };

    /// Whether a step may want memory.
    ghost takes_memory: { Self.Step → Bool };

    /// Whether a pass with this number may make the step.
    ghost proper: { ℕ → Self.Step → Bool };

    /// Makes the step. `NoMemory` comes only where the step may want memory, and leaves the world as it was.
    fn step(&mut self, alloc: Global, step: Self::Step) -> Result<Self::Reply, NoMemory>
        ensures ok { IfOk result (λ r. run self.old step ≡ (self.new, r)) }
        ensures err { OnErr result ((self.new ≡ self.old) × (takes_memory step ≡ true)) };
}
