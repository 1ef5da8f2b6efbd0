//! The laws.
ghost use Rattle.std.specs.Prelude.{◌≡◌, ℕ, List};
ghost use Rattle.push_model.specs.declared.entry.Entry.{Entry};
ghost use Rattle.push_model.specs.declared.step.Step.{Step};
ghost use Rattle.push_model.specs.declared.reply.Reply.{Reply};
ghost use Rattle.push_model.specs.Histories.{IsLegal, history};
ghost use Rattle.push_model.specs.Reached.{IsReached};
ghost use Rattle.push_model.specs.ShardSteps.{counts};
ghost use Rattle.push_model.specs.Steps.{step};
ghost use Rattle.push_model.specs.Worlds.{World, start};
ghost use Rattle.push_laws.specs.Headline.{Headline};
ghost use Rattle.push_laws.specs.Sound.{IsSound};

/// Every legal history from an empty shard keeps the headline: each message is accounted for, and one answered 201 with a
/// ttl above 0 is stored, held, or left for a reason that the history shows; what is shown is what was accepted; and each
/// stored row that a routed session wasn't sent is covered.
pub fn histories_keep_the_headline()
    ensures { (shard next : ℕ) (entries : List (Entry Step Reply)) → IsLegal step (start shard next) entries → Headline (start shard next) entries }
{}

/// The history of any list of steps is legal: each reply is the one that the step has there. So it keeps the headline.
pub fn steps_make_legal_histories()
    ensures legal { (by : ℕ) (w : World) (steps : List Step) → IsLegal step w (history step by w steps) }
    ensures headline { (by shard next : ℕ) (steps : List Step) → Headline (start shard next) (history step by (start shard next) steps) }
{}

/// Every world that a legal history from an empty shard leads to is sound.
pub fn reached_worlds_are_sound()
    ensures { (w : World) → IsReached w → IsSound w }
{}

/// No stored row waits in a world that a legal history from an empty shard leads to: each that a routed session wasn't sent
/// is covered.
pub fn no_row_waits()
    ensures { (w : World) → IsReached w → (counts w).waiting ≡ 0 }
{}
