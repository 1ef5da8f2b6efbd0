//! Laws of the definitions.
ghost use Rattle.std.specs.Prelude.{◌≡◌, true};
ghost use Rattle.push_model.specs.declared.reply.Reply.{Reply};
ghost use Rattle.push_model.specs.declared.step.Step.{Step};
ghost use Rattle.push_model.specs.Caring.{counts_none};
ghost use Rattle.schedule_text.specs.Spelling.{spell, InRange};
ghost use Rattle.schedule_text.specs.Replies.{reply_line, SaysNoneWaits};

/// No line spells two steps in range.
pub fn lines_spell_one_step()
    ensures { (s t : Step) → InRange s → InRange t → spell s ≡ spell t → s ≡ t }
{}

/// The line of a report that counts no waiting row ends with ` waiting 0` and LF.
pub fn reports_say_that_none_waits()
    ensures { (r : Reply) → counts_none r ≡ true → SaysNoneWaits (reply_line r) }
{}
