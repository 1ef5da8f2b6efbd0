//! The line of a tally.
ghost use Rattle.std.specs.Prelude.{◌≡◌, ◌++◌, IfOk, OnOk, decimal};
ghost use Rattle.std.specs.String.{string_bytes};
ghost use Rattle.schedule_text.specs.Words.{word};
ghost use Rattle.node_control.specs.Tallies.{tally_line};

use push_model::{NoMemory, Tally, Text};
use std::alloc::{AllocError, Global};

fn put_count(text: &mut String, name: &str, count: u64) -> Result<(), AllocError>
    ensures { OnOk result (string_bytes text.new ≡ string_bytes text.old ++ (name.now ++ word (decimal count))) }
{
    write!(text, "{name} {count}")
}

fn line_of(alloc: Global, tally: &Tally) -> Result<String, AllocError>
    ensures { IfOk result (λ text. string_bytes text ≡ tally_line tally.now) }
{
    let mut text = String::from_str(alloc, "tally")?;
    put_count(&mut text, " begun", tally.begun)?;
    put_count(&mut text, " ok", tally.ok)?;
    put_count(&mut text, " refused", tally.refused)?;
    put_count(&mut text, " stored", tally.stored)?;
    put_count(&mut text, " shown", tally.shown)?;
    put_count(&mut text, " acked", tally.acked)?;
    put_count(&mut text, " saved", tally.saved)?;
    put_count(&mut text, " left", tally.left)?;
    put_count(&mut text, " lost", tally.lost)?;
    text.push_str("\n")?;
    Ok(text)
}

/// The line of the tally, with its LF.
pub fn tally_text(alloc: Global, tally: &Tally) -> Result<Text, NoMemory>
    ensures { IfOk result (λ text. text ≡ tally_line tally.now) }
{
    match line_of(alloc, tally) {
        Ok(text) => Ok(Text::from_string(text)),
        Err(_) => Err(NoMemory),
    }
}
