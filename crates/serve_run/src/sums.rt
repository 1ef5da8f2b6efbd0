//! The last two lines.
ghost use Rattle.std.specs.Prelude.{◌≡◌, IfOk};
ghost use Rattle.std.specs.String.{string_bytes};
ghost use Rattle.autopush_main.specs.Puts.{WritesAll, WrittenBy};
ghost use Rattle.serve_run.specs.Sums.{sums_text};

use autopush_main::{Written, put_all};
use node_control::tally_text;
use push_exchange::Shards;
use push_model::{NoMemory, Reply};
use push_outside::Sink;
use schedule_text::print_reply;
use std::alloc::Global;

fn sums_of(alloc: Global, shards: &mut Shards) -> Result<String, NoMemory>
    ensures text { IfOk result (λ text. string_bytes text ≡ sums_text shards.old) }
    ensures stays { shards.new ≡ shards.old }
{
    let report = print_reply(alloc, &Reply::Counts(shards.report(alloc)))?;
    let tally = tally_text(alloc, &shards.tally())?;
    let report = report.as_str();
    let tally = tally.as_str();
    match format!(in alloc; "{report}{tally}") {
        Ok(text) => Ok(text),
        Err(_) => Err(NoMemory),
    }
}

/// Writes the lines of the shards' report and of their tally, summed up.
pub fn tell_sums<K: Sink>(alloc: Global, output: &mut K, shards: &mut Shards) -> Written
    ensures bytes { WritesAll result (sums_text shards.old) (K.written output.old) (K.written output.new) }
    ensures cause { WrittenBy result (K.faults output.old) (K.faults output.new) (K.lulls output.old) (K.lulls output.new) }
    ensures stays { shards.new ≡ shards.old }
{
    match sums_of(alloc, shards) {
        Ok(text) => put_all(output, text.as_bytes()),
        Err(_) => Written::NoMemory,
    }
}
