//! A whole replay, line by line.
ghost use Rattle.autopush_main.specs.Turns.{Replays, BlamesSourceEnd, BlamesSink};

use crate::endings::End;
use crate::pending::Pending;
use crate::turn::{LINES, turn};
use push_laws::steps_make_legal_histories;
use push_outside::{Sink, Source};
use schedule_text::ReplyLine;
use schedule_text::laws::reports_say_that_none_waits;
use shard_core::Shard;
use std::alloc::Global;

/// Answers the lines of the input, one after the other, on shard 0 from its start.
pub fn run<I: Source, K: Sink>(alloc: Global, input: &mut I, output: &mut K) -> End
    ensures replays { Replays result (I.left input.old) (I.left input.new) (K.written output.old) (K.written output.new) }
    ensures source { BlamesSourceEnd result (I.faults input.old) (I.faults input.new) (I.lulls input.old) (I.lulls input.new) }
    ensures sink { BlamesSink result (K.faults output.old) (K.faults output.new) (K.lulls output.old) (K.lulls output.new) }
{
    steps_make_legal_histories();
    reports_say_that_none_waits();
    let mut shard = Shard::start(alloc, 0);
    let mut pending = Pending::new(alloc);
    let mut reply = ReplyLine::new(alloc);
    for count in 0..=LINES {
        let turned = turn(
            alloc,
            &mut shard,
            input,
            output,
            &mut pending,
            &mut reply,
            count,
        );
        if let Some(end) = turned {
            return end;
        }
    }
    unreachable!()
}
