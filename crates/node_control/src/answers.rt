//! One control line.
ghost use Rattle.schedule_text.specs.Replies.{reply_line};
ghost use Rattle.autopush_main.specs.Puts.{WritesAll, WrittenBy};
ghost use Rattle.node_control.specs.Steps.{Blames, DoesLine, Follows, Obeys};

use crate::commands::{Command, command_of};
use crate::ends::ControlEnd;
use crate::works::{kill_all, report_all, sweep_all, up_all};
use autopush_main::{Written, put_all};
use push_model::{Desks, Reply};
use push_outside::Sink;
use schedule_text::print_reply;
use std::alloc::Global;

// Does what comes before the answer, and gives the reply whose line is the answer; none where it is to stop.
fn obey<D: Desks>(alloc: Global, desks: &mut D, command: &Command) -> Option<Reply>
    ensures { Obeys result command.now (D.view desks.old) (D.view desks.new) }
{
    match command {
        Command::Kill(node) => Some(kill_all(alloc, desks, *node)),
        Command::Up(node) => {
            up_all(alloc, desks, *node);
            Some(Reply::Done)
        }
        Command::Report => {
            sweep_all(alloc, desks);
            Some(Reply::Counts(report_all(alloc, desks)))
        }
        Command::Stop => None,
        Command::Unknown => Some(Reply::Unknown),
    }
}

// Does what comes after the answer.
fn follow<D: Desks>(alloc: Global, desks: &mut D, command: &Command)
    ensures { Follows command.now (D.view desks.old) (D.view desks.new) }
{
    match command {
        Command::Kill(_) => sweep_all(alloc, desks),
        _ => {}
    }
}

// Writes the line of the reply.
fn write_line<K: Sink>(alloc: Global, output: &mut K, reply: &Reply) -> Written
    ensures bytes { WritesAll result (reply_line reply.now) (K.written output.old) (K.written output.new) }
    ensures cause { WrittenBy result (K.faults output.old) (K.faults output.new) (K.lulls output.old) (K.lulls output.new) }
{
    match print_reply(alloc, reply) {
        Ok(text) => put_all(output, text.as_str().as_bytes()),
        Err(_) => Written::NoMemory,
    }
}

/// Answers a line, or says how control ends.
pub fn answer_line<D: Desks, K: Sink>(
    alloc: Global,
    desks: &mut D,
    output: &mut K,
    line: &[u8],
) -> Option<ControlEnd>
    ensures line { DoesLine result line.now (D.view desks.old) (D.view desks.new) (K.written output.old) (K.written output.new) }
    ensures cause { Blames result (K.faults output.old) (K.faults output.new) (K.lulls output.old) (K.lulls output.new) }
{
    let command = command_of(line);
    let Some(reply) = obey(alloc, desks, &command) else {
        return Some(ControlEnd::Done);
    };
    match write_line(alloc, output, &reply) {
        Written::All => {
            follow(alloc, desks, &command);
            None
        }
        Written::Lost(fault) => Some(ControlEnd::WriteFault(fault)),
        Written::NoMemory => Some(ControlEnd::NoMemory),
    }
}
