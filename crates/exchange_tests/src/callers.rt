//! One caller's steps on a shard of an exchange.
ghost use Rattle.std.specs.Prelude.{◌≡◌, true};
ghost use Rattle.push_model.specs.Steps.{proper};
ghost use Rattle.push_exchange.specs.Boards.{passes_view};
ghost use Rattle.exchange_tests.specs.Callers.{IsCaller};

use push_exchange::{Exchange, Passes};
use push_model::{Desks, Reply, Step};
use push_ports::NoBell;
use std::alloc::Global;
use std::sync::Wait;

/// Makes the step on the shard, on which the caller signs with that number. There is no reply where memory is missing. The
/// exchange and the number are there for the contract.
pub fn make<R: Wait + Copy>(
    exchange: &Exchange<NoBell>,
    alloc: Global,
    passes: &mut Passes<R, NoBell>,
    shard: u8,
    by: u64,
    asked: Step,
) -> Option<Reply>
    requires caller { IsCaller exchange.now shard by (passes_view passes.old) }
    requires allowed { proper by asked ≡ true }
    ensures { IsCaller exchange.now shard by (passes_view passes.new) }
{
    let _ = exchange;
    let _ = by;
    passes.call(alloc, shard, asked).ok()
}
