//! The sixteen boards as a whole.
ghost use Rattle.std.specs.Prelude.{◌≡◌, [], ◌∷◌, ℕ, ◌<◌, IfErr, IfOk, vec_len};
ghost use Rattle.std.specs.Arc.{arc_value};
ghost use Rattle.push_model.specs.DeskViews.{Calls, IsHonest, Mails};
ghost use Rattle.push_exchange.specs.Boards.{AllAlone, AllAsked, IsClosed, IsOver, IsFresh, SomeOut, passes_view};

use crate::board::ShardBoard;
use crate::hall::{Hall, ask_all, finish_all, open_all, room_for_all};
use crate::passes::Passes;
use crate::shards::Shards;
use push_model::NoMemory;
use push_model::laws::{legal_histories_are_accounted, reached_worlds_go_on};
use push_ports::Bell;
use shard_core::Shard;
use std::alloc::Global;
use std::marker::Model;
use std::sync::{Arc, Wait};

/// The boards of the sixteen shards. Contracts see them as the numbers that name each of them.
#[derive(Drop)]
pub struct Exchange<B> {
    hall: Arc<Hall<B>, Global>,
    room: Vec<Shard>,
}

impl<B> Model for Exchange<B> {
    ghost use Rattle.std.specs.Prelude.{◌≡◌, ◌≤◌, ℕ, List, [], length, vec_capacity};
    ghost use Rattle.std.specs.Arc.{arc_value};

    ghost Value = { List (List ℕ) };

    ghost view = { λ x. (arc_value x.hall).boards.items };

    ghost invariant = { λ x. (length (arc_value x.hall).boards.items ≡ 16) × (x.room.items ≡ []) × (16 ≤ vec_capacity x.room) };
}

// The hall of these boards and bells, for the exchange and for its first passes.
fn two_of<B: Drop>(
    alloc: Global,
    boards: Vec<ShardBoard>,
    bells: Vec<B>,
) -> Result<(Arc<Hall<B>, Global>, Arc<Hall<B>, Global>), NoMemory>
    requires { vec_len bells ≡ 8 }
    ensures first { IfOk result (λ r. (arc_value r.0).boards.items ≡ boards.items) }
    ensures second { IfOk result (λ r. (arc_value r.1).boards.items ≡ boards.items) }
{
    let Ok(hall) = Arc::new(alloc, Hall { boards, bells }) else {
        return Err(NoMemory);
    };
    match Arc::try_clone(&hall) {
        Ok(again) => Ok((hall, again)),
        Err(_) => Err(NoMemory),
    }
}

impl<B: Bell> Exchange<B> {
    /// Sixteen boards with empty shards, numbered from 0 to 15, and their first passes, which have seen nothing and sign with 0.
    /// A post to a node rings its bell, of those of the nodes 1 to 8.
    pub fn new<R: Wait + Copy>(
        rt: R,
        alloc: Global,
        bells: Vec<B>,
    ) -> Result<(Exchange<B>, Passes<R, B>), NoMemory>
        requires { vec_len bells ≡ 8 }
        ensures over { IfOk result (λ r. IsOver r.0 (passes_view r.1)) }
        ensures fresh { IfOk result (λ r. IsFresh (passes_view r.1)) }
        ensures honest { IfOk result (λ r. IsHonest (passes_view r.1)) }
    {
        let opened = open_all(alloc)?;
        let room = room_for_all(alloc)?;
        let halls = two_of(alloc, opened.0, bells)?;
        let passes = Passes {
            rt,
            hall: halls.1,
            passes: opened.1,
        };
        let exchange = Exchange {
            hall: halls.0,
            room,
        };
        Ok((exchange, passes))
    }

    /// Takes all shards off their boards for good, if every other pass of each was joined into these, and else hands all back.
    /// Each board is asked before the first shard is taken.
    pub fn close<R: Wait + Copy>(
        self,
        mut passes: Passes<R, B>,
    ) -> Result<Shards, (Exchange<B>, Passes<R, B>)>
        requires { IsOver self (passes_view passes) }
        ensures ok { IfOk result (IsClosed (passes_view passes)) }
        ensures alone { IfOk result (λ _. (asked : _) × AllAsked 16 passes asked × AllAlone asked) }
        ensures out { IfErr result (λ r. AllAsked 16 passes r.1 × SomeOut r.1) }
        ensures back { IfErr result (λ r. (r.0 ≡ self) × Calls (passes_view passes) (passes_view r.1) [] × Mails (passes_view passes) (passes_view r.1) []) }
    {
        legal_histories_are_accounted();
        reached_worlds_go_on();
        let hall: &Hall<B> = &self.hall;
        if !ask_all(hall.boards.as_slice(), &mut passes.passes) {
            return Err((self, passes));
        }
        let Exchange { hall, room } = self;
        let Passes {
            rt,
            hall: _,
            passes,
        } = passes;
        let hall: &Hall<B> = &hall;
        Ok(Shards::of(finish_all(&rt, hall.boards.as_slice(), passes, room)))
    }
}
