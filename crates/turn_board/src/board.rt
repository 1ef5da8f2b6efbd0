//! Turns on the object of a board.
ghost use Rattle.std.specs.Prelude.{◌≡◌, ℕ, ◌+◌, true, [], ◌∷◌, ◌++◌, Some, IfOk, IfErr, OnOk, OnErr};
ghost use Rattle.push_model.specs.Histories.{entry};
ghost use Rattle.turn_board.specs.Views.{own_of};
ghost use Rattle.turn_board.specs.Passes.{IsPassOf, IsSamePass, IsUnmoved, IsLegalPass, IsAlone, IsEnd, pass_number, pass_numbers, pass_first, pass_seen, pass_own, pass_mail, pass_counts, pass_counted};

use crate::entries::{act, with_room};
use crate::object::Object;
use crate::pass::{Board, Pass};
use crate::turns::{begin_turn, draw_ticket, end_turn};
use crate::view::Home;
use atomic_table::Table;
use push_model::NoMemory;
use std::alloc::Global;
use std::snapshot::Snapshot;
use std::sync::Wait;

impl<T: Object> Board<T> {
    /// A board, and its first pass, whose number is 0 and which has seen nothing. `NoMemory` drops the object.
    pub fn new(alloc: Global, object: T) -> Result<(Board<T>, Pass<T>), NoMemory>
    where
        T: Drop,
        ensures pass { IfOk result (λ r. IsPassOf r.0 r.1 × (pass_number r.1 ≡ 0) × (pass_numbers r.1 ≡ 0 ∷ []) × (pass_first r.1 ≡ Some object)) }
        ensures seen { IfOk result (λ r. (pass_seen r.1 ≡ []) × (pass_mail r.1 ≡ []) × (pass_counts r.1 ≡ 0) × (pass_counted r.1 ≡ 0)) }
    {
        let about = Snapshot::of(&object);
        let slots = one_slot(alloc, Home { object, entries: 0 })?;
        match Table::new(
            alloc,
            &[0, 0, 0, 1, 0, 0, 0, 0, 0, 0, 0, 0, 0],
            slots,
            &about,
        ) {
            Ok((table, seat)) => Ok((
                Board { table },
                Pass {
                    seat,
                    number: 0,
                    joined: 1,
                },
            )),
            Err(_) => Err(NoMemory),
        }
    }

    /// Makes a step in a turn of its own, for which it may wait. The reply is that of the entry that this adds, which is
    /// the last that the pass has then seen. `NoMemory` comes only where the step may want memory, and adds nothing.
    pub fn call<R: Wait>(
        &self,
        rt: &R,
        alloc: Global,
        pass: &mut Pass<T>,
        step: T::Step,
    ) -> Result<T::Reply, NoMemory>
        requires pass { IsPassOf self.now pass.old }
        requires proper { T.proper (pass_number pass.old) step ≡ true }
        ensures pass { IsSamePass pass.old pass.new × (pass_counted pass.new ≡ pass_counted pass.old) }
        ensures seen { IfOk result (λ r. (between : _) × (own_of (pass_numbers pass.old) between ≡ []) × (pass_seen pass.new ≡ (pass_seen pass.old ++ between) ++ entry (pass_number pass.old) step r ∷ [])) }
        ensures own { IfOk result (λ r. pass_own pass.new ≡ pass_own pass.old ++ entry (pass_number pass.old) step r ∷ []) }
        ensures legal { OnOk result (IsLegalPass T.run T.proper pass.new) }
        ensures mail { pass_mail pass.new ≡ pass_mail pass.old }
        ensures err { OnErr result ((T.takes_memory step ≡ true) × (pass_seen pass.new ≡ pass_seen pass.old)) }
    {
        let ticket = draw_ticket(&self.table, &mut pass.seat);
        let home = begin_turn(rt, &self.table, &mut pass.seat, ticket);
        let mut home = with_room(rt, home);
        let answer = act(
            &self.table,
            &mut pass.seat,
            pass.number,
            alloc,
            &mut home,
            step,
        );
        end_turn(&self.table, &mut pass.seat, home);
        answer
    }

    /// Takes the object out for good, in a turn of its own, for which it may wait. The caller asked `alone` of the pass,
    /// which answered true, and did not split or join it since. What the pass has seen is the whole history.
    pub fn finish<R: Wait>(&self, rt: &R, pass: Pass<T>) -> T
        requires pass { IsPassOf self.now pass }
        requires alone { IsAlone pass }
        ensures { IsEnd T.run T.proper pass result }
    {
        let Pass {
            mut seat,
            number: _,
            joined: _,
        } = pass;
        let ticket = draw_ticket(&self.table, &mut seat);
        let Home { object, entries: _ } = begin_turn(rt, &self.table, &mut seat, ticket);
        object
    }

    /// Takes the object out for good, if every other pass was joined into this one, and else hands the pass back. What
    /// the pass has then seen is the whole history.
    pub fn close<R: Wait>(&self, rt: &R, mut pass: Pass<T>) -> Result<T, Pass<T>>
        requires { IsPassOf self.now pass }
        ensures ok { IfOk result (IsEnd T.run T.proper pass) }
        ensures err { IfErr result (λ p. IsSamePass pass p × IsUnmoved pass p × (pass_counts p ≡ pass_counts pass + 1) × ¬ IsAlone p) }
    {
        if self.alone(&mut pass) {
            Ok(self.finish(rt, pass))
        } else {
            Err(pass)
        }
    }
}

// The one slot of a board's table.
fn one_slot<T: Drop>(alloc: Global, home: Home<T>) -> Result<Vec<Option<Home<T>>>, NoMemory>
    ensures { IfOk result (λ v. v.items ≡ Some home ∷ []) }
{
    let mut slots = Vec::new(alloc);
    match slots.push(Some(home)) {
        Ok(()) => Ok(slots),
        Err(_) => Err(NoMemory),
    }
}
