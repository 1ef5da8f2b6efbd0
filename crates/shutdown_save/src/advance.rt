//! How savers move from stage to stage.
ghost use Rattle.std.specs.Prelude.{◌≡◌, ◌<◌, ◌≤◌, find, vec_len, vec_capacity, Some};
ghost use Rattle.push_model.specs.SessionKey.{SessionKey};
ghost use Rattle.push_model.specs.Keyed.{FoundAt};
ghost use Rattle.push_model.specs.Cells.{is_saver};
ghost use Rattle.push_model.specs.Advances.{saver_advance, saver_heard_advance, saver_lost_advance, all_saved_advance};
ghost use Rattle.push_model.specs.SaverSteps.{saver_advance_of, savers_moved};
ghost use Rattle.shutdown_save.specs.Savers.{MayMeet, held_by};

use crate::rows::{SaverRows, saver_place};
use crate::saver::Saver;
use push_model::{
    Advance, Event, NodeId, SessionId, Stage, cleared_advance, nudged_advance, read_advance,
};

impl SaverRows {
    /// The saver of that session moves on by the event, if it is there. It takes no memory.
    pub fn advance(&mut self, s: SessionId, event: Event) -> Advance
        requires { MayMeet (held_by s self.old.savers) event }
        ensures advance { result ≡ saver_advance_of event (find (is_saver s) self.old.savers) }
        ensures savers { self.new.savers ≡ savers_moved (saver_advance_of event (find (is_saver s) self.old.savers)) s self.old.savers }
        ensures spare { self.new.spare ≡ self.old.spare }
    {
        advance_saver(&mut self.savers, s, event)
    }
}

// the saver of that session moves on by the event, if it is there
fn advance_saver(savers: &mut Vec<Saver>, s: SessionId, event: Event) -> Advance
    ensures advance { result ≡ saver_advance_of event (find (is_saver s) savers.old.items) }
    ensures savers { savers.new.items ≡ savers_moved (saver_advance_of event (find (is_saver s) savers.old.items)) s savers.old.items }
    ensures len { vec_len savers.new ≤ vec_len savers.old }
    ensures capacity { vec_capacity savers.new ≡ vec_capacity savers.old }
{
    let Some(place) = saver_place(savers, s) else {
        return Advance::Absent;
    };
    let advance = advance_at(&savers[place], event);
    move_saver(savers, place, &advance);
    advance
}

// what becomes of that saver
fn advance_at(saver: &Saver, event: Event) -> Advance
    ensures { result ≡ saver_advance_of event (Some saver.now) }
{
    saver_advance(event, saver.has_saved(), saver.stage())
}

// the saver at that place moves on so
fn move_saver(savers: &mut Vec<Saver>, place: usize, advance: &Advance)
    requires { place < vec_len savers.old }
    ensures savers { (s : SessionKey) → FoundAt (is_saver s) savers.old.items place → savers.new.items ≡ savers_moved advance.now s savers.old.items }
    ensures len { vec_len savers.new ≤ vec_len savers.old }
    ensures capacity { vec_capacity savers.new ≡ vec_capacity savers.old }
{
    match advance {
        Advance::Moved(stage) => savers[place].go_on(*stage),
        Advance::End(_) => {
            savers.remove(place);
        }
        Advance::Out(_) | Advance::Absent => {}
    }
}

fn saver_advance(event: Event, some_saved: bool, stage: Stage) -> Advance
    ensures { result ≡ saver_advance event some_saved stage }
{
    match event {
        Event::Heard => heard_advance(stage),
        Event::Lost => lost_advance(stage),
        Event::Read(place) => read_advance(200, place, stage),
        Event::Nudged(here) => nudged_advance(here, stage),
        Event::Cleared => cleared_advance(200, stage),
        Event::AllSaved => all_saved_advance(some_saved, stage),
        Event::Direct(_) | Event::Stored | Event::Ended(_) | Event::GiveUp => Advance::Out(stage),
    }
}

fn heard_advance(stage: Stage) -> Advance
    ensures { result ≡ saver_heard_advance stage }
{
    match stage {
        Stage::ToldNudge(here, node, at) => heard_nudge(here, node, at),
        _ => Advance::Out(stage),
    }
}

fn heard_nudge(here: bool, node: NodeId, at: u64) -> Advance
    ensures { result ≡ saver_heard_advance (Stage.ToldNudge here node at) }
{
    if here {
        Advance::End(200)
    } else {
        Advance::Moved(Stage::Clear(node, at))
    }
}

fn lost_advance(stage: Stage) -> Advance
    ensures { result ≡ saver_lost_advance stage }
{
    match stage {
        Stage::Nudge(node, at) | Stage::ToldNudge(_, node, at) => {
            Advance::Moved(Stage::Clear(node, at))
        }
        _ => Advance::Out(stage),
    }
}

fn all_saved_advance(some_saved: bool, stage: Stage) -> Advance
    ensures { result ≡ all_saved_advance some_saved stage }
{
    match stage {
        Stage::Saving if some_saved => Advance::Moved(Stage::Reread),
        Stage::Saving => Advance::End(200),
        _ => Advance::Out(stage),
    }
}
