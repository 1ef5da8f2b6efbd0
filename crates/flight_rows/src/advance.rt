//! What becomes of a flight, by what happens to it and the stage that it is at.
ghost use Rattle.std.specs.Prelude.{◌≡◌};
ghost use Rattle.push_model.specs.declared.step.Stage.{Stage};
ghost use Rattle.push_model.specs.Advances.{flight_advance, to_store, given_advance, heard_advance, lost_advance, stored_advance, ended_advance, give_up_advance};

use push_model::{Advance, Event, NodeId, Stage, cleared_advance, nudged_advance, read_advance};

/// What becomes of a flight at that stage, whose message has ttl 0 (`unkept`) or not.
pub(crate) fn flight_advance(event: Event, unkept: bool, stage: Stage) -> Advance
    ensures { result ≡ flight_advance event unkept stage }
{
    match event {
        Event::Direct(here) => given(here, stage),
        Event::Heard => heard(unkept, stage),
        Event::Lost => lost(unkept, stage),
        Event::Stored => stored(stage),
        Event::Ended(code) => ended(code, stage),
        Event::Read(place) => read_advance(201, place, stage),
        Event::Nudged(here) => nudged_advance(here, stage),
        Event::Cleared => cleared_advance(201, stage),
        Event::AllSaved => Advance::Out(stage),
        Event::GiveUp => give_up(stage),
    }
}

fn to_store(unkept: bool) -> Advance
    ensures { result ≡ to_store unkept }
{
    if unkept {
        Advance::End(201)
    } else {
        Advance::Moved(Stage::Store)
    }
}

fn given(here: bool, stage: Stage) -> Advance
    ensures { result ≡ given_advance here stage }
{
    match stage {
        Stage::Direct(_, _) => Advance::Moved(Stage::Told(here)),
        other => Advance::Out(other),
    }
}

fn heard(unkept: bool, stage: Stage) -> Advance
    ensures { result ≡ heard_advance unkept stage }
{
    match stage {
        Stage::Told(here) => heard_told(here, unkept),
        Stage::ToldNudge(here, node, at) => heard_nudge(here, unkept, node, at),
        other => Advance::Out(other),
    }
}

fn heard_told(here: bool, unkept: bool) -> Advance
    ensures { result ≡ heard_advance unkept (Stage.Told here) }
{
    if here {
        Advance::End(201)
    } else {
        to_store(unkept)
    }
}

fn heard_nudge(here: bool, unkept: bool, node: NodeId, at: u64) -> Advance
    ensures { result ≡ heard_advance unkept (Stage.ToldNudge here node at) }
{
    if here {
        Advance::End(201)
    } else {
        Advance::Moved(Stage::Clear(node, at))
    }
}

fn lost(unkept: bool, stage: Stage) -> Advance
    ensures { result ≡ lost_advance unkept stage }
{
    match stage {
        Stage::Direct(_, _) | Stage::Told(_) => to_store(unkept),
        Stage::Nudge(node, at) => Advance::Moved(Stage::Clear(node, at)),
        Stage::ToldNudge(_, node, at) => Advance::Moved(Stage::Clear(node, at)),
        other => Advance::Out(other),
    }
}

fn stored(stage: Stage) -> Advance
    ensures { result ≡ stored_advance stage }
{
    match stage {
        Stage::Store => Advance::Moved(Stage::Reread),
        other => Advance::Out(other),
    }
}

fn ended(code: u16, stage: Stage) -> Advance
    ensures { result ≡ ended_advance code stage }
{
    match stage {
        Stage::Store => Advance::End(code),
        other => Advance::Out(other),
    }
}

fn give_up(stage: Stage) -> Advance
    ensures { result ≡ give_up_advance stage }
{
    match stage {
        Stage::Direct(_, _) | Stage::Told(_) | Stage::Store => Advance::End(500),
        other => Advance::Out(other),
    }
}
