//! How a flight takes a message to the user: it is given to a session, or stored and told of.
ghost use Rattle.std.specs.Prelude.{◌≡◌, ℕ, ◌≤◌, ◌++◌, ◌∷◌, [], ◌==◌, ◌||◌, not, true, is_some, IfOk, OnOk, OnErr, find};
ghost use Rattle.std.specs.List.{list_any};
ghost use Rattle.push_model.specs.Keyed.{FoundAt};
ghost use Rattle.push_model.specs.Sessions.{is_attached_at};
ghost use Rattle.push_model.specs.Cells.{has_token, is_flight, routed_place};
ghost use Rattle.push_model.specs.Outcomes.{outcome};
ghost use Rattle.push_model.specs.FlightSteps.{begin, direct, store, flight_step, heard, lost, give_up, reread, nudge, clear, with_given};
ghost use Rattle.push_model.specs.Kinds.{costs_memory};
ghost use Rattle.push_model.specs.ShardSteps.{stage_reply};
ghost use Rattle.user_cell.specs.Flights.{IsReceiver, CanHold};
ghost use Rattle.user_cell.specs.Storing.{IsJoining, store_event, rows_after, stored_reply};

use crate::cell::UserCell;
use crate::outcomes::{advance_reply, read_reply};
use channel_rows::Channels;
use clock_expiry::expired;
use flight_rows::{Flight, Flights};
use message_rows::Rows;
use push_model::{
    Advance, ChannelId, Event, FlightRow, Message, Moment, NoMemory, NodeId, Op, Reply, Shared,
    Stage, Token, Verdict,
};
use std::alloc::Global;

impl UserCell {
    /// Whether that flight is on its way.
    pub fn has_flight(&self, op: Op) -> bool
        ensures { result ≡ list_any (is_flight op) self.now.flights }
    {
        self.flights.has(op)
    }

    /// The stage of that flight, or that there is none.
    pub fn stage_reply(&self, op: Op) -> Reply
        ensures { result ≡ stage_reply (find (is_flight op) self.now.flights) }
    {
        match self.flights.find(op) {
            Some(flight) => Reply::Stage(flight.stage),
            None => Reply::NoFlight,
        }
    }

    /// Begins the flight of a message to the user's routed session, or into the table; with ttl 0 and no route the
    /// message goes nowhere, and no memory is taken. At `NoMemory` the message is dropped, and the cell stays as it was.
    pub fn begin(
        &mut self,
        alloc: Global,
        op: Op,
        token: Token,
        message: Message,
    ) -> Result<Reply, NoMemory>
        ensures ok { IfOk result (λ r. begin op token message self.old ≡ outcome self.new r) }
        ensures err { OnErr result ((self.new ≡ self.old) × (is_some (routed_place self.old.user) || not (message.ask.terms.ttl == 0) ≡ true) × (costs_memory (begin op token message self.old).reply ≡ true)) }
    {
        let id = message.id;
        match self.routed_place() {
            Some((node, at)) => {
                let stage = Stage::Direct(node, at);
                add_flight(alloc, &mut self.flights, op, token, message, stage)?;
                Ok(Reply::Begun(id, Some((node, at))))
            }
            None => {
                if message.ask.terms.ttl == 0 {
                    return Ok(Reply::Begun(id, None));
                }
                add_flight(alloc, &mut self.flights, op, token, message, Stage::Store)?;
                Ok(Reply::Begun(id, None))
            }
        }
    }

    /// Gives the flight's message to the session that it is for, if that can take it. Room for the message's row is kept
    /// first, so that to save it later takes no memory. At `NoMemory` the cell stays as it was.
    pub(crate) fn direct(&mut self, moment: Moment, op: Op) -> Result<Reply, NoMemory>
        ensures ok { IfOk result (λ r. direct moment op self.old ≡ outcome self.new r) }
        ensures err { OnErr result ((self.new ≡ self.old) × (costs_memory (direct moment op self.old).reply ≡ true)) }
    {
        let Some(flight) = self.flights.find(op) else {
            return Ok(Reply::NoFlight);
        };
        match flight.stage {
            Stage::Direct(node, _) => {
                let Some(place) = self.receiver(flight, node, moment) else {
                    let _ = self.flights.advance(op, Event::Direct(false));
                    return Ok(Reply::NotHere);
                };
                let message = flight.message.share()?;
                self.give_at(place, message)?;
                let _ = self.flights.advance(op, Event::Direct(true));
                Ok(Reply::Here(self.uaid))
            }
            stage => Ok(Reply::Stage(stage)),
        }
    }

    // the place of the session attached at that node, if it can be given the flight's message
    fn receiver(&self, flight: &FlightRow, node: NodeId, moment: Moment) -> Option<usize>
        ensures { IsReceiver node moment flight.now self.now.user self.now.sessions result }
    {
        let place = self.sessions.at(node)?;
        let session = &self.sessions.sessions[place];
        let message = flight.message.message();
        if session.has_room()
            && self.has_channel(message.chid, &flight.token)
            && !expired(message, moment)
        {
            Some(place)
        } else {
            None
        }
    }

    // whether the user has that channel with that token
    fn has_channel(&self, chid: ChannelId, token: &Token) -> bool
        ensures { result ≡ has_token chid token.now self.now.user }
    {
        self.channels.has_token(chid, token)
    }

    // gives the message to the session at that place, once there is room for its row
    fn give_at(&mut self, place: usize, message: Shared) -> Result<(), NoMemory>
        requires { CanHold place self.old.sessions }
        ensures ok { OnOk result ((n : ℕ) → FoundAt (is_attached_at n) self.old.sessions place → self.new ≡ with_given n message self.old) }
        ensures err { OnErr result (self.new ≡ self.old) }
    {
        let Some(wanted) = self.held().checked_add(1) else {
            return Err(NoMemory);
        };
        self.rows.reserve(wanted as usize)?;
        let session = &mut self.sessions.sessions[place];
        session.give(message)?;
        Ok(())
    }

    /// Stores the flight's message, unless that is refused. At `NoMemory` the cell stays as it was.
    pub(crate) fn store(&mut self, moment: Moment, op: Op) -> Result<Reply, NoMemory>
        ensures ok { IfOk result (λ r. store moment op self.old ≡ outcome self.new r) }
        ensures err { OnErr result ((self.new ≡ self.old) × (costs_memory (store moment op self.old).reply ≡ true)) }
    {
        let Some(flight) = self.flights.find(op) else {
            return Ok(Reply::NoFlight);
        };
        match flight.stage {
            Stage::Store => {
                let event = store_message(&self.channels, &mut self.rows, flight, moment)?;
                let advance = self.flights.advance(op, event);
                Ok(stored_reply(advance))
            }
            stage => Ok(Reply::Stage(stage)),
        }
    }

    /// The flight hears whether its message or its nudge was taken.
    pub(crate) fn heard(&mut self, op: Op) -> Reply
        ensures { heard op self.old ≡ outcome self.new result }
    {
        self.flight_step(op, Event::Heard)
    }

    /// The flight hears nothing, since its link was lost.
    pub(crate) fn lost(&mut self, op: Op) -> Reply
        ensures { lost op self.old ≡ outcome self.new result }
    {
        self.flight_step(op, Event::Lost)
    }

    /// Ends the flight, if its message isn't stored.
    pub(crate) fn give_up(&mut self, op: Op) -> Reply
        ensures { give_up op self.old ≡ outcome self.new result }
    {
        self.flight_step(op, Event::GiveUp)
    }

    // what an event alone does
    fn flight_step(&mut self, op: Op, event: Event) -> Reply
        ensures { flight_step event op self.old ≡ outcome self.new result }
    {
        let advance = self.flights.advance(op, event);
        advance_reply(advance, Reply::NoFlight)
    }

    /// The flight reads in the route row whom it is to nudge.
    pub(crate) fn reread(&mut self, op: Op) -> Reply
        ensures { reread op self.old ≡ outcome self.new result }
    {
        let event = Event::Read(self.routed_place());
        let advance = self.flights.advance(op, event);
        read_reply(advance, Reply::NoFlight)
    }

    /// The flight tells the session that it is to nudge, if that is attached.
    pub(crate) fn nudge(&mut self, op: Op) -> Reply
        ensures { nudge op self.old ≡ outcome self.new result }
    {
        let Some(flight) = self.flights.find(op) else {
            return Reply::NoFlight;
        };
        match flight.stage {
            Stage::Nudge(node, _) => {
                let told = self.tell(node);
                let _ = self.flights.advance(op, Event::Nudged(told));
                self.told_reply(told)
            }
            stage => Reply::Stage(stage),
        }
    }

    /// The route row loses the session that the flight could not tell, and the flight ends.
    pub(crate) fn clear(&mut self, op: Op) -> Reply
        ensures { clear op self.old ≡ outcome self.new result }
    {
        let Some(flight) = self.flights.find(op) else {
            return Reply::NoFlight;
        };
        match flight.stage {
            Stage::Clear(node, at) => {
                let _ = self.clear_route(node, at);
                let _ = self.flights.advance(op, Event::Cleared);
                Reply::End(201)
            }
            stage => Reply::Stage(stage),
        }
    }
}

// adds the flight as the last
fn add_flight(
    alloc: Global,
    flights: &mut Flights,
    op: Op,
    token: Token,
    message: Message,
    stage: Stage,
) -> Result<(), NoMemory>
    ensures ok { OnOk result (flights.new ≡ flights.old ++ record { op = op; message = message; token = token; stage = stage } ∷ []) }
    ensures err { OnErr result (flights.new ≡ flights.old) }
{
    let message = Shared::new(alloc, message)?;
    let flight = Flight {
        message,
        token,
        stage,
    };
    flights.append(op, flight)
}

// stores the flight's message, unless that is refused, and says what happens to the flight
fn store_message(
    channels: &Channels,
    rows: &mut Rows,
    flight: &FlightRow,
    moment: Moment,
) -> Result<Event, NoMemory>
    ensures event { IfOk result (λ event. event ≡ store_event moment flight.now channels.now rows.old.rows) }
    ensures rows { OnOk result (rows.new.rows ≡ rows_after moment flight.now channels.now rows.old.rows) }
    ensures kept { rows.old.spare ≤ rows.new.spare }
    ensures err { OnErr result ((rows.new ≡ rows.old) × IsJoining moment flight.now channels.now rows.old.rows) }
{
    let message = flight.message.message();
    if !channels.has_token(message.chid, &flight.token) {
        return Ok(Event::Ended(410));
    }
    if expired(message, moment) {
        return Ok(Event::Ended(201));
    }
    match rows.verdict(message) {
        Verdict::Stays => Ok(Event::Stored),
        Verdict::Older => Ok(Event::Ended(201)),
        Verdict::Full => Ok(Event::Ended(503)),
        Verdict::Joins => {
            rows.store(flight.message.share()?)?;
            Ok(Event::Stored)
        }
    }
}

// the reply of a flight that stores its message: where it goes on, that is stored
fn stored_reply(advance: Advance) -> Reply
    ensures { result ≡ stored_reply advance }
{
    match advance {
        Advance::Moved(_) => Reply::Stored,
        _ => advance_reply(advance, Reply::NoFlight),
    }
}
