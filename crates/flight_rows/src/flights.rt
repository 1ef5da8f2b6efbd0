//! The list of a user's flights.
ghost use Rattle.std.specs.Prelude.{◌≡◌, ◌==◌, ◌<◌, ◌++◌, ◌∷◌, [], IfOk, OnOk, OnErr, false, find, position, length, not, option_copied, if◌then◌else◌};
ghost use Rattle.std.specs.List.{list_any};
ghost use Rattle.std.specs.Option.{option_map};
ghost use Rattle.push_model.specs.declared.ids.Op.{Op};
ghost use Rattle.push_model.specs.Keyed.{IsPlace, FoundAt};
ghost use Rattle.push_model.specs.Cells.{is_flight};
ghost use Rattle.push_model.specs.Advances.{advance_of, advanced};

use crate::advance::flight_advance;
use push_model::{Advance, Event, FlightRow, NoMemory, Op, Shared, Stage, Token};
use std::alloc::Global;
use std::marker::Model;

/// A flight without its name: the message, the token that it was sent to, and the stage of its routing.
#[derive(Debug, Drop)]
pub struct Flight {
    /// The message on its way.
    pub message: Shared,
    /// The token that it was sent to.
    pub token: Token,
    /// The stage at which it begins.
    pub stage: Stage,
}

/// A user's flights in the order in which they began. Contracts see the list of them.
#[derive(Debug, Drop)]
pub struct Flights {
    rows: Vec<FlightRow>,
}

impl Model for Flights {
    ghost use Rattle.std.specs.Prelude.{List};
    ghost use Rattle.push_model.specs.declared.parts.FlightRow.{FlightRow};

    ghost Value = { List FlightRow };

    ghost view = { λ f. f.rows.items };
}

impl Flights {
    /// No flights. It takes no memory.
    pub fn new(alloc: Global) -> Flights
        ensures { result ≡ [] }
    {
        Flights {
            rows: Vec::new(alloc),
        }
    }

    /// Begins the flight as the last. Where the op is in use the answer is `false`, the flight is dropped and the list
    /// stays the same, as it does at `NoMemory`, which comes only where the op is not in use.
    pub fn begin(&mut self, op: Op, flight: Flight) -> Result<bool, NoMemory>
        ensures answer { IfOk result (λ b. b ≡ not (list_any (is_flight op) self.old)) }
        ensures list { OnOk result (self.new ≡ (if list_any (is_flight op) self.old then self.old else self.old ++ record { op = op; message = flight.message; token = flight.token; stage = flight.stage } ∷ [])) }
        ensures err { OnErr result ((self.new ≡ self.old) × (list_any (is_flight op) self.old ≡ false)) }
    {
        if self.has(op) {
            return Ok(false);
        }
        self.append(op, flight)?;
        Ok(true)
    }

    /// Adds the flight as the last, whatever the op is. At `NoMemory` it is dropped, and the others stay.
    pub fn append(&mut self, op: Op, flight: Flight) -> Result<(), NoMemory>
        ensures ok { OnOk result (self.new ≡ self.old ++ record { op = op; message = flight.message; token = flight.token; stage = flight.stage } ∷ []) }
        ensures err { OnErr result (self.new ≡ self.old) }
    {
        let row = FlightRow {
            op,
            message: flight.message,
            token: flight.token,
            stage: flight.stage,
        };
        match self.rows.push(row) {
            Ok(()) => Ok(()),
            Err(_) => Err(NoMemory),
        }
    }

    /// How many there are.
    pub fn len(&self) -> usize
        ensures { result ≡ length self.now }
    {
        self.rows.len()
    }

    /// Whether there is none.
    pub fn is_empty(&self) -> bool
        ensures { result ≡ (length self.now == 0) }
    {
        self.rows.is_empty()
    }

    /// All of them, in order.
    pub fn rows(&self) -> &[FlightRow]
        ensures { result.now ≡ self.now }
    {
        &self.rows
    }

    /// Whether that flight is on its way.
    pub fn has(&self, op: Op) -> bool
        ensures { result ≡ list_any (is_flight op) self.now }
    {
        flight_place(&self.rows, op).is_some()
    }

    /// That flight, if it is on its way.
    pub fn find(&self, op: Op) -> Option<&FlightRow>
        ensures { option_copied result ≡ find (is_flight op) self.now }
    {
        match flight_place(&self.rows, op) {
            Some(place) => Some(&self.rows[place]),
            None => None,
        }
    }

    /// The stage of that flight, if it is on its way.
    pub fn stage(&self, op: Op) -> Option<Stage>
        ensures { result ≡ option_map (λ f. f.stage) (find (is_flight op) self.now) }
    {
        match flight_place(&self.rows, op) {
            Some(place) => Some(self.rows[place].stage),
            None => None,
        }
    }

    /// Lets that happen to the flight, and says what becomes of it: it goes on at another stage, ends and leaves the
    /// list, or stays as it is. The other flights stay the same and in order, and an op that isn't in use changes
    /// nothing. It takes no memory.
    pub fn advance(&mut self, op: Op, event: Event) -> Advance
        ensures answer { result ≡ advance_of event (find (is_flight op) self.old) }
        ensures list { self.new ≡ advanced (advance_of event (find (is_flight op) self.old)) op self.old }
    {
        let Some(place) = flight_place(&self.rows, op) else {
            return Advance::Absent;
        };
        let advance = row_advance(&self.rows[place], event);
        self.go_on(place, &advance);
        advance
    }

    // what becomes of the flight at that place is done to it
    fn go_on(&mut self, place: usize, advance: &Advance)
        requires { place < length self.old }
        ensures { (op : Op) → FoundAt (is_flight op) self.old place → self.new ≡ advanced advance.now op self.old }
    {
        match advance {
            Advance::Moved(stage) => {
                let row = &mut self.rows[place];
                row.stage = *stage;
            }
            Advance::End(_) => {
                self.rows.remove(place);
            }
            Advance::Out(_) | Advance::Absent => {}
        }
    }
}

// what becomes of that flight
fn row_advance(row: &FlightRow, event: Event) -> Advance
    ensures { result ≡ advance_of event (Some row.now) }
{
    let unkept = row.message.message().ask.terms.ttl == 0;
    flight_advance(event, unkept, row.stage)
}

fn first_flight(rows: &[FlightRow], op: Op) -> Option<usize>
    ensures { result ≡ position (is_flight op) rows.now }
{
    rows.iter().position(|row| row.op.is_same(&op))
}

fn flight_place(rows: &[FlightRow], op: Op) -> Option<usize>
    ensures { IsPlace (is_flight op) rows.now result }
{
    first_flight(rows, op)
}
