//! The numbers of a cell. Each stays at 2^64 - 1 once it is there.
ghost use Rattle.std.specs.Prelude.{◌≡◌, ◌&&◌, not, length, count_by};
ghost use Rattle.std.specs.List.{list_any};
ghost use Rattle.push_model.specs.Keyed.{IsPlace};
ghost use Rattle.push_model.specs.Rows.{is_unsent};
ghost use Rattle.push_model.specs.Covering.{is_routed, stored_in, held_in, unsent_in, orphans_in, waiting_in, is_covered, flight_covers};
ghost use Rattle.push_model.specs.ShardSteps.{is_orphaned};
ghost use Rattle.push_model.specs.Tallies.{capped};

use crate::cell::UserCell;
use push_model::{FlightRow, Row};
use session_core::SessionCore;

impl UserCell {
    /// How many messages are stored.
    pub fn stored(&self) -> u64
        ensures { result ≡ capped (stored_in self.now) }
    {
        self.rows.len() as u64
    }

    /// How many messages sessions hold unacknowledged, and savers hold.
    pub fn held(&self) -> u64
        ensures { result ≡ capped (held_in self.now) }
    {
        self.sessions.held().saturating_add(self.savers.held())
    }

    /// How many flights are on their way.
    pub fn flights(&self) -> u64
        ensures { result ≡ capped (length self.now.flights) }
    {
        self.flights.len() as u64
    }

    /// How many stored messages the routed session wasn't sent; none where no session is routed.
    pub fn unsent(&self) -> u64
        ensures { result ≡ capped (unsent_in self.now) }
    {
        match self.routed_session() {
            Some(place) => {
                let session = &self.sessions.sessions[place];
                count_unsent(session, self.user_rows())
            }
            None => 0,
        }
    }

    /// How many stored messages bear an orphan mark.
    pub fn orphans(&self) -> u64
        ensures { result ≡ capped (orphans_in self.now) }
    {
        self.rows.orphans() as u64
    }

    /// How many stored messages the routed session wasn't sent, and nobody is about to tell it of.
    pub fn waiting(&self) -> u64
        ensures { result ≡ capped (waiting_in self.now) }
    {
        match self.routed_session() {
            Some(place) => {
                let session = &self.sessions.sessions[place];
                self.count_waiting(session, self.user_rows())
            }
            None => 0,
        }
    }

    /// Whether some stored message bears an orphan mark, and a session is routed that can be told of it.
    pub fn is_orphaned(&self) -> bool
        ensures { result ≡ is_orphaned self.now }
    {
        has_orphan(self.user_rows()) && self.routed_session().is_some()
    }

    fn count_waiting(&self, session: &SessionCore, rows: &[Row]) -> u64
        ensures { result ≡ capped (count_by (λ r. is_unsent session.now.sent r && not (is_covered self.now session.now r)) rows.now) }
    {
        rows.iter()
            .filter(|row| session.is_unsent(row) && !self.is_covered(session, row))
            .count() as u64
    }

    // whether the session is about to learn of the row, or the row has an orphan mark
    fn is_covered(&self, session: &SessionCore, row: &Row) -> bool
        ensures { result ≡ is_covered self.now session.now row.now }
    {
        session.comes_to(row)
            || has_flight_that_covers(self.flights.rows(), session, row)
            || self.savers.covers(session.node(), session.at(), row)
            || row.orphan
    }

    // the place of the session that is attached and that the route row names
    fn routed_session(&self) -> Option<usize>
        ensures { IsPlace (is_routed self.now.user) self.now.sessions result }
    {
        self.sessions.routed(self.routed_place())
    }
}

fn has_flight_that_covers(flights: &[FlightRow], session: &SessionCore, row: &Row) -> bool
    ensures { result ≡ list_any (flight_covers session.now row.now) flights.now }
{
    flights.iter().any(|flight| covers(flight, session, row))
}

// whether the flight is of the row's message, and about to tell the session of it
fn covers(flight: &FlightRow, session: &SessionCore, row: &Row) -> bool
    ensures { result ≡ flight_covers session.now row.now flight.now }
{
    let id = row.message.message().id;
    flight.message.message().id.is_same(&id) && session.is_told_at(flight.stage)
}

fn has_orphan(rows: &[Row]) -> bool
    ensures { result ≡ list_any (λ r. r.orphan) rows.now }
{
    rows.iter().any(|row| row.orphan)
}

fn count_unsent(session: &SessionCore, rows: &[Row]) -> u64
    ensures { result ≡ capped (count_by (is_unsent session.now.sent) rows.now) }
{
    rows.iter().filter(|row| session.is_unsent(row)).count() as u64
}
