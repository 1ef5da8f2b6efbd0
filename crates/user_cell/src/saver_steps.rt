//! How a saver takes over from a session that is closed, saves what that held, and tells of it. A session that isn't closed
//! names its own stage in its saver's place.
ghost use Rattle.std.specs.Prelude.{◌≡◌, List};
ghost use Rattle.push_model.specs.declared.parts.Channel.{Channel};
ghost use Rattle.push_model.specs.declared.parts.Row.{Row};
ghost use Rattle.push_model.specs.Cells.{cleared_for, is_routed_to};
ghost use Rattle.push_model.specs.Outcomes.{outcome};
ghost use Rattle.push_model.specs.SaverSteps.{saver, saver_step, saver_heard, saver_lost, saver_reread, saver_nudge, saver_clear, close, closed_reply, release, save, save_held, touched, unclosed};
ghost use Rattle.shutdown_save.specs.Savers.{MayMeet, held_by};
ghost use Rattle.user_cell.specs.Parts.{user_of, IsBare};
ghost use Rattle.user_cell.specs.Saving.{left_for};

use crate::cell::UserCell;
use crate::outcomes::{advance_reply, read_reply};
use clock_expiry::expired;
use push_model::{Event, Message, Moment, NodeId, Reason, Reply, SessionId, Stage, Verdict};
use router_rows::RouterRow;
use session_core::Parts;

impl UserCell {
    /// Closes that session, attached or displaced: its saver takes over what it held, in the room that is kept for that. It
    /// takes no memory.
    pub(crate) fn close(&mut self, moment: Moment, s: SessionId) -> Reply
        ensures { close moment s self.old ≡ outcome self.new result }
    {
        let Some(session) = self.sessions.leave(s) else {
            return self.closed_reply(s);
        };
        let held = session.held() as u64;
        let Parts {
            direct,
            inbox,
            saved,
            ..
        } = session.into_parts();
        self.savers.put(s, direct, inbox, saved);
        touch(&mut self.route, moment);
        Reply::Saving(held)
    }

    // what is replied where the session isn't there: the stage of its saver, if it was closed
    fn closed_reply(&self, s: SessionId) -> Reply
        ensures { result ≡ closed_reply (saver s self.now) }
    {
        match self.savers.stage(s) {
            Some(stage) => Reply::Stage(stage),
            None => Reply::NoSession,
        }
    }

    /// The route row loses the closed session, if it names that.
    pub(crate) fn release(&mut self, s: SessionId) -> Reply
        ensures { release s self.old ≡ outcome self.new result }
    {
        match self.savers.stage(s) {
            Some(Stage::Saving) => {
                if self.clear_route(s.node, s.at) {
                    Reply::Cleared
                } else {
                    Reply::Kept
                }
            }
            Some(stage) => Reply::Stage(stage),
            None => self.unclosed(s),
        }
    }

    /// The route row loses its node, exactly where it names that node and moment; says whether it did.
    pub(crate) fn clear_route(&mut self, node: NodeId, at: u64) -> bool
        ensures routed { result ≡ is_routed_to node at self.old.user }
        ensures cell { self.new ≡ record self.old { user = cleared_for node at self.old.user } }
    {
        match &mut self.route {
            Some(route) => route.clear_if(node, at),
            None => false,
        }
    }

    /// The saver of that session saves its next message, or leaves it; where it holds none it goes on. A row is put into the
    /// room that is kept for it, so that it takes no memory.
    pub(crate) fn save(&mut self, moment: Moment, s: SessionId) -> Reply
        ensures { save moment s self.old ≡ outcome self.new result }
    {
        match self.savers.stage(s) {
            Some(Stage::Saving) => self.save_next(moment, s),
            Some(stage) => Reply::Stage(stage),
            None => self.unclosed(s),
        }
    }

    // what the saver, which is to save, does with its next message
    fn save_next(&mut self, moment: Moment, s: SessionId) -> Reply
        ensures { save_held (held_by s self.old.savers) moment s self.old ≡ outcome self.new result }
    {
        let Some(message) = self.savers.first(s) else {
            let _ = self.savers.advance(s, Event::AllSaved);
            return Reply::AllSaved;
        };
        let id = message.id;
        match self.left_for(moment, message) {
            Some(reason) => {
                self.savers.leave_first(s);
                Reply::Left(id, reason)
            }
            None => {
                let shared = self.savers.save_first(s);
                let _ = self.rows.put_reserved(shared);
                Reply::Saved(id)
            }
        }
    }

    // why a saver's message is left, if it is
    fn left_for(&self, moment: Moment, message: &Message) -> Option<Reason>
        ensures { result ≡ left_for moment message.now self.now.user }
    {
        if !self.channels.has(message.chid) {
            return Some(Reason::Channel);
        }
        if message.ask.terms.ttl == 0 {
            return Some(Reason::Zero);
        }
        if expired(message, moment) {
            return Some(Reason::Expired);
        }
        match self.rows.verdict(message) {
            Verdict::Older => Some(Reason::Replaced),
            Verdict::Stays | Verdict::Full | Verdict::Joins => None,
        }
    }

    /// The saver of that session hears whether its nudge was taken.
    pub(crate) fn saver_heard(&mut self, s: SessionId) -> Reply
        ensures { saver_heard s self.old ≡ outcome self.new result }
    {
        self.saver_step(s, Event::Heard)
    }

    /// The saver of that session hears nothing, since its link was lost.
    pub(crate) fn saver_lost(&mut self, s: SessionId) -> Reply
        ensures { saver_lost s self.old ≡ outcome self.new result }
    {
        self.saver_step(s, Event::Lost)
    }

    // what an event alone does
    fn saver_step(&mut self, s: SessionId, event: Event) -> Reply
        requires { MayMeet (held_by s self.old.savers) event }
        ensures { saver_step event s self.old ≡ outcome self.new result }
    {
        let absent = self.unclosed(s);
        let advance = self.savers.advance(s, event);
        advance_reply(advance, absent)
    }

    /// The saver of that session reads in the route row whom it is to nudge.
    pub(crate) fn saver_reread(&mut self, s: SessionId) -> Reply
        ensures { saver_reread s self.old ≡ outcome self.new result }
    {
        let absent = self.unclosed(s);
        let event = Event::Read(self.routed_place());
        let advance = self.savers.advance(s, event);
        read_reply(advance, absent)
    }

    /// The saver of that session tells the session that it is to nudge, if that is attached.
    pub(crate) fn saver_nudge(&mut self, s: SessionId) -> Reply
        ensures { saver_nudge s self.old ≡ outcome self.new result }
    {
        let Some(stage) = self.savers.stage(s) else {
            return self.unclosed(s);
        };
        match stage {
            Stage::Nudge(node, _) => {
                let told = self.tell(node);
                let _ = self.savers.advance(s, Event::Nudged(told));
                self.told_reply(told)
            }
            stage => Reply::Stage(stage),
        }
    }

    /// The route row loses the session that the saver could not tell, and the saver ends.
    pub(crate) fn saver_clear(&mut self, s: SessionId) -> Reply
        ensures { saver_clear s self.old ≡ outcome self.new result }
    {
        let Some(stage) = self.savers.stage(s) else {
            return self.unclosed(s);
        };
        match stage {
            Stage::Clear(node, at) => {
                let _ = self.clear_route(node, at);
                let _ = self.savers.advance(s, Event::Cleared);
                Reply::End(200)
            }
            stage => Reply::Stage(stage),
        }
    }

    // what a session that isn't closed replies in its saver's place
    fn unclosed(&self, s: SessionId) -> Reply
        ensures { result ≡ unclosed s self.now }
    {
        match self.sessions.named(s) {
            Some(place) => {
                let session = &self.sessions.sessions[place];
                Reply::Stage(session.stage())
            }
            None => Reply::NoSession,
        }
    }
}

// the route row, if there is one, was touched now
fn touch(route: &mut Option<RouterRow>, moment: Moment)
    ensures user { (channels : List Channel) (rows : List Row) → user_of route.new channels rows ≡ touched moment (user_of route.old channels rows) }
    ensures bare { (channels : List Channel) (rows : List Row) → IsBare route.old channels rows → IsBare route.new channels rows }
{
    if let Some(route) = route {
        route.touch(moment);
    }
}
