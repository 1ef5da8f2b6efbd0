//! The messages that a session is given, and those that it is shown of them.
ghost use Rattle.std.specs.Prelude.{◌≡◌, IfOk, OnOk, OnErr, true, if◌then◌else◌};
ghost use Rattle.push_model.specs.Sessions.{has_room, given, next_page, taken};

use crate::page::{drop_expired, drop_front, first_unexpired, share_all};
use crate::session::SessionCore;
use push_model::{Moment, NoMemory, Pages, Shared};
use std::alloc::Global;

impl SessionCore {
    /// Adds the message to those that wait, if there is room, and says whether there was. Where there was none the message
    /// is dropped, and the session stays as it is; so it does at `NoMemory`, which comes only where there was room.
    pub fn give(&mut self, m: Shared) -> Result<bool, NoMemory>
        ensures room { IfOk result (λ b. b ≡ has_room self.old) }
        ensures session { IfOk result (λ b. self.new ≡ (if b then given m self.old else self.old)) }
        ensures err { OnErr result (self.new ≡ self.old) }
        ensures memory { OnErr result (has_room self.old ≡ true) }
    {
        if !self.has_room() {
            return Ok(false);
        }
        let held = self.held();
        if self.saved.reserve(held + 1).is_err() {
            return Err(NoMemory);
        }
        match self.inbox.push(m) {
            Ok(()) => Ok(true),
            Err(_) => Err(NoMemory),
        }
    }

    /// Shows the first ten messages that aren't expired at that moment, and drops the expired ones. At `NoMemory` the session
    /// stays as it is.
    pub fn take_direct(&mut self, alloc: Global, now: Moment) -> Result<Pages, NoMemory>
        ensures page { IfOk result (λ p. p ≡ next_page now self.old) }
        ensures ok { OnOk result (self.new ≡ taken now self.old) }
        ensures err { OnErr result (self.new ≡ self.old) }
    {
        let page = first_unexpired(alloc, &self.inbox, now)?;
        let mut shown = share_all(alloc, &page)?;
        let count = shown.len();
        if self.direct.append(&mut shown).is_err() {
            return Err(NoMemory);
        }
        drop_expired(&mut self.inbox, now);
        drop_front(&mut self.inbox, count);
        Ok(Pages::from_vec(page))
    }
}
