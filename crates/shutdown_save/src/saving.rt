//! How savers save what their sessions held, message by message.
ghost use Rattle.std.specs.Prelude.{◌≡◌, ◌∷◌, ◌<◌, [], length, IfSome, IfNone};
ghost use Rattle.push_model.specs.MessageValue.{MessageValue};
ghost use Rattle.push_model.specs.Keyed.{with_first};
ghost use Rattle.push_model.specs.Cells.{is_saver};
ghost use Rattle.push_model.specs.SaverSteps.{with_held, with_saved};
ghost use Rattle.shutdown_save.specs.Savers.{held_by, rest};

use crate::rows::{SaverRows, saver_place};
use push_model::{Message, SessionId, Shared};

impl SaverRows {
    /// The next message of the saver of that session, at any stage; `None` where it holds none, or isn't there.
    pub fn first(&self, s: SessionId) -> Option<&Message>
        ensures some { IfSome result (λ m. held_by s self.now.savers ≡ m.now ∷ rest (held_by s self.now.savers)) }
        ensures none { IfNone result (held_by s self.now.savers ≡ []) }
    {
        match saver_place(&self.savers, s) {
            Some(place) => self.savers[place].next(),
            None => None,
        }
    }

    /// The saver leaves its next message, if there is one. It takes no memory.
    pub fn leave_first(&mut self, s: SessionId)
        ensures savers { self.new.savers ≡ with_first (is_saver s) (with_held (rest (held_by s self.old.savers))) self.old.savers }
        ensures spare { self.new.spare ≡ self.old.spare }
    {
        match saver_place(&self.savers, s) {
            Some(place) => self.savers[place].leave_next(),
            None => {}
        }
    }

    /// The saver saves its next message, which is moved out, and keeps its id. It takes no memory.
    pub fn save_first(&mut self, s: SessionId) -> Shared
        requires { 0 < length (held_by s self.old.savers) }
        ensures message { held_by s self.old.savers ≡ result ∷ rest (held_by s self.old.savers) }
        ensures savers { self.new.savers ≡ with_first (is_saver s) (with_saved result.id (rest (held_by s self.old.savers))) self.old.savers }
        ensures spare { self.new.spare ≡ self.old.spare }
    {
        let Some(place) = saver_place(&self.savers, s) else {
            unreachable!();
        };
        self.savers[place].save_next()
    }

    /// The saver keeps the id of its next message, which is dropped, since it is a row already. It takes no memory.
    pub fn keep_first(&mut self, s: SessionId)
        requires { 0 < length (held_by s self.old.savers) }
        ensures savers { (m : MessageValue) → held_by s self.old.savers ≡ m ∷ rest (held_by s self.old.savers) → self.new.savers ≡ with_first (is_saver s) (with_saved m.id (rest (held_by s self.old.savers))) self.old.savers }
        ensures spare { self.new.spare ≡ self.old.spare }
    {
        let _ = self.save_first(s);
    }
}
