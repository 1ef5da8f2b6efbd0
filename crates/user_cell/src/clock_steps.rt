//! What the clock does to a user: rows that are due go.
ghost use Rattle.std.specs.Prelude.{◌≡◌, IfNone, IfSome};
ghost use Rattle.push_model.specs.Cells.{rows_of};
ghost use Rattle.push_model.specs.ClockSteps.{ticked};
ghost use Rattle.message_rows.specs.RowStock.{NeverExpire, IsSoonest};

use crate::cell::UserCell;
use push_model::Moment;

impl UserCell {
    /// Takes out the rows that are expired at that moment. It takes no memory.
    pub fn tick(&mut self, moment: Moment)
        ensures { self.new ≡ ticked moment self.old }
    {
        self.rows.expire(moment);
    }

    /// The soonest moment in seconds at which a row expires, and `None` where none ever does.
    pub fn soonest(&self) -> Option<u64>
        ensures never { IfNone result (NeverExpire (rows_of self.now.user)) }
        ensures soonest { IfSome result (IsSoonest (rows_of self.now.user)) }
    {
        self.rows.soonest()
    }
}
