//! What a chat counts.
ghost use Rattle.std.specs.Prelude.{◌≡◌, Some};
ghost use Rattle.push_outside.specs.Chats.{TakeFails, SendFails, lulls_after_take};

use push_outside::{Heard, Sent};

/// The failures of a chat, how many of its takes in a row had nothing, and the code with which it was last ended.
#[derive(Clone, Copy, Debug)]
pub struct Marks {
    /// The failures, up to `u64::MAX`.
    pub faults: u64,
    /// How many takes in a row had nothing, up to `u64::MAX`.
    pub lulls: u64,
    /// The code with which it was last ended, if it was.
    pub code: Option<u16>,
}

impl Marks {
    /// Those before the first call.
    pub const NONE: Marks = Marks {
        faults: 0,
        lulls: 0,
        code: None,
    };

    /// Counts what a take gave.
    pub fn note_heard(&mut self, heard: &Heard)
        ensures cause { TakeFails heard.now self.old.faults self.new.faults }
        ensures lulls { self.new.lulls ≡ lulls_after_take heard.now self.old.lulls }
        ensures code { self.new.code ≡ self.old.code }
    {
        match heard {
            Heard::NotYet => self.lulls = self.lulls.saturating_add(1),
            Heard::Failed => {
                self.lulls = 0;
                self.faults = self.faults.saturating_add(1);
            }
            _ => self.lulls = 0,
        }
    }

    /// Counts what a send came to.
    pub fn note_sent(&mut self, sent: Sent)
        ensures cause { SendFails sent self.old.faults self.new.faults }
        ensures lulls { self.new.lulls ≡ 0 }
        ensures code { self.new.code ≡ self.old.code }
    {
        self.lulls = 0;
        if let Sent::Failed = sent {
            self.faults = self.faults.saturating_add(1);
        }
    }

    /// Counts what the end of the chat with that code came to.
    pub fn note_finish(&mut self, sent: Sent, code: u16)
        ensures cause { SendFails sent self.old.faults self.new.faults }
        ensures lulls { self.new.lulls ≡ 0 }
        ensures code { self.new.code ≡ Some code }
    {
        self.note_sent(sent);
        self.code = Some(code);
    }
}
