//! The client of a session, in memory.
ghost use Rattle.std.specs.Prelude.{◌≡◌, ℕ, None};
ghost use Rattle.push_outside.specs.Chats.{IsShort, TakeFails, lulls_after_take};

use push_model::Text;
use push_outside::{Chat, Heard, Sent};
use std::alloc::Global;
use std::collections::VecDeque;

/// The longest text that is heard, in bytes.
const TEXT_LIMIT: usize = 16_384;
/// How many texts of the client wait at most.
const WAITING: usize = 64;
/// The room for an acknowledgement, in bytes.
const ACK_SIZE: usize = 160;

/// A client that says hello, and acknowledges each notification by a text of its own, as browsers do. It keeps nothing that
/// it is sent.
#[derive(Drop)]
pub struct Browser {
    /// What it says next, in order.
    waiting: VecDeque<Text>,
    /// How many notifications it was sent.
    notified: u64,
    /// How many texts were taken from it.
    taken: u64,
    lulls: u64,
    code: Option<u16>,
}

// The version that a notification carries, which stands last in it. No other text of a server ends so.
fn version_of(text: &str) -> Option<&str> {
    let (_, version) = text.strip_suffix("\"}")?.rsplit_once("\"version\":\"")?;
    Some(version)
}

// The acknowledgement of that version.
fn acknowledgement(alloc: Global, version: &str) -> Option<Text> {
    let mut text = String::new(alloc);
    text.reserve_exact(ACK_SIZE).ok()?;
    text.push_str("{\"messageType\":\"ack\",\"updates\":[{\"channelID\":\"")
        .ok()?;
    text.push_str("5a5a5a5a-0000-4000-8000-000000000001\",\"version\":\"")
        .ok()?;
    text.push_str(version).ok()?;
    text.push_str("\",\"code\":100}]}").ok()?;
    Some(Text::from_string(text))
}

// A text that is heard.
fn heard_text(text: Text) -> Heard
    ensures short { IsShort result }
    ensures cause { TakeFails result 0 0 }
    ensures lulls { (lulls : ℕ) → lulls_after_take result lulls ≡ 0 }
{
    if text.as_str().len() <= TEXT_LIMIT {
        Heard::Text(text)
    } else {
        Heard::TooLong
    }
}

impl Browser {
    /// A client that is about to say hello; none where memory is missing.
    pub fn new(alloc: Global) -> Option<Browser> {
        let mut waiting = VecDeque::new(alloc);
        let hello = Text::copy(alloc, "{\"messageType\":\"hello\"}").ok()?;
        waiting.push_back(hello).ok()?;
        Some(Browser {
            waiting,
            notified: 0,
            taken: 0,
            lulls: 0,
            code: None,
        })
    }

    /// How many notifications it was sent, and how many acknowledgements were taken from it.
    pub fn counts(&self) -> (u64, u64) {
        (self.notified, self.taken.saturating_sub(1))
    }

    // Is sent a text. A notification is counted, and its acknowledgement waits from then on, where there is room for it.
    fn hear(&mut self, alloc: Global, text: &str) -> Option<()>
        ensures { self.new.code ≡ self.old.code }
    {
        if let Some(version) = version_of(text) {
            self.notified = self.notified.saturating_add(1);
            if self.waiting.len() < WAITING {
                self.waiting
                    .push_back(acknowledgement(alloc, version)?)
                    .ok()?;
            }
        }
        Some(())
    }
}

impl Chat for Browser {
    ghost left = { λ _. None };

    ghost taken = { λ _. None };

    ghost sent = { λ _. None };

    ghost code = { λ b. b.code };

    ghost faults = { λ _. 0 };

    ghost lulls = { λ b. b.lulls };

    fn take(&mut self, _alloc: Global) -> Heard {
        match self.waiting.pop_front() {
            Some(text) => {
                self.lulls = 0;
                self.taken = self.taken.saturating_add(1);
                heard_text(text)
            }
            None => {
                self.lulls = self.lulls.saturating_add(1);
                Heard::NotYet
            }
        }
    }

    fn send(&mut self, alloc: Global, text: &str) -> Sent {
        let heard = self.hear(alloc, text);
        self.lulls = 0;
        match heard {
            Some(()) => Sent::Done,
            None => Sent::NoMemory,
        }
    }

    fn finish(&mut self, number: u16) -> Sent {
        self.lulls = 0;
        self.code = Some(number);
        Sent::Done
    }
}
