//! Chats: what a client says, item by item, and the texts that it is sent.
ghost use Rattle.std.specs.Prelude.{◌≡◌, ℕ, List, Option, Some};
ghost use Rattle.push_outside.specs.Chats.{Takes, IsShort, TakeFails, SendFails, heard_texts, sent_texts, lulls_after_take, told_more};
ghost use Rattle.push_outside.specs.declared.chat.Item.{Item};

use push_model::Text;
use std::alloc::Global;

/// What a client sends.
#[derive(Debug, Drop)]
pub enum Item {
    /// A text.
    Text(Text),
    /// A message that is no text.
    Binary,
    /// A text of more than 16,384 bytes.
    TooLong,
}

/// What a take gave.
#[derive(Debug, Drop)]
pub enum Heard {
    /// A text of at most 16,384 bytes.
    Text(Text),
    /// A message that is no text.
    Binary,
    /// A text of more than 16,384 bytes, which is let go.
    TooLong,
    /// Nothing now; a later take may give something.
    NotYet,
    /// Nothing, and nothing is left.
    End,
    /// Nothing, since the take failed.
    Failed,
    /// Nothing, since there was no memory; the item is still left.
    NoMemory,
}

/// What a send, or the end of a chat, came to.
#[derive(Clone, Copy, Debug, PartialEq, Eq)]
pub enum Sent {
    /// The text was sent.
    Done,
    /// Nothing was sent, since the send failed.
    Failed,
    /// Nothing was sent, since there was no memory.
    NoMemory,
}

/// A conversation with a client.
///
/// `left` is the items that are still to be taken, `taken` the texts taken so far and `sent` those sent, where the chat
/// tells them. `code` is the code with which `finish` was last called, if it was. `faults` is a count of failures, up to
/// 2^64 - 1, that never falls. `lulls` is how many takes in a row answered `NotYet`, up to 2^64 - 1, and 0 after any
/// other answer of any call.
pub trait Chat {
    ghost left: { Self → Option (List Item) };

    ghost taken: { Self → Option (List (List ℕ)) };

    ghost sent: { Self → Option (List (List ℕ)) };

    ghost code: { Self → Option ℕ };

    ghost faults: { Self → ℕ };

    ghost lulls: { Self → ℕ };

    /// Takes the next item.
    ///
    /// At `Text`, `Binary` and `TooLong` it is the first of those left, which lose it. At any other answer what is left
    /// stays as it is. `End` comes only where nothing is left, and `Failed` only where `faults` rose, or stood at its last
    /// value; any other answer leaves `faults` as it was. The texts sent and the code stay.
    fn take(&mut self, alloc: Global) -> Heard
        ensures items { Takes result (left self.old) (left self.new) }
        ensures short { IsShort result }
        ensures taken { taken self.new ≡ told_more (taken self.old) (heard_texts result) }
        ensures sent { sent self.new ≡ sent self.old }
        ensures code { code self.new ≡ code self.old }
        ensures cause { TakeFails result (faults self.old) (faults self.new) }
        ensures lulls { lulls self.new ≡ lulls_after_take result (lulls self.old) };

    /// Sends a text.
    ///
    /// At `Done` it is the last of those sent, and at any other answer those sent stay as they are. `Failed` comes only
    /// where `faults` rose, or stood at its last value; any other answer leaves `faults` as it was. The items left, the
    /// texts taken and the code stay.
    fn send(&mut self, alloc: Global, text: &str) -> Sent
        ensures sent { sent self.new ≡ told_more (sent self.old) (sent_texts result text.now) }
        ensures left { left self.new ≡ left self.old }
        ensures taken { taken self.new ≡ taken self.old }
        ensures code { code self.new ≡ code self.old }
        ensures cause { SendFails result (faults self.old) (faults self.new) }
        ensures lulls { lulls self.new ≡ 0 };

    /// Ends the conversation with that code. The code is then the one with which it was ended last, whatever this
    /// answers. The items left and all texts stay, and `Failed` comes only as a send's.
    fn finish(&mut self, number: u16) -> Sent
        ensures code { code self.new ≡ Some number }
        ensures left { left self.new ≡ left self.old }
        ensures taken { taken self.new ≡ taken self.old }
        ensures sent { sent self.new ≡ sent self.old }
        ensures cause { SendFails result (faults self.old) (faults self.new) }
        ensures lulls { lulls self.new ≡ 0 };
}
