//! A chat in memory whose calls fail, or have nothing now, as it was told.
ghost use Rattle.std.specs.Prelude.{◌≡◌, [], None, Some, map};
ghost use Rattle.push_outside.specs.Chats.{Takes, IsShort, TakeFails, SendFails, heard_texts, sent_texts, lulls_after_take, told_more};
ghost use Rattle.push_outside.specs.ChatForms.{item_taken, list_take, list_send, after_list_take, after_list_send, after_list_finish};
ghost use Rattle.push_outside.specs.declared.chat.Sent.TheVariants.{Done};

use crate::calls::{Calls, Turn};
use crate::chat::{Chat, Heard, Item, Sent};
use crate::sure_chat::SureChat;
use push_model::Text;
use std::alloc::Global;
use std::collections::VecDeque;
use std::marker::Model;

/// A chat in memory whose calls fail, or have nothing now, at the numbers that it was told.
///
/// Takes, sends and ends are counted together from 1, up to 2^64 - 1, whatever they answer; only takes have nothing now.
/// Contracts see what they see of a `SureChat`, the number of calls so far, both lists, the number of faults so far,
/// which is that of the calls that failed, and of the lulls in a row. A call with no memory is no fault.
#[derive(Debug, Drop)]
pub struct ListChat {
    chat: SureChat,
    calls: Calls,
}

impl Model for ListChat {
    ghost use Rattle.push_outside.specs.ChatForms.{ListChatValue};

    ghost Value = { ListChatValue };

    ghost view = { λ c. record { chat = c.chat; calls = c.calls.count; failing = c.calls.failing.items; not_yet = c.calls.not_yet.items; faults = c.calls.faults; lulls = c.calls.lulls } };
}

impl ListChat {
    /// A chat that has these items to give, before its first call. A call whose number is in `failing` fails, even if it
    /// is in both lists; a take whose number is in `not_yet` alone has nothing now. It takes no memory.
    pub fn new(
        alloc: Global,
        left: VecDeque<Item>,
        failing: Vec<u64>,
        not_yet: Vec<u64>,
    ) -> ListChat
        ensures { result ≡ record { chat = record { left = left.items; taken = []; sent = []; code = None }; calls = 0; failing = failing.items; not_yet = not_yet.items; faults = 0; lulls = 0 } }
    {
        ListChat {
            chat: SureChat::new(alloc, left),
            calls: Calls::new(failing, not_yet),
        }
    }

    /// The texts taken so far.
    pub fn taken(&self) -> &[Text]
        ensures { result.now ≡ self.now.chat.taken }
    {
        self.chat.taken()
    }

    /// The texts sent so far.
    pub fn sent(&self) -> &[Text]
        ensures { result.now ≡ self.now.chat.sent }
    {
        self.chat.sent()
    }

    /// The code with which it was last ended, if it was.
    pub fn code(&self) -> Option<u16>
        ensures { result ≡ self.now.chat.code }
    {
        self.chat.code()
    }
}

impl Chat for ListChat {
    ghost left = { λ c. Some (map item_taken c.chat.left) };

    ghost taken = { λ c. Some c.chat.taken };

    ghost sent = { λ c. Some c.chat.sent };

    ghost code = { λ c. c.chat.code };

    ghost faults = { λ c. c.faults };

    ghost lulls = { λ c. c.lulls };

    /// Counts the call, and answers as its number says: `Failed`, else `NotYet`, else the next item, `End` where none is
    /// left, or `NoMemory`.
    fn take(&mut self, alloc: Global) -> Heard
        ensures items { Takes result (Some (map item_taken self.old.chat.left)) (Some (map item_taken self.new.chat.left)) }
        ensures short { IsShort result }
        ensures taken { Some self.new.chat.taken ≡ told_more (Some self.old.chat.taken) (heard_texts result) }
        ensures sent { Some self.new.chat.sent ≡ Some self.old.chat.sent }
        ensures code { self.new.chat.code ≡ self.old.chat.code }
        ensures cause { TakeFails result self.old.faults self.new.faults }
        ensures lulls { self.new.lulls ≡ lulls_after_take result self.old.lulls }
        ensures answer { result ≡ list_take self.old result }
        ensures after { self.new ≡ after_list_take self.old result }
    {
        match self.calls.next() {
            Turn::Fails => Heard::Failed,
            Turn::Waits => Heard::NotYet,
            Turn::Works => self.chat.take(alloc),
        }
    }

    /// Counts the call, and answers as its number says: `Failed`, else the text is kept, or the answer is `NoMemory`.
    fn send(&mut self, alloc: Global, text: &str) -> Sent
        ensures sent { Some self.new.chat.sent ≡ told_more (Some self.old.chat.sent) (sent_texts result text.now) }
        ensures left { Some (map item_taken self.new.chat.left) ≡ Some (map item_taken self.old.chat.left) }
        ensures taken { Some self.new.chat.taken ≡ Some self.old.chat.taken }
        ensures code { self.new.chat.code ≡ self.old.chat.code }
        ensures cause { SendFails result self.old.faults self.new.faults }
        ensures lulls { self.new.lulls ≡ 0 }
        ensures answer { result ≡ list_send self.old result }
        ensures after { self.new ≡ after_list_send self.old result text.now }
    {
        if self.calls.fails() {
            return Sent::Failed;
        }
        self.chat.send(alloc, text)
    }

    /// Counts the call, keeps the code, and answers as its number says: `Failed`, else `Done`.
    fn finish(&mut self, number: u16) -> Sent
        ensures code { self.new.chat.code ≡ Some number }
        ensures left { Some (map item_taken self.new.chat.left) ≡ Some (map item_taken self.old.chat.left) }
        ensures taken { Some self.new.chat.taken ≡ Some self.old.chat.taken }
        ensures sent { Some self.new.chat.sent ≡ Some self.old.chat.sent }
        ensures cause { SendFails result self.old.faults self.new.faults }
        ensures lulls { self.new.lulls ≡ 0 }
        ensures answer { result ≡ list_send self.old Done }
        ensures after { self.new ≡ after_list_finish self.old result number }
    {
        let sent = self.chat.finish(number);
        if self.calls.fails() {
            Sent::Failed
        } else {
            sent
        }
    }
}
