//! A chat in memory that never fails.
ghost use Rattle.std.specs.Prelude.{◌≡◌, List, ℕ, [], ◌++◌, ◌∷◌, None, Some, OnOk, OnErr, map, drop};
ghost use Rattle.push_outside.specs.Chats.{Takes, IsShort, TakeFails, SendFails, heard_texts, sent_texts, lulls_after_take, told_more};
ghost use Rattle.push_outside.specs.ChatForms.{item_taken, heard_of, next_heard, usual_take, usual_send, after_take, after_send, after_finish};
ghost use Rattle.push_outside.specs.declared.chat.Sent.TheVariants.{Done};

use crate::chat::{Chat, Heard, Item, Sent};
use push_model::{NoMemory, Text};
use std::alloc::Global;
use std::collections::VecDeque;
use std::marker::Model;

/// The longest text that is heard, in bytes.
const TEXT_LIMIT: usize = 16_384;

// Keeps a copy of the text as the last.
fn keep(alloc: Global, texts: &mut Vec<Text>, text: &str) -> Result<(), NoMemory>
    ensures ok { OnOk result (texts.new.items ≡ texts.old.items ++ text.now ∷ []) }
    ensures err { OnErr result (texts.new.items ≡ texts.old.items) }
{
    let copy = Text::copy(alloc, text)?;
    match texts.push(copy) {
        Ok(()) => Ok(()),
        Err(_) => Err(NoMemory),
    }
}

// What is heard of an item.
fn heard_of(item: Item) -> Heard
    ensures { result ≡ heard_of item }
{
    match item {
        Item::Binary => Heard::Binary,
        Item::TooLong => Heard::TooLong,
        Item::Text(text) => {
            if text.as_str().len() <= TEXT_LIMIT {
                Heard::Text(text)
            } else {
                Heard::TooLong
            }
        }
    }
}

// Keeps a copy of the text that is heard next, if one is.
fn keep_next(alloc: Global, left: &VecDeque<Item>, taken: &mut Vec<Text>) -> Result<(), NoMemory>
    ensures ok { OnOk result (taken.new.items ≡ taken.old.items ++ heard_texts (next_heard left.now.items)) }
    ensures err { OnErr result (taken.new.items ≡ taken.old.items) }
{
    let Some(Item::Text(text)) = left.front() else {
        return Ok(());
    };
    if text.as_str().len() <= TEXT_LIMIT {
        keep(alloc, taken, text.as_str())
    } else {
        Ok(())
    }
}

// Takes the first item out.
fn take_next(left: &mut VecDeque<Item>) -> Heard
    ensures answer { result ≡ next_heard left.old.items }
    ensures rest { left.new.items ≡ drop 1 left.old.items }
{
    match left.pop_front() {
        Some(item) => heard_of(item),
        None => Heard::End,
    }
}

/// A chat in memory that never fails and never makes a caller wait.
///
/// Contracts see the items that it has left, the texts taken and sent so far, and the code with which it was last ended.
/// A text of more than 16,384 bytes is taken as `TooLong`.
#[derive(Debug, Drop)]
pub struct SureChat {
    left: VecDeque<Item>,
    taken: Vec<Text>,
    sent: Vec<Text>,
    code: Option<u16>,
}

impl Model for SureChat {
    ghost use Rattle.push_outside.specs.ChatForms.{SureChatValue};

    ghost Value = { SureChatValue };

    ghost view = { λ c. record { left = c.left.items; taken = c.taken.items; sent = c.sent.items; code = c.code } };
}

impl SureChat {
    /// A chat that has these items to give, before its first call. It takes no memory.
    pub fn new(alloc: Global, left: VecDeque<Item>) -> SureChat
        ensures { result ≡ record { left = left.items; taken = []; sent = []; code = None } }
    {
        SureChat {
            left,
            taken: Vec::new(alloc),
            sent: Vec::new(alloc),
            code: None,
        }
    }

    /// The texts taken so far.
    pub fn taken(&self) -> &[Text]
        ensures { result.now ≡ self.now.taken }
    {
        &self.taken
    }

    /// The texts sent so far.
    pub fn sent(&self) -> &[Text]
        ensures { result.now ≡ self.now.sent }
    {
        &self.sent
    }

    /// The code with which it was last ended, if it was.
    pub fn code(&self) -> Option<u16>
        ensures { result ≡ self.now.code }
    {
        self.code
    }
}

impl Chat for SureChat {
    ghost left = { λ c. Some (map item_taken c.left) };

    ghost taken = { λ c. Some c.taken };

    ghost sent = { λ c. Some c.sent };

    ghost code = { λ c. c.code };

    ghost faults = { λ _. 0 };

    ghost lulls = { λ _. 0 };

    /// Gives the next item, `End` where none is left, or `NoMemory`.
    fn take(&mut self, alloc: Global) -> Heard
        ensures items { Takes result (Some (map item_taken self.old.left)) (Some (map item_taken self.new.left)) }
        ensures short { IsShort result }
        ensures taken { Some self.new.taken ≡ told_more (Some self.old.taken) (heard_texts result) }
        ensures sent { Some self.new.sent ≡ Some self.old.sent }
        ensures code { self.new.code ≡ self.old.code }
        ensures cause { TakeFails result 0 0 }
        ensures lulls { 0 ≡ lulls_after_take result 0 }
        ensures answer { result ≡ usual_take result self.old.left }
        ensures after { self.new ≡ after_take self.old result }
    {
        if keep_next(alloc, &self.left, &mut self.taken).is_err() {
            return Heard::NoMemory;
        }
        take_next(&mut self.left)
    }

    /// Keeps the text, or answers `NoMemory`.
    fn send(&mut self, alloc: Global, text: &str) -> Sent
        ensures sent { Some self.new.sent ≡ told_more (Some self.old.sent) (sent_texts result text.now) }
        ensures left { Some (map item_taken self.new.left) ≡ Some (map item_taken self.old.left) }
        ensures taken { Some self.new.taken ≡ Some self.old.taken }
        ensures code { self.new.code ≡ self.old.code }
        ensures cause { SendFails result 0 0 }
        ensures lulls { ◌≡◌ {A = ℕ} 0 0 }
        ensures answer { result ≡ usual_send result }
        ensures after { self.new ≡ after_send self.old result text.now }
    {
        match keep(alloc, &mut self.sent, text) {
            Ok(()) => Sent::Done,
            Err(_) => Sent::NoMemory,
        }
    }

    /// Keeps the code. It is done.
    fn finish(&mut self, number: u16) -> Sent
        ensures code { self.new.code ≡ Some number }
        ensures left { Some (map item_taken self.new.left) ≡ Some (map item_taken self.old.left) }
        ensures taken { Some self.new.taken ≡ Some self.old.taken }
        ensures sent { Some self.new.sent ≡ Some self.old.sent }
        ensures cause { SendFails result 0 0 }
        ensures lulls { ◌≡◌ {A = ℕ} 0 0 }
        ensures answer { result ≡ Done }
        ensures after { self.new ≡ after_finish self.old number }
    {
        self.code = Some(number);
        Sent::Done
    }
}
