//! The line of a reply.
ghost use Rattle.std.specs.Prelude.{◌≡◌, ◌++◌, [], IfOk, OnOk, decimal};
ghost use Rattle.std.specs.String.{string_bytes};
ghost use Rattle.push_model.specs.declared.reply.Reply.TheVariants.{Begun, Counts as CountsAre, Endpoint, Left, Page, Users as UsersAre};
ghost use Rattle.schedule_text.specs.Words.{word};
ghost use Rattle.schedule_text.specs.Replies.{lf, or_dot, stage_word, list_word, reason_word, place_words, message_word, user_word, reply_line};

use crate::writing::{push_decimal, put_decimal, put_hex, put_payload, put_token, put_word};
use push_model::{
    AckedFrom, Counts, Message, MsgId, NoMemory, NodeId, Pages, Reason, Reply, Stage, Text, Token,
    Uaid, Users,
};
use std::alloc::{AllocError, Global};
use std::marker::Model;
use std::mem;

/// The room for a line of a few words.
const ROOM: usize = 64;

fn stage_word(stage: &Stage) -> &'static str
    ensures { result.now ≡ stage_word stage.now }
{
    match stage {
        Stage::Direct(_, _) => "direct",
        Stage::Told(_) => "told",
        Stage::Store => "store",
        Stage::Reread => "reread",
        Stage::Nudge(_, _) => "nudge",
        Stage::ToldNudge(_, _, _) => "toldnudge",
        Stage::Clear(_, _) => "clear",
        Stage::Saving => "saving",
        Stage::Idle => "idle",
        Stage::Topic => "topic",
        Stage::Plain => "plain",
        Stage::Displaced => "displaced",
    }
}

fn list_word(from: AckedFrom) -> &'static str
    ensures { result.now ≡ list_word from }
{
    match from {
        AckedFrom::Direct => "direct",
        AckedFrom::Stored => "stored",
    }
}

fn reason_word(why: Reason) -> &'static str
    ensures { result.now ≡ reason_word why }
{
    match why {
        Reason::Channel => "channel",
        Reason::Zero => "zero",
        Reason::Expired => "expired",
        Reason::Replaced => "replaced",
    }
}

// The name alone, in the room of another text.
fn opened(room: String, name: &str) -> Result<String, AllocError>
    ensures { IfOk result (λ text. string_bytes text ≡ name.now) }
{
    let mut text = room;
    text.clear();
    text.push_str(name)?;
    Ok(text)
}

fn closed(mut text: String) -> Result<String, AllocError>
    ensures { IfOk result (λ line. string_bytes line ≡ string_bytes text ++ lf) }
{
    text.push_str("\n")?;
    Ok(text)
}

// A name and a word.
fn word_line(room: String, name: &str, last: &str) -> Result<String, AllocError>
    ensures { IfOk result (λ line. string_bytes line ≡ name.now ++ (word last.now ++ lf)) }
{
    let mut text = opened(room, name)?;
    put_word(&mut text, last)?;
    closed(text)
}

// A name and a number.
fn number_line(room: String, name: &str, number: u64) -> Result<String, AllocError>
    ensures { IfOk result (λ line. string_bytes line ≡ name.now ++ (word (decimal number) ++ lf)) }
{
    let mut text = opened(room, name)?;
    put_decimal(&mut text, number)?;
    closed(text)
}

// A name and two numbers.
fn numbers_line(room: String, name: &str, first: u64, last: u64) -> Result<String, AllocError>
    ensures { IfOk result (λ line. string_bytes line ≡ name.now ++ (word (decimal first) ++ (word (decimal last) ++ lf))) }
{
    let mut text = opened(room, name)?;
    put_decimal(&mut text, first)?;
    put_decimal(&mut text, last)?;
    closed(text)
}

fn endpoint_line(room: String, token: &Token) -> Result<String, AllocError>
    ensures { IfOk result (λ line. string_bytes line ≡ reply_line (Endpoint token.now)) }
{
    let mut text = opened(room, "endpoint")?;
    put_token(&mut text, token)?;
    closed(text)
}

fn put_place(text: &mut String, place: Option<(NodeId, u64)>) -> Result<(), AllocError>
    ensures { OnOk result (string_bytes text.new ≡ string_bytes text.old ++ place_words place) }
{
    match place {
        None => put_word(text, "."),
        Some((node, at)) => {
            put_decimal(text, u64::from(node.get()))?;
            put_decimal(text, at)
        }
    }
}

fn begun_line(room: String, id: MsgId, place: Option<(NodeId, u64)>) -> Result<String, AllocError>
    ensures { IfOk result (λ line. string_bytes line ≡ reply_line (Begun id place)) }
{
    let mut text = opened(room, "begun")?;
    put_decimal(&mut text, id.number)?;
    put_place(&mut text, place)?;
    closed(text)
}

fn left_line(room: String, id: MsgId, why: Reason) -> Result<String, AllocError>
    ensures { IfOk result (λ line. string_bytes line ≡ reply_line (Left id why)) }
{
    let mut text = opened(room, "left")?;
    put_decimal(&mut text, id.number)?;
    put_word(&mut text, reason_word(why))?;
    closed(text)
}

fn put_message(text: &mut String, message: &Message) -> Result<(), AllocError>
    ensures { OnOk result (string_bytes text.new ≡ string_bytes text.old ++ word (message_word message.now)) }
{
    put_decimal(text, message.id.number)?;
    text.push_str(":")?;
    put_hex(text, message.chid.0)?;
    text.push_str(":")?;
    put_payload(text, &message.ask.payload)
}

fn page_line(room: String, pages: &Pages) -> Result<String, AllocError>
    ensures { IfOk result (λ line. string_bytes line ≡ reply_line (Page pages.now)) }
{
    let mut text = opened(room, "page")?;
    for place in 0..pages.len() {
        put_message(&mut text, pages.at(place))?;
    }
    closed(text)
}

fn put_node(text: &mut String, node: Option<NodeId>) -> Result<(), AllocError>
    ensures { OnOk result (string_bytes text.new ≡ string_bytes text.old ++ or_dot node) }
{
    match node {
        None => text.push_str("."),
        Some(node) => push_decimal(text, u64::from(node.get())),
    }
}

fn put_user(text: &mut String, user: (Uaid, Option<NodeId>, u64)) -> Result<(), AllocError>
    ensures { OnOk result (string_bytes text.new ≡ string_bytes text.old ++ word (user_word user)) }
{
    text.push_str(" ")?;
    put_hex(text, user.0.0)?;
    text.push_str(":")?;
    put_node(text, user.1)?;
    text.push_str(":")?;
    push_decimal(text, user.2)
}

fn users_line(room: String, users: &Users) -> Result<String, AllocError>
    ensures { IfOk result (λ line. string_bytes line ≡ reply_line (UsersAre users.now)) }
{
    let mut text = opened(room, "users")?;
    for place in 0..users.len() {
        put_user(&mut text, users.at(place))?;
    }
    closed(text)
}

fn put_count(text: &mut String, name: &str, count: u64) -> Result<(), AllocError>
    ensures { OnOk result (string_bytes text.new ≡ string_bytes text.old ++ (name.now ++ word (decimal count))) }
{
    text.push_str(name)?;
    put_decimal(text, count)
}

fn counts_line(room: String, counts: &Counts) -> Result<String, AllocError>
    ensures { IfOk result (λ line. string_bytes line ≡ reply_line (CountsAre counts.now)) }
{
    let mut text = opened(room, "report")?;
    put_count(&mut text, " users", counts.users)?;
    put_count(&mut text, " stored", counts.stored)?;
    put_count(&mut text, " held", counts.held)?;
    put_count(&mut text, " flights", counts.flights)?;
    put_count(&mut text, " unsent", counts.unsent)?;
    put_count(&mut text, " orphans", counts.orphans)?;
    put_count(&mut text, " waiting", counts.waiting)?;
    closed(text)
}

// The line of the reply, in the room of another text.
fn reply_text(room: String, reply: &Reply) -> Result<String, AllocError>
    ensures { IfOk result (λ text. string_bytes text ≡ reply_line reply.now) }
{
    match reply {
        Reply::Made => opened(room, "made\n"),
        Reply::Taken => opened(room, "taken\n"),
        Reply::NotClaimed => opened(room, "notclaimed\n"),
        Reply::NodeDown => opened(room, "nodedown\n"),
        Reply::Outrun(at) => number_line(room, "outrun", *at),
        Reply::Attached(None) => word_line(room, "attached", "."),
        Reply::Attached(Some(at)) => number_line(room, "attached", *at),
        Reply::Endpoint(token) => endpoint_line(room, token),
        Reply::TokenTaken => opened(room, "tokentaken\n"),
        Reply::NoSession => opened(room, "nosession\n"),
        Reply::NoFlight => opened(room, "noflight\n"),
        Reply::Stage(stage) => word_line(room, "stage", stage_word(stage)),
        Reply::NoToken => opened(room, "notoken\n"),
        Reply::IdsSpent => opened(room, "idsspent\n"),
        Reply::Begun(id, place) => begun_line(room, *id, *place),
        Reply::Here(_) => opened(room, "here\n"),
        Reply::NotHere => opened(room, "nothere\n"),
        Reply::Stored => opened(room, "stored\n"),
        Reply::Names(node, at) => numbers_line(room, "names", u64::from(node.get()), *at),
        Reply::End(code) => number_line(room, "end", u64::from(*code)),
        Reply::Moved(stage) => word_line(room, "moved", stage_word(stage)),
        Reply::Due => opened(room, "due\n"),
        Reply::NotDue => opened(room, "notdue\n"),
        Reply::Page(pages) => page_line(room, pages),
        Reply::Acked(from) => word_line(room, "acked", list_word(*from)),
        Reply::Unknown => opened(room, "unknown\n"),
        Reply::Counts(counts) => counts_line(room, counts),
        Reply::Done => opened(room, "done\n"),
        Reply::NoUser => opened(room, "nouser\n"),
        Reply::Stale(at) => number_line(room, "stale", *at),
        Reply::Claimed(None) => word_line(room, "claimed", "."),
        Reply::Claimed(Some(node)) => number_line(room, "claimed", u64::from(node.get())),
        Reply::Renewed => opened(room, "renewed\n"),
        Reply::Kept => opened(room, "kept\n"),
        Reply::Cleared => opened(room, "cleared\n"),
        Reply::Saving(count) => number_line(room, "saving", *count),
        Reply::Saved(id) => number_line(room, "saved", id.number),
        Reply::Left(id, why) => left_line(room, *id, *why),
        Reply::AllSaved => opened(room, "allsaved\n"),
        Reply::Dropped => opened(room, "dropped\n"),
        Reply::Killed(held, orphans) => numbers_line(room, "killed", *held, *orphans),
        Reply::Users(users) => users_line(room, users),
    }
}

// A text of the reply's line.
fn new_text(alloc: Global, reply: &Reply) -> Result<String, AllocError>
    ensures { IfOk result (λ text. string_bytes text ≡ reply_line reply.now) }
{
    let room = String::with_capacity(alloc, ROOM)?;
    reply_text(room, reply)
}

/// The line of the reply, with its LF.
pub fn print_reply(alloc: Global, reply: &Reply) -> Result<Text, NoMemory>
    ensures { IfOk result (λ t. t ≡ reply_line reply.now) }
{
    match new_text(alloc, reply) {
        Ok(text) => Ok(Text::from_string(text)),
        Err(_) => Err(NoMemory),
    }
}

/// The line of a reply, whose room is kept for the next. Contracts see its bytes.
#[derive(Drop)]
pub struct ReplyLine {
    text: String,
}

impl Model for ReplyLine {
    ghost use Rattle.std.specs.Prelude.{List, ℕ};
    ghost use Rattle.std.specs.String.{string_bytes};

    ghost Value = { List ℕ };

    ghost view = { λ l. string_bytes l.text };
}

impl ReplyLine {
    /// No line. It takes no memory.
    pub fn new(alloc: Global) -> ReplyLine
        ensures { result ≡ [] }
    {
        ReplyLine {
            text: String::new(alloc),
        }
    }

    /// Becomes the line of the reply, with its LF.
    pub fn print(&mut self, alloc: Global, reply: &Reply) -> Result<(), NoMemory>
        ensures { OnOk result (self.new ≡ reply_line reply.now) }
    {
        let room = mem::replace(&mut self.text, String::new(alloc));
        match reply_text(room, reply) {
            Ok(text) => {
                self.text = text;
                Ok(())
            }
            Err(_) => Err(NoMemory),
        }
    }

    /// Its bytes.
    pub fn bytes(&self) -> &[u8]
        ensures { result.now ≡ self.now }
    {
        self.text.as_str().as_bytes()
    }
}
