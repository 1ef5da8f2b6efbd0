//! A client's conversation, told line by line.

use node_routes::{HereLink, NodeLink};
use push_model::{ChannelId, Desks, NodeId, Text, Token, Uaid};
use push_outside::{Item, ListChat, ListDraw, SetClock};
use session_front::{Live, Place, Pumped, pump};
use std::alloc::Global;
use std::collections::VecDeque;
use std::process::Abort;
use std::test::Fail;

/// A hello, and what it is answered.
pub const HELLO: &str =
    "{\"messageType\":\"hello\"} > Moved {\"broadcasts\":{},\"messageType\":\"hello\",\"status\":200,\"uaid\":\"0102030405060708090a0b0c0d0e0f10\",\"use_webpush\":true}";

/// Then a channel is registered.
pub const REGISTER: &str =
    "{\"messageType\":\"register\",\"channelID\":\"5a5a5a5a-0000-4000-8000-000000000001\"} > Moved {\"channelID\":\"5a5a5a5a-0000-4000-8000-000000000001\",\"messageType\":\"register\",\"pushEndpoint\":\"http://localhost:8082/wpush/v1/ARESExQVFhcYGRobHB0eHyAhIiMkJSYn\",\"status\":200}";

/// And a message comes for it.
pub const NOTIFIED: &str =
    "NOTHING > Moved {\"channelID\":\"5a5a5a5a-0000-4000-8000-000000000001\",\"data\":\"aGk\",\"headers\":{\"encoding\":\"aes128gcm\"},\"messageType\":\"notification\",\"version\":\"00-0000000000000001\"}";

/// The user that is drawn first.
pub const USER: Uaid = Uaid(0x0102_0304_0506_0708_090a_0b0c_0d0e_0f10);

/// Its channel.
pub const CHANNEL: ChannelId = ChannelId(0x5a5a_5a5a_0000_4000_8000_0000_0000_0001);

/// The token of that channel.
pub const TOKEN: Token = Token([
    1, 17, 18, 19, 20, 21, 22, 23, 24, 25, 26, 27, 28, 29, 30, 31, 32, 33, 34, 35, 36, 37, 38, 39,
]);

/// A client that comes again is shown a message that was kept for it, once.
pub const HELD: &str =
    "{\"messageType\":\"hello\",\"uaid\":\"0102030405060708090a0b0c0d0e0f10\"} > Moved {\"broadcasts\":{},\"messageType\":\"hello\",\"status\":200,\"uaid\":\"0102030405060708090a0b0c0d0e0f10\",\"use_webpush\":true} {\"channelID\":\"5a5a5a5a-0000-4000-8000-000000000001\",\"data\":\"aGk\",\"headers\":{\"encoding\":\"aes128gcm\"},\"messageType\":\"notification\",\"version\":\"00-0000000000000001\"}
{} > Moved {}
END > Done(Left)";

/// And nothing where none was kept.
pub const NOTHING_HELD: &str =
    "{\"messageType\":\"hello\",\"uaid\":\"0102030405060708090a0b0c0d0e0f10\"} > Moved {\"broadcasts\":{},\"messageType\":\"hello\",\"status\":200,\"uaid\":\"0102030405060708090a0b0c0d0e0f10\",\"use_webpush\":true}";

/// A conversation with a client at node 1: its chat, what is drawn for it, its clock, and how far its session has come.
#[derive(Drop)]
pub struct Talk {
    pub chat: ListChat,
    pub draw: ListDraw,
    pub clock: SetClock,
    pub place: Place,
    pub live: Live,
}

// What stands in a line for no text of the client.
fn item_of(alloc: Global, said: &str) -> Result<Item, Fail> {
    if said == "BINARY" {
        return Ok(Item::Binary);
    }
    if said == "TOO LONG" {
        return Ok(Item::TooLong);
    }
    Ok(Item::Text(Text::copy(alloc, said)?))
}

// The items that the client sends, each in front of ` > ` in a line of its own. It sends none where the line begins with
// NOTHING or END.
fn items_of(alloc: Global, lines: &str) -> Result<VecDeque<Item>, Fail> {
    let mut items = VecDeque::new(alloc);
    for line in lines.lines() {
        let Some((said, _)) = line.split_once(" > ") else {
            continue;
        };
        if said != "NOTHING" && said != "END" {
            items.push_back(item_of(alloc, said)?)?;
        }
    }
    Ok(items)
}

impl Talk {
    /// A conversation in which the client says what stands in these lines, and whose clock stands at that moment in
    /// milliseconds. The calls of its chat of these numbers fail, or have nothing now.
    pub fn new(
        alloc: Global,
        lines: &str,
        millis: u32,
        failing: &[u64],
        not_yet: &[u64],
    ) -> Result<Talk, Fail> {
        let failing = Vec::from_slice(alloc, failing)?;
        let not_yet = Vec::from_slice(alloc, not_yet)?;
        Ok(Talk {
            chat: ListChat::new(alloc, items_of(alloc, lines)?, failing, not_yet),
            draw: ListDraw::new(1),
            clock: SetClock::new(u64::from(millis)),
            place: place()?,
            live: Live::new(),
        })
    }
}

/// Node 1, whose endpoints are at port 8082.
fn place() -> Result<Place, Fail> {
    let node = NodeId::new(1).ok_or("a node")?;
    Ok(Place { node, port: 8082 })
}

// What a pump came to, the texts that were sent in it, and the code with which the chat was ended, if it was.
fn told(alloc: Global, pumped: Pumped, chat: &ListChat, before: usize) -> Result<String, Fail> {
    let mut told = format!(in alloc; "{pumped:?}")?;
    for text in chat.sent().iter().skip(before) {
        told.push_str(" ")?;
        told.push_str(text.as_str())?;
    }
    if let Some(code) = chat.code() {
        let code = format!(in alloc; " {code}")?;
        told.push_str(code.as_str())?;
    }
    Ok(told)
}

// One pump by that link.
fn pump_by<D: Desks, L: NodeLink<D>>(
    alloc: Global,
    desks: &mut D,
    link: &mut L,
    talk: &mut Talk,
) -> Pumped {
    pump(
        alloc,
        desks,
        &mut talk.chat,
        link,
        &talk.clock,
        &mut talk.draw,
        &talk.place,
        &mut talk.live,
    )
}

// One pump, told.
fn pump_told<D: Desks>(alloc: Global, desks: &mut D, talk: &mut Talk) -> Result<String, Fail> {
    let before = talk.chat.sent().len();
    let pumped = pump_by(alloc, desks, &mut HereLink, talk);
    told(alloc, pumped, &talk.chat, before)
}

/// Makes a pump for each line. Behind ` > ` stands what it comes to, the texts that it sends, and the code of the end.
pub fn says<D: Desks>(
    rt: &impl Abort,
    alloc: Global,
    desks: &mut D,
    talk: &mut Talk,
    lines: &str,
) -> Result<(), Fail> {
    for line in lines.lines() {
        let (said, wanted) = line.split_once(" > ").ok_or("a text and its answer")?;
        assert_eq!(rt; pump_told(alloc, desks, talk)?.as_str(), wanted, "{said}");
    }
    Ok(())
}

/// Makes a pump for each line of a conversation that begins, at 1 second.
pub fn holds<D: Desks>(
    rt: &impl Abort,
    alloc: Global,
    desks: &mut D,
    lines: &str,
) -> Result<(), Fail> {
    let mut talk = Talk::new(alloc, lines, 1_000, &[], &[])?;
    says(rt, alloc, desks, &mut talk, lines)
}
