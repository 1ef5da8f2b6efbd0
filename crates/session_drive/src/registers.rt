//! Registering a channel.
ghost use Rattle.std.specs.Prelude.{◌≡◌, ◌<◌, true, Some};
ghost use Rattle.push_model.specs.declared.step.Step.TheVariants.{Register};
ghost use Rattle.push_model.specs.Replies.{is_register_reply};
ghost use Rattle.push_model.specs.declared.reply.Reply.TheVariants.{Endpoint};
ghost use Rattle.endpoint_token.specs.TokenTexts.{IsDrawn, IsToken};
ghost use Rattle.session_drive.specs.Chats.{Said, chat_view, end_of};
ghost use Rattle.session_drive.specs.Runs.{sides};
ghost use Rattle.session_drive.specs.Registers.{GivenEnds, Registers, Tells, endpoint_texts};

use crate::ends::SessionEnd;
use crate::sends::send;
use client_messages::{Port, ServerMsg};
use endpoint_token::draw_token;
use push_model::{ChannelId, Desks, Reply, SessionId, Step, Token};
use push_outside::{Chat, Draw};
use std::alloc::Global;

/// How many tokens a registration draws at most.
const TRIES: usize = 4;

// Sends the endpoint that was given.
#[tactic(auto, using(crate::proofs::RegisterLemmas::given_ends))]
fn tell_endpoint<H: Chat>(
    alloc: Global,
    chat: &mut H,
    port: Port,
    chid: ChannelId,
    token: &Token,
) -> Result<bool, SessionEnd>
    ensures ends { GivenEnds result (Some (Endpoint token.now)) }
    ensures said { Said (end_of result) (endpoint_texts chid port (Endpoint token.now)) (chat_view H.left H.taken H.sent H.code H.faults chat.old) (chat_view H.left H.taken H.sent H.code H.faults chat.new) }
{
    match send(alloc, chat, &ServerMsg::Endpoint(chid, port, *token)) {
        Ok(()) => Ok(true),
        Err(end) => Err(end),
    }
}

// Whether the token was given to the channel; its endpoint is then sent.
#[tactic(auto, using(crate::proofs::ChatLemmas::said_nothing, crate::proofs::ChatLemmas::said_ended))]
fn registered_by<H: Chat>(
    alloc: Global,
    chat: &mut H,
    port: Port,
    chid: ChannelId,
    reply: &Reply,
) -> Result<bool, SessionEnd>
    requires { is_register_reply reply.now ≡ true }
    ensures ends { GivenEnds result (Some reply.now) }
    ensures said { Said (end_of result) (endpoint_texts chid port reply.now) (chat_view H.left H.taken H.sent H.code H.faults chat.old) (chat_view H.left H.taken H.sent H.code H.faults chat.new) }
{
    match reply {
        Reply::NoSession => Err(SessionEnd::Ended),
        Reply::TokenTaken => Ok(false),
        Reply::Endpoint(token) => tell_endpoint(alloc, chat, port, chid, token),
        _ => unreachable!(),
    }
}

// Registers the channel with that token, if no other channel has it.
fn try_register<D: Desks, H: Chat>(
    alloc: Global,
    desks: &mut D,
    chat: &mut H,
    port: Port,
    shard: u8,
    s: SessionId,
    chid: ChannelId,
    token: Token,
) -> Result<bool, SessionEnd>
    requires { shard < (D.view desks.old).size }
    ensures { Tells shard (Register s chid token) (endpoint_texts chid port) result (sides D.view H.left H.taken H.sent H.code H.faults desks.old chat.old) (sides D.view H.left H.taken H.sent H.code H.faults desks.new chat.new) }
{
    match desks.call(alloc, shard, Step::Register(s, chid, token)) {
        Ok(reply) => registered_by(alloc, chat, port, chid, &reply),
        Err(_) => Err(SessionEnd::NoMemory),
    }
}

// A token for a channel of the session's user.
fn draw_for<G: Draw>(draw: &mut G, s: SessionId) -> Token
    ensures drawn { IsDrawn s.uaid result (G.given draw.old) (G.given draw.new) }
    ensures token { IsToken result }
{
    draw_token(draw, s.uaid)
}

/// Registers the channel with a token that is drawn, and sends its endpoint. Another token is drawn while another channel
/// has it, four at most.
pub fn register<D: Desks, H: Chat, G: Draw>(
    alloc: Global,
    desks: &mut D,
    chat: &mut H,
    draw: &mut G,
    port: Port,
    shard: u8,
    s: SessionId,
    chid: ChannelId,
) -> Result<(), SessionEnd>
    requires { shard < (D.view desks.old).size }
    ensures { Registers shard s chid port result (sides D.view H.left H.taken H.sent H.code H.faults desks.old chat.old) (sides D.view H.left H.taken H.sent H.code H.faults desks.new chat.new) (G.given draw.old) (G.given draw.new) }
{
    for tries in 0..TRIES {
        let token = draw_for(draw, s);
        match try_register(alloc, desks, chat, port, shard, s, chid, token) {
            Ok(true) => return Ok(()),
            Ok(false) => {}
            Err(end) => return Err(end),
        }
    }
    Err(SessionEnd::TokenSpent)
}
