//! What the server says.
ghost use Rattle.std.specs.Prelude.{◌≡◌, IfOk};
ghost use Rattle.std.specs.String.{string_bytes};
ghost use Rattle.client_messages.specs.ServerTexts.{server_text, data_with, notification_with, notification_text, endpoint_text};

use crate::data::{DataText, coding_headers};
use crate::shown::{ChannelText, UaidText};
use endpoint_token::TokenText;
use push_model::{ChannelId, Message, MsgId, NoMemory, Text, Token, Uaid};
use std::alloc::{AllocError, Global};

/// The port at which endpoints are reached.
pub type Port = u16;

/// What the server says.
#[derive(Clone, Copy)]
pub enum ServerMsg<'m> {
    /// The session has begun, as that user.
    Hello(Uaid),
    /// The channel has that token, at the endpoints of that port.
    Endpoint(ChannelId, Port, Token),
    /// The channel is removed.
    Unregistered(ChannelId),
    /// A message has come.
    Notification(&'m Message),
    /// The connection is alive.
    Pong,
}

#[tactic(auto, unfolding(crate::specs::ServerTexts::notification_with))]
fn notification_with(
    alloc: Global,
    chid: ChannelId,
    payload: &[u8],
    headers: &str,
    id: MsgId,
) -> Result<String, AllocError>
    ensures { IfOk result (λ text. string_bytes text ≡ notification_with chid (data_with payload.now headers.now) id) }
{
    let channel = ChannelText(chid);
    let content = DataText { payload, headers };
    format!(in alloc;
        "{{\"channelID\":\"{channel}\",{content}\"messageType\":\"notification\",\"version\":\"{id}\"}}"
    )
}

fn notification_text(alloc: Global, message: &Message) -> Result<String, AllocError>
    ensures { IfOk result (λ text. string_bytes text ≡ notification_text message.now) }
{
    let ask = &message.ask;
    let headers = coding_headers(alloc, ask)?;
    let payload = ask.payload.bytes();
    notification_with(alloc, message.chid, payload, headers.as_str(), message.id)
}

fn endpoint_text(
    alloc: Global,
    chid: ChannelId,
    port: Port,
    token: &Token,
) -> Result<String, AllocError>
    ensures { IfOk result (λ text. string_bytes text ≡ endpoint_text chid port token.now) }
{
    let channel = ChannelText(chid);
    let token = TokenText(token);
    format!(in alloc;
        "{{\"channelID\":\"{channel}\",\"messageType\":\"register\",\"pushEndpoint\":\"http://localhost:{port}/wpush/v1/{token}\",\"status\":200}}"
    )
}

fn text_of(alloc: Global, msg: &ServerMsg) -> Result<String, AllocError>
    ensures { IfOk result (λ text. string_bytes text ≡ server_text msg.now) }
{
    match msg {
        ServerMsg::Hello(uaid) => format!(in alloc;
            "{{\"broadcasts\":{{}},\"messageType\":\"hello\",\"status\":200,\"uaid\":\"{}\",\"use_webpush\":true}}",
            UaidText(*uaid)
        ),
        ServerMsg::Endpoint(chid, port, token) => endpoint_text(alloc, *chid, *port, token),
        ServerMsg::Unregistered(chid) => format!(in alloc;
            "{{\"channelID\":\"{}\",\"messageType\":\"unregister\",\"status\":200}}",
            ChannelText(*chid)
        ),
        ServerMsg::Notification(message) => notification_text(alloc, message),
        ServerMsg::Pong => String::from_str(alloc, "{}"),
    }
}

/// The one text of what the server says.
pub fn write_server(alloc: Global, msg: &ServerMsg) -> Result<Text, NoMemory>
    ensures { IfOk result (λ text. text ≡ server_text msg.now) }
{
    match text_of(alloc, msg) {
        Ok(text) => Ok(Text::from_string(text)),
        Err(_) => Err(NoMemory),
    }
}
