//! Reading what a client says.
ghost use Rattle.std.specs.Prelude.{◌≡◌, ◌++◌, OnOk, IfOk, codes, option_and_then};
ghost use Rattle.serde_json.specs.View.{view, items_view};
ghost use Rattle.serde_json.specs.Find.{get, as_object, as_array};
ghost use Rattle.client_messages.specs.ClientTexts.{Answers, client_message, typed_message, object_message, is_bare, channel_message, ack_message, uaid_made, chid_at, version_at, id_at, update_of, updates_of};
ghost use Rattle.client_messages.specs.declared.client.ClientMsg.TheVariants.{Register, Unregister};

use crate::client::{ClientFault, ClientMsg, Field};
use crate::ids::id_number;
use crate::updates::Updates;
use push_json::{JsonFault, parse, text_field};
use push_model::{ChannelId, MsgId, NoMemory, Uaid, read_version};
use serde_json::Value;
use std::alloc::Global;

// The id under that name.
fn id_at(value: &Value, name: &str) -> Option<u128>
    ensures { result ≡ id_at name.now (view value.now) }
{
    match text_field(value, name) {
        Some(text) => id_number(text),
        None => None,
    }
}

fn uaid_of(value: &Value) -> Option<Uaid>
    ensures { result ≡ uaid_made (id_at (codes "uaid") (view value.now)) }
{
    match id_at(value, "uaid") {
        Some(number) => Some(Uaid(number)),
        None => None,
    }
}

fn chid_of(value: &Value) -> Option<ChannelId>
    ensures { result ≡ chid_at (view value.now) }
{
    match id_at(value, "channelID") {
        Some(number) => Some(ChannelId(number)),
        None => None,
    }
}

fn version_at(value: &Value) -> Option<MsgId>
    ensures { result ≡ version_at (view value.now) }
{
    match text_field(value, "version") {
        Some(text) => read_version(text.as_bytes()),
        None => None,
    }
}

// Adds what a member of `updates` names, if it names anything.
fn add_update(updates: &mut Updates, value: &Value) -> Result<(), NoMemory>
    ensures { OnOk result (updates.new ≡ updates.old ++ update_of (view value.now)) }
{
    let Some(chid) = chid_of(value) else {
        return Ok(());
    };
    let Some(id) = version_at(value) else {
        return Ok(());
    };
    updates.push(chid, id)
}

#[tactic(auto, using(crate::proofs::UpdateLemmas::updates_more))]
fn updates_of(alloc: Global, members: &[Value]) -> Result<Updates, NoMemory>
    ensures { IfOk result (λ u. u ≡ updates_of (items_view members.now)) }
{
    let mut updates = Updates::new(alloc);
    for member in members {
        add_update(&mut updates, member)?;
    }
    Ok(updates)
}

fn ack_of(alloc: Global, value: &Value) -> Result<ClientMsg, ClientFault>
    ensures { Answers (ack_message (option_and_then as_array (get (codes "updates") (view value.now)))) result }
{
    let Some(field) = value.get("updates") else {
        return Err(ClientFault::BadField(Field::Updates));
    };
    let Some(members) = field.as_array() else {
        return Err(ClientFault::BadField(Field::Updates));
    };
    match updates_of(alloc, members) {
        Ok(updates) => Ok(ClientMsg::Ack(updates)),
        Err(_) => Err(ClientFault::NoMemory),
    }
}

fn register_of(value: &Value) -> Result<ClientMsg, ClientFault>
    ensures { result ≡ channel_message Register (chid_at (view value.now)) }
{
    match chid_of(value) {
        Some(chid) => Ok(ClientMsg::Register(chid)),
        None => Err(ClientFault::BadField(Field::ChannelId)),
    }
}

fn unregister_of(value: &Value) -> Result<ClientMsg, ClientFault>
    ensures { result ≡ channel_message Unregister (chid_at (view value.now)) }
{
    match chid_of(value) {
        Some(chid) => Ok(ClientMsg::Unregister(chid)),
        None => Err(ClientFault::BadField(Field::ChannelId)),
    }
}

// The message of that type.
fn typed(alloc: Global, kind: &str, value: &Value) -> Result<ClientMsg, ClientFault>
    ensures { Answers (typed_message kind.now (view value.now)) result }
{
    if kind == "hello" {
        Ok(ClientMsg::Hello(uaid_of(value)))
    } else if kind == "register" {
        register_of(value)
    } else if kind == "unregister" {
        unregister_of(value)
    } else if kind == "ack" {
        ack_of(alloc, value)
    } else if kind == "nack" {
        Ok(ClientMsg::Nack)
    } else if kind == "broadcast_subscribe" {
        Ok(ClientMsg::BroadcastSubscribe)
    } else {
        Err(ClientFault::UnknownType)
    }
}

// Whether it is an object without members.
fn is_bare(value: &Value) -> bool
    ensures { result ≡ is_bare (as_object (view value.now)) }
{
    match value.as_object() {
        Some(members) => members.is_empty(),
        None => false,
    }
}

fn message_of(alloc: Global, value: &Value) -> Result<ClientMsg, ClientFault>
    ensures { Answers (object_message (view value.now)) result }
{
    if is_bare(value) {
        return Ok(ClientMsg::Ping);
    }
    if !value.is_object() {
        return Err(ClientFault::NoType);
    }
    match text_field(value, "messageType") {
        Some(kind) => typed(alloc, kind, value),
        None => Err(ClientFault::NoType),
    }
}

/// What a client's text says, or the first of its faults.
///
/// `NotJson` comes exactly where `serde_json` refuses the text for another cause than memory; `NoType` where it is no
/// object, or has members and no string under `messageType`; `UnknownType` where that string is no type of a client's;
/// and `BadField` where a member that the type needs is missing or has another form. The members of an acknowledgement
/// that name no channel or no message are passed over.
pub fn read_client(alloc: Global, text: &str) -> Result<ClientMsg, ClientFault>
    ensures { Answers (client_message text.now) result }
{
    match parse(alloc, text) {
        Ok(value) => message_of(alloc, &value),
        Err(JsonFault::NotJson) => Err(ClientFault::NotJson),
        Err(JsonFault::NoMemory) => Err(ClientFault::NoMemory),
    }
}
