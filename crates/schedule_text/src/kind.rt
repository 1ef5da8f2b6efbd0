//! What the words of a line are to be.
ghost use Rattle.std.specs.Prelude.{◌≡◌, slice_get};
ghost use Rattle.schedule_text.specs.Kinds.{is_kind, is_number, kinds, noun, form};

use crate::values;

/// What a word behind the name is to be.
#[derive(Clone, Copy, Debug, PartialEq, Eq)]
pub enum Kind {
    /// `f` or `s`.
    Actor,
    /// A uaid.
    User,
    /// A node.
    Node,
    /// The moment of a session.
    At,
    /// The moment of the clock.
    Moment,
    /// The number of a pass.
    Pass,
    /// The number of a flight.
    Flight,
    /// A channel id.
    Channel,
    /// A token.
    Token,
    /// The number of a message.
    Id,
    /// A ttl.
    Ttl,
    /// A topic, or a dot.
    Topic,
    /// An urgency.
    Urgency,
    /// A payload, or a dot.
    Payload,
}

/// Whether the word is of that kind.
pub fn is_kind(kind: Kind, word: &[u8]) -> bool
    ensures { result ≡ is_kind kind word.now }
{
    match kind {
        Kind::Actor => word == b"f".as_slice() || word == b"s".as_slice(),
        Kind::User => values::hex_value(word).is_some(),
        Kind::Node => values::decimal_value(1, 8, word).is_some(),
        Kind::At => values::decimal_value(0, (1 << 63) - 1, word).is_some(),
        Kind::Moment => values::decimal_value(0, (1 << 62) - 1, word).is_some(),
        Kind::Pass => values::decimal_value(0, u64::MAX, word).is_some(),
        Kind::Flight => values::decimal_value(0, (1 << 63) - 1, word).is_some(),
        Kind::Channel => values::hex_value(word).is_some(),
        Kind::Token => values::token_value(word).is_some(),
        Kind::Id => values::decimal_value(1, (1 << 63) - 1, word).is_some(),
        Kind::Ttl => values::decimal_value(0, 2_592_000, word).is_some(),
        Kind::Topic => values::topic_value(word).is_some(),
        Kind::Urgency => values::urgency_value(word).is_some(),
        Kind::Payload => values::payload_value(word).is_some(),
    }
}

/// Whether a word of that kind is a decimal number.
pub fn is_number(kind: Kind) -> bool
    ensures { result ≡ is_number kind }
{
    match kind {
        Kind::Node | Kind::At | Kind::Moment | Kind::Pass | Kind::Flight | Kind::Id | Kind::Ttl => {
            true
        }
        Kind::Actor
        | Kind::User
        | Kind::Channel
        | Kind::Token
        | Kind::Topic
        | Kind::Urgency
        | Kind::Payload => false,
    }
}

/// What the kind is called.
pub fn noun(kind: Kind) -> &'static str
    ensures { result.now ≡ noun kind }
{
    match kind {
        Kind::Actor => "actor",
        Kind::User => "uaid",
        Kind::Node => "node",
        Kind::At => "session's moment",
        Kind::Moment => "moment",
        Kind::Pass => "pass",
        Kind::Flight => "flight's number",
        Kind::Channel => "channel id",
        Kind::Token => "token",
        Kind::Id => "message's number",
        Kind::Ttl => "ttl",
        Kind::Topic => "topic",
        Kind::Urgency => "urgency",
        Kind::Payload => "payload",
    }
}

/// How a word of that kind is spelled.
pub fn form(kind: Kind) -> &'static str
    ensures { result.now ≡ form kind }
{
    match kind {
        Kind::Actor => "f for a flight, or s for a saver",
        Kind::User | Kind::Channel => "1 to 32 digits 0-9 a-f, without a 0 in front",
        Kind::Node => "a number from 1 to 8",
        Kind::At | Kind::Flight => "a number from 0 to 9223372036854775807",
        Kind::Moment => "a number from 0 to 4611686018427387903",
        Kind::Pass => "a number from 0 to 18446744073709551615",
        Kind::Token => "1 to 48 digits 0-9 a-f, without a 0 in front",
        Kind::Id => "a number from 1 to 9223372036854775807",
        Kind::Ttl => "a number from 0 to 2592000",
        Kind::Topic => "1 to 32 characters A-Z a-z 0-9 - _, or . for none",
        Kind::Urgency => "very-low, low, normal or high",
        Kind::Payload => "2 to 8192 digits 0-9 a-f, two a byte, or . for none",
    }
}

fn at(kinds: &[Kind], place: usize) -> Option<Kind>
    ensures { result ≡ slice_get kinds.now place }
{
    kinds.get(place).copied()
}

/// What stands behind the name.
#[derive(Clone, Copy, Debug)]
pub enum Shape {
    /// A session.
    Session,
    /// A session, a channel and a token.
    Register,
    /// A session and a channel.
    Unregister,
    /// A session, a channel and the number of a message.
    Ack,
    /// A flight, a token, a ttl, a topic, an urgency and a payload.
    Begin,
    /// A flight.
    Op,
    /// A flight or a saver, by a word that is neither `f` nor `s`.
    Actor,
    /// `f` and a flight.
    Flight,
    /// `s` and the session of a saver.
    Saver,
    /// A moment.
    Tick,
    /// A node and a user.
    Notif,
    /// A node.
    Node,
    /// A user.
    User,
    /// Nothing.
    Alone,
}

/// What the word at that place behind the name is to be, from 0 on.
pub fn kind_at(shape: Shape, place: usize) -> Option<Kind>
    ensures { result ≡ slice_get (kinds shape) place }
{
    match shape {
        Shape::Session => at(&[Kind::User, Kind::Node, Kind::At], place),
        Shape::Register => at(
            &[Kind::User, Kind::Node, Kind::At, Kind::Channel, Kind::Token],
            place,
        ),
        Shape::Unregister => at(&[Kind::User, Kind::Node, Kind::At, Kind::Channel], place),
        Shape::Ack => at(
            &[Kind::User, Kind::Node, Kind::At, Kind::Channel, Kind::Id],
            place,
        ),
        Shape::Begin => at(
            &[
                Kind::Pass,
                Kind::Flight,
                Kind::Token,
                Kind::Ttl,
                Kind::Topic,
                Kind::Urgency,
                Kind::Payload,
            ],
            place,
        ),
        Shape::Op => at(&[Kind::Pass, Kind::Flight], place),
        Shape::Actor => at(&[Kind::Actor], place),
        Shape::Flight => at(&[Kind::Actor, Kind::Pass, Kind::Flight], place),
        Shape::Saver => at(&[Kind::Actor, Kind::User, Kind::Node, Kind::At], place),
        Shape::Tick => at(&[Kind::Moment], place),
        Shape::Notif => at(&[Kind::Node, Kind::User], place),
        Shape::Node => at(&[Kind::Node], place),
        Shape::User => at(&[Kind::User], place),
        Shape::Alone => None,
    }
}
