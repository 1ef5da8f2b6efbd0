//! A line, read word by word from the left.
ghost use Rattle.std.specs.Prelude.{◌≡◌, ◌==◌, ◌≤◌, IfSome, length, position};
ghost use Rattle.schedule_text.specs.Reading.{Takes, both, is_space, first_word, after_word, word_at, hex_at, decimal_at, moment_at, node_at, user_at, token_at, topic_at, urgency_at, payload_at, session_at, op_at, channel_at, id_at, actor_at, at_end, decoded, ArePayloadDigits};

use crate::spaces::word_length;
use crate::values;
use push_model::{
    Actor, ChannelId, Moment, MsgId, NodeId, Op, SessionId, Step, Token, Topic, Uaid, Urgency,
};
use std::marker::Model;

/// The last moment, and the last number of a flight and of a message.
const LAST: u64 = (1 << 63) - 1;

/// The bytes up to the first space, and those from it on.
#[inline(always)]
pub fn cut(bytes: &[u8]) -> (&[u8], &[u8])
    ensures front { result.0.now ≡ first_word bytes.now }
    ensures back { result.1.now ≡ after_word bytes.now }
{
    bytes.split_at(word_length(bytes))
}

/// The words that are still to be read. Contracts see the bytes from the space in front of them on. Each method reads
/// the next words, or answers none where they are not such words, and nothing is to be read after that.
#[derive(Drop)]
pub struct Words<'a> {
    rest: &'a [u8],
}

impl<'a> Model for Words<'a> {
    ghost use Rattle.std.specs.Prelude.{List, ℕ};

    ghost Value = { List ℕ };

    ghost view = { λ w. w.rest.now };
}

impl<'a> Words<'a> {
    /// The first word of a line, and the words behind it.
    pub fn of(line: &'a [u8]) -> (&'a [u8], Words<'a>)
        ensures first { result.0.now ≡ first_word line.now }
        ensures rest { result.1 ≡ after_word line.now }
    {
        let (first, rest) = cut(line);
        (first, Words { rest })
    }

    /// Whether no word is left.
    pub fn is_empty(&self) -> bool
        ensures { result ≡ (length self.now == 0) }
    {
        self.rest.is_empty()
    }

    /// The step, where no word is left.
    pub fn end(self, step: Step) -> Option<Step>
        ensures { result ≡ at_end self.entry step }
    {
        if self.rest.is_empty() {
            Some(step)
        } else {
            None
        }
    }

    #[inline(always)]
    #[tactic(auto, unfolding(crate::specs::Reading::word_at))]
    fn word(&mut self) -> Option<&'a [u8]>
        ensures { Takes (λ w. w.now) result (word_at self.old) self.new }
    {
        match self.rest {
            [b' ', rest @ ..] => {
                let (word, rest) = cut(rest);
                self.rest = rest;
                Some(word)
            }
            _ => None,
        }
    }

    #[tactic(auto, unfolding(crate::specs::Reading::hex_at))]
    fn hex(&mut self) -> Option<u128>
        ensures { Takes (λ n. n) result (hex_at self.old) self.new }
    {
        values::hex_value(self.word()?)
    }

    #[tactic(auto, unfolding(crate::specs::Reading::decimal_at))]
    fn decimal(&mut self, low: u64, high: u64) -> Option<u64>
        ensures value { Takes (λ n. n) result (decimal_at low high self.old) self.new }
        ensures low { IfSome result (λ n. low ≤ n) }
        ensures high { IfSome result (λ n. n ≤ high) }
    {
        values::decimal_value(low, high, self.word()?)
    }

    /// A moment of the clock.
    #[tactic(auto, unfolding(crate::specs::Reading::moment_at))]
    pub fn moment(&mut self) -> Option<Moment>
        ensures { Takes (λ m. m) result (moment_at self.old) self.new }
    {
        Moment::new(self.decimal(0, (1 << 62) - 1)?)
    }

    /// A node.
    #[tactic(auto, unfolding(crate::specs::Reading::node_at))]
    pub fn node(&mut self) -> Option<NodeId>
        ensures { Takes (λ n. n) result (node_at self.old) self.new }
    {
        let number = self.decimal(1, 8)?;
        NodeId::new(number as u8)
    }

    /// A token.
    #[tactic(auto, unfolding(crate::specs::Reading::token_at))]
    pub fn token(&mut self) -> Option<Token>
        ensures { Takes (λ t. t) result (token_at self.old) self.new }
    {
        values::token_value(self.word()?)
    }

    #[tactic(auto, unfolding(crate::specs::Reading::topic_at))]
    fn topic(&mut self) -> Option<Option<Topic>>
        ensures { Takes (λ t. t) result (topic_at self.old) self.new }
    {
        values::topic_value(self.word()?)
    }

    #[tactic(auto, unfolding(crate::specs::Reading::urgency_at))]
    fn urgency(&mut self) -> Option<Urgency>
        ensures { Takes (λ u. u) result (urgency_at self.old) self.new }
    {
        values::urgency_value(self.word()?)
    }

    /// The digits of a payload.
    #[tactic(auto, unfolding(crate::specs::Reading::payload_at))]
    pub fn payload(&mut self) -> Option<&'a [u8]>
        ensures value { Takes (λ d. decoded d.now) result (payload_at self.old) self.new }
        ensures digits { IfSome result (λ d. ArePayloadDigits d.now) }
    {
        values::payload_value(self.word()?)
    }

    /// A user.
    #[tactic(auto, unfolding(crate::specs::Reading::user_at))]
    pub fn user(&mut self) -> Option<Uaid>
        ensures { Takes (λ u. u) result (user_at self.old) self.new }
    {
        Some(Uaid(self.hex()?))
    }

    /// A user, a node and a moment.
    #[tactic(auto, unfolding(crate::specs::Reading::session_at))]
    pub fn session(&mut self) -> Option<SessionId>
        ensures { Takes (λ s. s) result (session_at self.old) self.new }
    {
        let uaid = self.user()?;
        let node = self.node()?;
        let at = self.decimal(0, LAST)?;
        Some(SessionId { uaid, node, at })
    }

    /// The number of a pass, and that of a flight there.
    #[tactic(auto, unfolding(crate::specs::Reading::op_at))]
    pub fn op(&mut self) -> Option<Op>
        ensures { Takes (λ o. o) result (op_at self.old) self.new }
    {
        let pass = self.decimal(0, u64::MAX)?;
        let k = self.decimal(0, LAST)?;
        Some(Op { pass, k })
    }

    /// A channel.
    #[tactic(auto, unfolding(crate::specs::Reading::channel_at))]
    pub fn channel(&mut self) -> Option<ChannelId>
        ensures { Takes (λ h. h) result (channel_at self.old) self.new }
    {
        Some(ChannelId(self.hex()?))
    }

    /// The id of a message of the shard 0.
    #[tactic(auto, unfolding(crate::specs::Reading::id_at))]
    pub fn id(&mut self) -> Option<MsgId>
        ensures { Takes (λ i. i) result (id_at self.old) self.new }
    {
        let number = self.decimal(1, LAST)?;
        Some(MsgId { shard: 0, number })
    }

    /// `f` and a flight, or `s` and the session of a saver.
    #[tactic(auto, unfolding(crate::specs::Reading::actor_at))]
    pub fn actor(&mut self) -> Option<Actor>
        ensures { Takes (λ a. a) result (actor_at self.old) self.new }
    {
        let tag = self.word()?;
        if tag == b"f".as_slice() {
            Some(Actor::Flight(self.op()?))
        } else if tag == b"s".as_slice() {
            Some(Actor::Saver(self.session()?))
        } else {
            None
        }
    }

    /// A ttl, a topic and an urgency.
    pub fn terms(&mut self) -> Option<(u32, Option<Topic>, Urgency)>
        ensures value { Takes (λ x. (x.0, (x.1, x.2))) result (both (decimal_at 0 2592000) (both topic_at urgency_at) self.old) self.new }
        ensures kept { IfSome result (λ x. x.0 ≤ 2592000) }
    {
        let ttl = self.decimal(0, 2_592_000)? as u32;
        let topic = self.topic()?;
        let urgency = self.urgency()?;
        Some((ttl, topic, urgency))
    }
}
