//! Which of two messages stands.
#![tactic(auto)]

ghost use Rattle.std.specs.Prelude.{◌≡◌};
ghost use Rattle.push_model.specs.Messages.{is_same_topic};
ghost use Rattle.push_model.specs.Rows.{is_of_topic, stands};

use push_model::{Message, Stands, Topic};

// whether both have a topic, and it is the same
fn is_same_topic(one: &Option<Topic>, other: &Option<Topic>) -> bool
    ensures { result ≡ is_same_topic one.now other.now }
{
    match (one, other) {
        (Some(one), Some(other)) => one.bytes() == other.bytes(),
        _ => false,
    }
}

/// Whether both have one channel, and one topic (RFC 8030, section 5.4). A message without topic has none in common.
pub fn is_of_topic(new: &Message, kept: &Message) -> bool
    ensures { result ≡ is_of_topic new.now kept.now }
{
    kept.chid.0 == new.chid.0 && is_same_topic(&new.ask.terms.topic, &kept.ask.terms.topic)
}

/// Which of two messages stands: the one of the greater id, where both have one channel and topic.
pub fn stands(new: &Message, kept: &Message) -> Stands
    ensures { result ≡ stands new.now kept.now }
{
    if kept.id.is_same(&new.id) {
        Stands::Same
    } else if !is_of_topic(new, kept) {
        Stands::Apart
    } else if kept.id.number < new.id.number {
        Stands::New
    } else {
        Stands::Kept
    }
}
