//! Which messages are expired, and when.
ghost use Rattle.std.specs.Prelude.{◌≡◌};
ghost use Rattle.push_model.specs.Messages.{is_expired};
ghost use Rattle.clock_expiry.specs.Expiry.{expires_at};

use push_model::{Message, Moment};

/// The moment in seconds from which the message is expired: its ttl after it was accepted. With ttl 0 there is none.
pub fn expires_at(message: &Message) -> Option<u64>
    ensures { result ≡ expires_at message.now }
{
    let ttl = u64::from(message.ask.terms.ttl);
    if ttl == 0 {
        None
    } else {
        Some(message.accepted.seconds() + ttl)
    }
}

/// Whether the message is expired at that moment: its ttl isn't 0, and that many seconds have passed since it was
/// accepted. With ttl 0 a message never expires by the clock.
pub fn expired(message: &Message, moment: Moment) -> bool
    ensures { result ≡ is_expired moment message.now }
{
    let ttl = u64::from(message.ask.terms.ttl);
    ttl != 0 && message.accepted.seconds() + ttl <= moment.seconds()
}
