//! Users, channels and payloads, as `{}` prints them.
ghost use Rattle.std.specs.Prelude.{◌≡◌, ◌≤◌, length};
ghost use Rattle.client_messages.specs.Ids.{uaid_text, chid_text};

use base64::display::Base64Display;
use base64::engine::general_purpose::URL_SAFE_NO_PAD;
use push_model::{ChannelId, Uaid};
use std::fmt;
use uuid::Uuid;

fn uaid_digits(uaid: Uaid, buffer: &mut [u8]) -> &str
    requires { 36 ≤ length buffer.old }
    ensures { result.now ≡ uaid_text uaid }
{
    Uuid::from_u128(uaid.0).simple().encode_lower(buffer)
}

fn channel_digits(chid: ChannelId, buffer: &mut [u8]) -> &str
    requires { 36 ≤ length buffer.old }
    ensures { result.now ≡ chid_text chid }
{
    Uuid::from_u128(chid.0).hyphenated().encode_lower(buffer)
}

/// A user, as 32 lower-case digits.
#[derive(Clone, Copy)]
pub struct UaidText(pub Uaid);

impl fmt::Display for UaidText {
    ghost use Rattle.std.specs.Prelude.{Some};
    ghost use Rattle.client_messages.specs.Ids.{uaid_text};

    ghost output = { λ w. Some (uaid_text w.0) };

    fn fmt<W: fmt::Write>(&self, f: &mut fmt::Formatter<W>) -> fmt::Result {
        let mut buffer = Uuid::encode_buffer();
        let text = uaid_digits(self.0, &mut buffer);
        write!(f, "{text}")
    }
}

/// A channel, as a hyphenated UUID in lower case.
#[derive(Clone, Copy)]
pub struct ChannelText(pub ChannelId);

impl fmt::Display for ChannelText {
    ghost use Rattle.std.specs.Prelude.{Some};
    ghost use Rattle.client_messages.specs.Ids.{chid_text};

    ghost output = { λ w. Some (chid_text w.0) };

    fn fmt<W: fmt::Write>(&self, f: &mut fmt::Formatter<W>) -> fmt::Result {
        let mut buffer = Uuid::encode_buffer();
        let text = channel_digits(self.0, &mut buffer);
        write!(f, "{text}")
    }
}

/// A payload, in base64url without padding.
#[derive(Clone, Copy)]
pub struct PayloadText<'p>(pub &'p [u8]);

impl<'p> fmt::Display for PayloadText<'p> {
    ghost use Rattle.std.specs.Prelude.{Some};
    ghost use Rattle.client_messages.specs.Ids.{payload_text};

    ghost output = { λ w. Some (payload_text w.0.now) };

    fn fmt<W: fmt::Write>(&self, f: &mut fmt::Formatter<W>) -> fmt::Result {
        let shown = Base64Display::new(self.0, &URL_SAFE_NO_PAD);
        write!(f, "{shown}")
    }
}
