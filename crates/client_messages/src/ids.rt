//! Users and channels, as clients write them.
ghost use Rattle.std.specs.Prelude.{◌≡◌};
ghost use Rattle.client_messages.specs.Ids.{id_number};
ghost use Rattle.uuid.specs.Text.{parsed};

use uuid::Uuid;

// What `uuid` reads in the text.
fn parsed_text(text: &str) -> Option<Uuid>
    ensures { result ≡ parsed text.now }
{
    match Uuid::try_parse(text) {
        Ok(id) => Some(id),
        Err(_) => None,
    }
}

/// The number of 32 hexadecimal digits or of a hyphenated UUID (RFC 9562, section 4), in either case. `None` comes exactly
/// for other texts, the forms in braces and with `urn:uuid:` among them.
pub fn id_number(text: &str) -> Option<u128>
    ensures { result ≡ id_number text.now }
{
    if text.len() == 32 || text.len() == 36 {
        let id = parsed_text(text)?;
        Some(id.as_u128())
    } else {
        None
    }
}
