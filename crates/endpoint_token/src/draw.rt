//! New tokens.
ghost use Rattle.endpoint_token.specs.TokenTexts.{IsToken, IsDrawn, first_byte};
ghost use Rattle.std.specs.Prelude.{◌≡◌};

use push_model::{Token, Uaid};
use push_outside::{Draw, fill};

// The first byte of a uaid.
fn first_byte(uaid: Uaid) -> u8
    ensures { result ≡ first_byte uaid }
{
    (uaid.0 >> 120) as u8
}

// The token of these bytes.
fn token_of(bytes: [u8; 24]) -> Token
    ensures bytes { result.0 ≡ bytes }
    ensures token { IsToken result }
{
    Token(bytes)
}

/// A token for a channel of that user: its first byte is the uaid's first, by which its shard is found, and the other 23
/// are the draw's next. It takes no memory.
pub fn draw_token<G: Draw>(draw: &mut G, uaid: Uaid) -> Token
    ensures drawn { IsDrawn uaid result (G.given draw.old) (G.given draw.new) }
    ensures token { IsToken result }
{
    let mut drawn = [0; 23];
    fill(draw, &mut drawn);
    let mut bytes = [first_byte(uaid); 24];
    bytes[1..].copy_from_slice(&drawn);
    token_of(bytes)
}
