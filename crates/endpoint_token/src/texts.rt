//! Tokens as text: 32 characters of base64url without padding (RFC 4648, section 5), which are exactly 24 bytes.
ghost use Rattle.std.specs.Prelude.{◌≡◌, Some, IfOk, IfSome, is_some, length};
ghost use Rattle.std.specs.Bool.{OnTrue};
ghost use Rattle.push_model.specs.declared.ids.Token.{Token as TokenValue};
ghost use Rattle.endpoint_token.specs.TokenTexts.{IsToken, is_token_text, spelled};

use base64::display::Base64Display;
use base64::engine::general_purpose::URL_SAFE_NO_PAD;
use push_model::{NoMemory, Text, Token};
use std::alloc::Global;
use std::fmt;

// The characters of 24 bytes, which are a token.
#[tactic(auto, unfolding(crate::specs::TokenTexts::spelled))]
fn spell_bytes(alloc: Global, bytes: &[u8]) -> Result<Text, NoMemory>
    requires { length bytes.now ≡ 24 }
    ensures text { IfOk result (λ text. text ≡ spelled (record { 0 = bytes.now })) }
    ensures token { IsToken (record { 0 = bytes.now }) }
{
    match URL_SAFE_NO_PAD.encode(alloc, bytes) {
        Ok(text) => Ok(Text::from_string(text)),
        Err(_) => Err(NoMemory),
    }
}

/// The token's 32 characters.
pub fn spell(alloc: Global, token: &Token) -> Result<Text, NoMemory>
    ensures text { IfOk result (λ text. text ≡ spelled token.now) }
    ensures token { IsToken token.now }
{
    spell_bytes(alloc, &token.0)
}

// Whether the 32 characters are of the alphabet; the bytes are then those that they spell.
fn read_into(text: &[u8], bytes: &mut [u8]) -> bool
    requires characters { length text.now ≡ 32 }
    requires room { length bytes.old ≡ 24 }
    ensures value { result ≡ is_token_text text.now }
    ensures token { OnTrue result (IsToken (record { 0 = bytes.new })) }
    ensures spelled { OnTrue result (text.now ≡ spelled (record { 0 = bytes.new })) }
{
    URL_SAFE_NO_PAD.decode_slice_unchecked(text, bytes).is_ok()
}

/// The token that is spelled so. `None` comes exactly where the text is not 32 characters of the alphabet. It takes no
/// memory.
pub fn read_token(text: &[u8]) -> Option<Token>
    ensures valid { is_some result ≡ is_token_text text.now }
    ensures token { IfSome result (λ token. IsToken token) }
    ensures found { IfSome result (λ token. text.now ≡ spelled token) }
    ensures read { (t : TokenValue) → IsToken t → text.now ≡ spelled t → result ≡ Some t }
{
    if text.len() != 32 {
        return None;
    }
    let mut bytes = [0; 24];
    if read_into(text, &mut bytes) {
        Some(Token(bytes))
    } else {
        None
    }
}

/// A token as `{}` prints it: its 32 characters. It takes no memory.
#[derive(Clone, Copy)]
pub struct TokenText<'t>(pub &'t Token);

impl<'t> fmt::Display for TokenText<'t> {
    ghost use Rattle.std.specs.Prelude.{Some};
    ghost use Rattle.endpoint_token.specs.TokenTexts.{spelled};

    ghost output = { λ w. Some (spelled w.0.now) };

    #[tactic(auto, unfolding(crate::specs::TokenTexts::spelled))]
    fn fmt<W: fmt::Write>(&self, f: &mut fmt::Formatter<W>) -> fmt::Result {
        let shown = Base64Display::new(&self.0.0, &URL_SAFE_NO_PAD);
        write!(f, "{shown}")
    }
}
