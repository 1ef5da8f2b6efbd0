//! Numbers as words.
ghost use Rattle.std.specs.Prelude.{◌≡◌, ◌<◌, ◌^◌, ℕ, IfSome, IsNone, decimal};

use itoa::Buffer;

/// The number up to 65,535 that the word spells in decimal digits, without zeros in front.
pub fn number_of(word: &str) -> Option<u16>
    ensures some { IfSome result (λ n. word.now ≡ decimal n) }
    ensures none { IsNone result → (n : ℕ) → n < 2 ^ 16 → word.now ≡ decimal n → ⊥ }
{
    match word.parse::<u16>() {
        Ok(number) => {
            let mut buffer = Buffer::new();
            if buffer.format(number) == word {
                Some(number)
            } else {
                None
            }
        }
        Err(_) => None,
    }
}
