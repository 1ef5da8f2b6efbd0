//! Mail words: one word of bits for each shard and node, by which the node hears which of its users have news.
ghost use Rattle.std.specs.Prelude.{◌≡◌};
ghost use Rattle.push_model.specs.MailWords.{bit_of, mail_of};

use crate::ids::Uaid;

/// What was done to a mail word: these bits were set, or all were taken and were these. Like entries of histories, these
/// exist in contracts alone.
pub enum MailChange {
    /// These bits were set.
    Post(u64),
    /// All bits were taken, and were these.
    Taken(u64),
}

/// What one caller did to a mail word. Mail lists are lists of these; they exist in contracts alone.
pub struct MailEntry {
    /// The number that signs the entry.
    pub by: u64,
    /// What was done.
    pub change: MailChange,
}

/// What was taken from a mail word.
#[derive(Clone, Copy, Debug, PartialEq, Eq, Drop)]
pub enum Mail {
    /// No bit was set.
    Quiet,
    /// These bits were set, of which there is one at least.
    Bits(u64),
}

impl Mail {
    /// What the bits of a mail word are as mail: `Quiet` exactly where none is set.
    pub fn of(bits: u64) -> Mail
        ensures { result ≡ mail_of bits }
    {
        if bits == 0 {
            Mail::Quiet
        } else {
            Mail::Bits(bits)
        }
    }
}

/// The bit that tells of news for this user: that of the uaid modulo 64. Users share it.
pub fn mail_bit(uaid: Uaid) -> u64
    ensures { result ≡ bit_of uaid }
{
    1u64 << (uaid.0 % 64) as u32
}
