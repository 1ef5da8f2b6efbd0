//! Where a word ends.
ghost use Rattle.std.specs.Prelude.{◌≡◌, ◌≤◌, false, length, take};
ghost use Rattle.std.specs.List.{list_any, position_or_len};
ghost use Rattle.schedule_text.specs.Reading.{is_space};

/// How many bytes are looked at together.
const BLOCK: usize = 32;

fn has_space(bytes: &[u8]) -> bool
    ensures { result ≡ list_any is_space bytes.now }
{
    let mut found = false;
    for byte in bytes {
        found |= *byte == b' ';
    }
    found
}

// Goes past blocks without a space.
fn past_blocks(bytes: &[u8]) -> usize
    ensures within { result ≤ length bytes.now }
    ensures none { list_any is_space (take result bytes.now) ≡ false }
{
    let mut at = 0;
    while bytes.len() - at >= BLOCK && !has_space(&bytes[at..at + BLOCK]) {
        at += BLOCK;
    }
    at
}

/// How many bytes stand before the first space, or in all.
#[inline(never)]
pub fn word_length(bytes: &[u8]) -> usize
    ensures value { result ≡ position_or_len is_space bytes.now }
    ensures within { result ≤ length bytes.now }
{
    let mut at = past_blocks(bytes);
    while at < bytes.len() && bytes[at] != b' ' {
        at += 1;
    }
    at
}
