//! Numbers in header lines.
ghost use Rattle.std.specs.Prelude.{◌≡◌, ◌^◌, ◌≤◌, true, min};
ghost use Rattle.std.specs.List.{list_all};
ghost use Rattle.std.specs.Char.{is_ascii_digit};
ghost use Rattle.std.specs.Str.Parse.{digits_value};
ghost use Rattle.http_bytes.specs.Numbers.{number_of};

fn are_digits(text: &[u8]) -> bool
    ensures { result ≡ list_all is_ascii_digit text.now }
{
    text.iter().all(|b| b.is_ascii_digit())
}

// The number of these digits, or the cap where it is greater.
fn capped_value(digits: &[u8], cap: u64) -> u64
    requires digits { list_all is_ascii_digit digits.now ≡ true }
    requires cap { cap ≤ 2 ^ 63 }
    ensures { result ≡ min (digits_value 10 digits.now) cap }
{
    let mut n: u64 = 0;
    for b in digits {
        let digit = u64::from(b.saturating_sub(b'0'));
        n = n.saturating_mul(10).saturating_add(digit).min(cap);
    }
    n
}

/// The number that a text of decimal digits says, or the cap where it is greater. `None` comes exactly where the text is empty or
/// has another byte than a digit. It takes no memory, however many digits there are.
pub fn read_number(text: &[u8], cap: u64) -> Option<u64>
    requires { cap ≤ 2 ^ 63 }
    ensures { result ≡ number_of cap text.now }
{
    if text.is_empty() || !are_digits(text) {
        return None;
    }
    Some(capped_value(text, cap))
}
