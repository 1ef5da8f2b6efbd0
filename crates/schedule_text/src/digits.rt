//! Lower-case hexadecimal digits, two a byte.
ghost use Rattle.std.specs.Prelude.{◌≡◌, ◌*◌, ◌<◌, ◌≤◌, ◌↔◌, IsTrue, true, false, length, slice_index};
ghost use Rattle.std.specs.Char.{digit_value, is_ascii_digit};
ghost use Rattle.std.specs.Fmt.{digit_glyph};
ghost use Rattle.std.specs.List.{list_all};
ghost use Rattle.std.specs.Str.Parse.{digits_value};
ghost use Rattle.hex.specs.Hex.{encode_lower, lower_digits};
ghost use Rattle.schedule_text.specs.Reading.{is_digit, decoded, AreNumeral, AreDecimal};

fn is_digit(byte: u8) -> bool
    ensures { result ≡ is_digit byte }
{
    matches!(byte, b'0'..=b'9' | b'a'..=b'f')
}

/// Whether each byte is a digit. All are looked at, many at a time.
pub fn are_digits(digits: &[u8]) -> bool
    ensures { result ≡ list_all is_digit digits.now }
{
    let mut all = true;
    for digit in digits {
        all &= is_digit(*digit);
    }
    all
}

/// Whether these are digits, with no zero in front but in `0`.
pub fn are_numeral(word: &[u8]) -> bool
    ensures { IsTrue result ↔ AreNumeral word.now }
{
    if word.is_empty() || (word[0] == b'0' && word.len() != 1) {
        return false;
    }
    are_digits(word)
}

fn are_decimal_digits(digits: &[u8]) -> bool
    ensures { result ≡ list_all is_ascii_digit digits.now }
{
    digits.iter().all(|digit| digit.is_ascii_digit())
}

/// Whether these are decimal digits, with no zero in front but in `0`.
pub fn are_decimal(word: &[u8]) -> bool
    ensures { IsTrue result ↔ AreDecimal word.now }
{
    if word.is_empty() || (word[0] == b'0' && word.len() != 1) {
        return false;
    }
    are_decimal_digits(word)
}

/// The value of a digit. There is no branch in it, so that many digits are read at a time.
fn value_of(digit: u8) -> u8
    requires { is_digit digit ≡ true }
    ensures below { result < 16 }
    ensures value { result ≡ digit_value digit }
    ensures place { slice_index lower_digits result ≡ digit }
{
    digit % 16 + 9 * (digit / 64)
}

/// The number that these digits write.
pub fn number_of(digits: &[u8]) -> u128
    requires digits { list_all is_digit digits.now ≡ true }
    requires short { length digits.now ≤ 32 }
    ensures { result ≡ digits_value 16 digits.now }
{
    let mut number = 0;
    for digit in digits {
        number = number * 16 + u128::from(value_of(*digit));
    }
    number
}

/// The number that these decimal digits write.
pub fn decimal_of(digits: &[u8]) -> u128
    requires digits { list_all is_ascii_digit digits.now ≡ true }
    requires short { length digits.now ≤ 20 }
    ensures { result ≡ digits_value 10 digits.now }
{
    let mut number = 0;
    for digit in digits {
        number = number * 10 + u128::from(*digit - b'0');
    }
    number
}

/// Writes the bytes that these digits spell.
pub fn decode(digits: &[u8], bytes: &mut [u8])
    requires digits { list_all is_digit digits.now ≡ true }
    requires room { length digits.now ≡ 2 * length bytes.old }
    ensures spelled { encode_lower bytes.new ≡ digits.now }
    ensures value { bytes.new ≡ decoded digits.now }
{
    'bytes: for place in 0..bytes.len() {
        bytes[place] = value_of(digits[2 * place]) * 16 + value_of(digits[2 * place + 1]);
    }
}

/// The digit of a value.
pub fn glyph(value: u8) -> u8
    requires { value < 16 }
    ensures value { result ≡ digit_glyph false value }
    ensures place { result ≡ slice_index lower_digits value }
{
    if value < 10 {
        b'0' + value
    } else {
        b'a' - 10 + value
    }
}

/// Writes the digits that spell these bytes, many at a time.
pub fn encode(bytes: &[u8], digits: &mut [u8])
    requires { length digits.old ≡ 2 * length bytes.now }
    ensures { digits.new ≡ encode_lower bytes.now }
{
    'bytes: for place in 0..bytes.len() {
        let byte = bytes[place];
        digits[2 * place] = glyph(byte / 16);
        digits[2 * place + 1] = glyph(byte % 16);
    }
}
