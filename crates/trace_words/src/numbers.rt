//! Numbers of a trace.
ghost use Rattle.std.specs.Prelude.{◌≡◌, ◌≤◌, ◌+◌, ◌*◌};
ghost use Rattle.std.specs.List.{list_all};
ghost use Rattle.trace_words.specs.Numbers.{
  decimal_of,
  digit_of,
  in_64_bits,
  is_decimal as is_decimal_word,
  is_decimal_digit as is_decimal_byte,
  is_hexadecimal as is_hexadecimal_word,
  is_hexadecimal_digit as is_hexadecimal_byte,
  number_of,
  value_of as value_of_digits,
};

/// A number: `0`, decimal digits whose first isn't 0, or `0x` and 1 to 16 digits of `0` to `9`, `a` to `f`. None if the
/// word is none of these, or its value isn't below 2^64.
#[tactic(auto, unfolding(crate::specs::Numbers::number_of))]
pub fn number(word: &[u8]) -> Option<u64>
    ensures { result ≡ number_of word.now }
{
    if is_decimal(word) {
        value_of(10, word)
    } else if is_hexadecimal(word) {
        value_of(16, &word[2..])
    } else {
        None
    }
}

/// A number in decimal: `0`, or digits whose first isn't 0. None if the word is neither, or its value isn't below 2^64.
pub fn decimal(word: &[u8]) -> Option<u64>
    ensures { result ≡ decimal_of word.now }
{
    if !is_decimal(word) {
        return None;
    }
    value_of(10, word)
}

/// Whether a word is decimal digits, of which the first isn't 0 unless it is the only one.
fn is_decimal(word: &[u8]) -> bool
    ensures { result ≡ is_decimal_word word.now }
{
    match word {
        [] => false,
        [b'0', _, ..] => false,
        _ => all_decimal(word),
    }
}

/// Whether a word is `0x` and 1 to 16 hexadecimal digits.
fn is_hexadecimal(word: &[u8]) -> bool
    ensures { result ≡ is_hexadecimal_word word.now }
{
    if !word.starts_with(b"0x") || word.len() < 3 || word.len() > 18 {
        return false;
    }
    all_hexadecimal(&word[2..])
}

fn all_decimal(digits: &[u8]) -> bool
    ensures { result ≡ list_all is_decimal_byte digits.now }
{
    digits.iter().all(|digit| is_decimal_digit(*digit))
}

fn all_hexadecimal(digits: &[u8]) -> bool
    ensures { result ≡ list_all is_hexadecimal_byte digits.now }
{
    digits.iter().all(|digit| is_hexadecimal_digit(*digit))
}

fn is_decimal_digit(byte: u8) -> bool
    ensures { result ≡ is_decimal_byte byte }
{
    b'0' <= byte && byte <= b'9'
}

fn is_hexadecimal_digit(byte: u8) -> bool
    ensures { result ≡ is_hexadecimal_byte byte }
{
    is_decimal_digit(byte) || (b'a' <= byte && byte <= b'f')
}

/// What a digit counts.
fn digit(byte: u8) -> u64
    ensures { result ≡ digit_of byte }
{
    if byte <= b'9' {
        u64::from(byte.saturating_sub(b'0'))
    } else {
        u64::from(byte.saturating_sub(b'a' - 10))
    }
}

/// A value with one more digit at its end. None if it isn't below 2^64.
fn with_digit(base: u64, value: u64, byte: u8) -> Option<u64>
    ensures { result ≡ in_64_bits (value * base + digit_of byte) }
{
    value.checked_mul(base)?.checked_add(digit(byte))
}

/// The value of digits in a base. None if it isn't below 2^64.
fn value_of(base: u64, digits: &[u8]) -> Option<u64>
    requires { 1 ≤ base }
    ensures { result ≡ in_64_bits (value_of_digits base digits.now) }
{
    let mut value = 0u64;
    for byte in digits {
        value = with_digit(base, value, *byte)?;
    }
    Some(value)
}
