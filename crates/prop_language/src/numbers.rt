//! Whole numbers, as they are written.
ghost use Rattle.std.specs.Prelude.{◌≡◌, pos, unsigned_abs};
ghost use Rattle.std.specs.Option.{option_map};
ghost use Rattle.prop_language.specs.Names.{looks_like_number, number_in};
ghost use Rattle.prop_language.specs.inner.Digits.{number_read_in};
ghost use Rattle.prop_language.specs.inner.Parts.{number_up_to};

/// Whether the word begins as a number does: with a minus sign or an ASCII digit.
pub fn looks_like_number(word: &[u8]) -> bool
    ensures { result ≡ looks_like_number word.now }
{
    matches!(word.first(), Some(b'-' | b'0'..=b'9'))
}

/// The number of these digits, of which there is at least one, where it is below 2^64.
fn unsigned(digits: &[u8]) -> Option<u64>
    ensures { result ≡ number_up_to u64.MAX digits.now }
{
    if digits.is_empty() {
        return None;
    }
    let mut number: u64 = 0;
    for byte in digits {
        if !byte.is_ascii_digit() {
            return None;
        }
        number = number
            .checked_mul(10)?
            .checked_add(u64::from(*byte - b'0'))?;
    }
    Some(number)
}

/// The number that the word is, where an `i64` holds it.
fn signed(word: &[u8]) -> Option<i64>
    ensures { result ≡ number_read_in i64.MIN i64.MAX word.now }
{
    match word.split_first() {
        Some((b'-', digits)) => 0i64.checked_sub_unsigned(unsigned(digits)?),
        _ => i64::try_from(unsigned(word)?).ok(),
    }
}

/// The whole number that the word is, where it is one from `low` to `high`: an optional minus sign
/// and one or more ASCII digits, of which the first may be zeros.
pub fn number_in(low: i64, high: i64, word: &[u8]) -> Option<i64>
    ensures { result ≡ number_in low high word.now }
{
    let number = signed(word)?;
    (low <= number && number <= high).then_some(number)
}

/// The whole number that the word is, where it is one from 0 to `high`; it is written as for
/// `number_in`.
pub fn natural_in(high: u64, word: &[u8]) -> Option<u64>
    ensures { result ≡ option_map unsigned_abs (number_in (pos 0) (pos high) word.now) }
{
    match word.split_first() {
        Some((b'-', digits)) => match unsigned(digits) {
            Some(0) => Some(0),
            _ => None,
        },
        _ => match unsigned(word) {
            Some(number) if number <= high => Some(number),
            _ => None,
        },
    }
}
