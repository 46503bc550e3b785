//! Numbers of a script.

ghost use Rattle.std.specs.Prelude.{◌≡◌, ◌≤◌, ◌<◌, ◌+◌, ◌*◌, ℕ, length, MatchOption, None, Some};
ghost use Rattle.shm_text.specs.Number.{numeral, number_of, number_from, decimal_of};

/// A number of 64 bits, or one that is too large.
#[derive(Clone, Copy, Debug, PartialEq, Eq)]
pub enum Number {
    Fits(u64),
    TooLarge,
}

/// This many digits of any base up to 16 spell a number of 64 bits.
const SHORT: usize = 15;

/// The number that a few digits of a base spell.
#[inline(always)]
fn few_digits(word: &[u8], radix: u32) -> Option<u64>
    requires few { length word.now ≤ SHORT }
    requires low { 2 ≤ radix }
    requires high { radix ≤ 16 }
    ensures { MatchOption result (numeral radix word.now ≡ None)
        (λ n. numeral radix word.now ≡ Some (Number.Fits n)) }
{
    if word.is_empty() {
        return None;
    }
    let mut value = 0u64;
    for byte in word {
        let digit = (*byte as char).to_digit(radix)?;
        value = value * radix as u64 + digit as u64;
    }
    Some(value)
}

/// The number that digits of a base spell.
#[inline(always)]
pub(crate) fn digits(word: &[u8], radix: u32) -> Option<Number>
    requires low { 2 ≤ radix }
    requires high { radix ≤ 16 }
    ensures { result ≡ numeral radix word.now }
{
    if word.len() > SHORT {
        return many_digits(word, radix);
    }
    match few_digits(word, radix) {
        Some(number) => Some(Number::Fits(number)),
        None => None,
    }
}

/// The number that any digits of a base spell.
fn many_digits(word: &[u8], radix: u32) -> Option<Number>
    requires low { 2 ≤ radix }
    requires high { radix ≤ 16 }
    ensures { result ≡ numeral radix word.now }
{
    if word.is_empty() {
        return None;
    }
    let mut value = Number::Fits(0);
    for byte in word {
        let digit = (*byte as char).to_digit(radix)?;
        value = push(value, radix, digit);
    }
    Some(value)
}

/// The number with one more digit.
#[inline(always)]
fn push(value: Number, radix: u32, digit: u32) -> Number
    requires low { 2 ≤ radix }
    requires high { radix ≤ 16 }
    ensures { (n : ℕ) → digit < radix → value ≡ number_from n → result ≡ number_from (n * radix + digit) }
{
    match value {
        Number::Fits(value) => match value.checked_mul(radix as u64) {
            Some(product) => match product.checked_add(digit as u64) {
                Some(sum) => Number::Fits(sum),
                None => Number::TooLarge,
            },
            None => Number::TooLarge,
        },
        Number::TooLarge => Number::TooLarge,
    }
}

/// Reads decimal digits, or hexadecimal ones after `0x`.
pub(crate) fn read_number(word: &[u8]) -> Option<Number>
    ensures { result ≡ number_of word.now }
{
    match word {
        [b'0', b'x', rest @ ..] => digits(rest, 16),
        _ => digits(word, 10),
    }
}

/// The number of 64 bits that decimal digits spell. Leading zeros are allowed; any other word gives none.
pub fn read_decimal(word: &[u8]) -> Option<u64>
    ensures { result ≡ decimal_of word.now }
{
    match digits(word, 10) {
        Some(Number::Fits(number)) => Some(number),
        Some(Number::TooLarge) | None => None,
    }
}
