//! What a word's bytes say: a number, a signed number, a code or a pair.
ghost use Rattle.std.specs.Prelude.{◌≡◌, ◌≤◌, length, pos};
ghost use Rattle.reader.specs.Limits.{most_digits};
ghost use Rattle.reader.specs.Numbers.{digits_after, number_in, signed_in, code_in, pair_in};

use crate::split::split_once;
use std::marker::Model;

/// The most digits of a number.
const MOST_DIGITS: usize = 11;

/// A number of at most 11 digits.
#[derive(Clone, Copy)]
pub(crate) struct ShortNumber {
    value: u64,
}

impl Model for ShortNumber {
    ghost use Rattle.std.specs.Prelude.{ℕ, ◌^◌, ◌<◌};
    ghost use Rattle.reader.specs.Limits.{most_digits};

    ghost Value = { ℕ };

    ghost view = { λ n. n.value };

    ghost invariant = { λ n. n.value < 10 ^ most_digits };

    ghost inverse = { λ n. record { value = n } };
}

impl From<ShortNumber> for u64 {
    ghost from_gives = { λ n r. r ≡ n };

    fn from(number: ShortNumber) -> u64 {
        number.value
    }
}

impl From<ShortNumber> for i64 {
    ghost from_gives = { λ n r. r ≡ pos n };

    fn from(number: ShortNumber) -> i64 {
        number.value as i64
    }
}

/// A number: 1 to 11 digits with no needless 0 in front.
pub(crate) fn number(text: &[u8]) -> Option<ShortNumber>
    ensures { result ≡ number_in text.now }
{
    if text.len() > MOST_DIGITS {
        return None;
    }
    match text {
        [] | [b'0', _, ..] => None,
        _ => digits(text),
    }
}

fn digits(text: &[u8]) -> Option<ShortNumber>
    requires { length text.now ≤ most_digits }
    ensures { result ≡ digits_after 0 text.now }
{
    let mut value = 0u64;
    for b in text {
        match b {
            b'0'..=b'9' => value = value * 10 + u64::from(b - b'0'),
            _ => return None,
        }
    }
    Some(ShortNumber { value })
}

/// A number after its sign.
pub(crate) fn signed(text: &[u8]) -> Option<i64>
    ensures { result ≡ signed_in text.now }
{
    match text {
        [b'+', rest @ ..] => number(rest).map(i64::from),
        [b'-', rest @ ..] => number(rest).map(|n| -i64::from(n)),
        _ => None,
    }
}

/// A code: three capitals.
pub(crate) fn code(text: &[u8]) -> Option<[u8; 3]>
    ensures { result ≡ code_in text.now }
{
    match text {
        [a, b, c] if a.is_ascii_uppercase() && b.is_ascii_uppercase() && c.is_ascii_uppercase() => {
            Some([*a, *b, *c])
        }
        _ => None,
    }
}

/// A pair: two numbers around a colon.
pub(crate) fn pair(text: &[u8]) -> Option<(ShortNumber, ShortNumber)>
    ensures { result ≡ pair_in text.now }
{
    let (first, second) = split_once(text, b':')?;
    let first = number(first)?;
    let second = number(second)?;
    Some((first, second))
}
