//! Decimals of numbers.
ghost use Rattle.std.specs.Prelude.{◌≡◌, ◌≢◌, ◌↔◌, ℕ, ℤ, ◌<◌, ◌≤◌, ◌^◌, List, ◌∷◌, length, slice_index, FitsSigned, IsTrue, MatchBool, MatchOption, decimal};
ghost use Rattle.std.specs.Fmt.{signed_decimal};
ghost use Rattle.std.specs.Int.{w64};
ghost use Rattle.dg_tokens.specs.Decimals.{BeginsWithDecimal, StartsWithDigit};
ghost use Rattle.dg_tokens.specs.Digits.{AreLeadingDigits};

use itoa::Buffer;
use std::str;

/// The most digits that are read: whatever they are, their number fits into 64 bits.
const MAX_DIGITS: usize = 19;

/// The number whose decimal the text is, if it is below 2^64. A decimal has no sign and no leading zero.
pub fn parse_natural(text: &[u8]) -> Option<u64>
    ensures { MatchOption result ((n : ℕ) → n < 2 ^ 64 → text.now ≢ decimal n) (λ n. text.now ≡ decimal n) }
{
    let Ok(written) = str::from_utf8(text) else {
        return None;
    };
    let Ok(number) = written.parse::<u64>() else {
        return None;
    };
    if Buffer::new().format(number).as_bytes() == text {
        Some(number)
    } else {
        None
    }
}

/// The whole number from -2^63 to 2^63 - 1 whose decimal the text is. A decimal has no plus and no leading zero.
#[inline(always)]
pub fn parse_integer(text: &[u8]) -> Option<i64>
    ensures { MatchOption result
        ((z : ℤ) → FitsSigned w64 z → text.now ≢ signed_decimal z)
        (λ z. text.now ≡ signed_decimal z) }
{
    let Some((number, rest)) = leading_integer(text) else {
        return None;
    };
    if rest.is_empty() { Some(number) } else { None }
}

/// The whole number from -2^63 to 2^63 - 1 with whose decimal the text begins, and what follows, which begins with no digit.
#[inline(always)]
pub fn leading_integer(text: &[u8]) -> Option<(i64, &[u8])>
    ensures { MatchOption result
        ((z : ℤ) (rest : List ℕ) → FitsSigned w64 z → ¬ BeginsWithDecimal text.now (signed_decimal z) rest)
        (λ r. BeginsWithDecimal text.now (signed_decimal r.0) r.1.now) }
{
    if starts_with_minus(text) {
        return leading_negative(&text[1..]);
    }
    leading_nonnegative(text)
}

/// The whole number with which a text begins that is a minus and then `digits`, and what follows.
#[inline(always)]
fn leading_negative(digits: &[u8]) -> Option<(i64, &[u8])>
    ensures { MatchOption result
        ((z : ℤ) (rest : List ℕ) → FitsSigned w64 z
        → ¬ BeginsWithDecimal (45 ∷ digits.now) (signed_decimal z) rest)
        (λ r. BeginsWithDecimal (45 ∷ digits.now) (signed_decimal r.0) r.1.now) }
{
    let Some((number, rest)) = leading_natural(digits) else {
        return None;
    };
    if number == 0 {
        return None;
    }
    match i64::try_from(number - 1) {
        Ok(below) => Some((-1 - below, rest)),
        Err(_) => None,
    }
}

/// The whole number with which a text begins that has no minus, and what follows.
#[inline(always)]
fn leading_nonnegative(text: &[u8]) -> Option<(i64, &[u8])>
    requires { slice_index text.now 0 ≢ 45 }
    ensures { MatchOption result
        ((z : ℤ) (rest : List ℕ) → FitsSigned w64 z → ¬ BeginsWithDecimal text.now (signed_decimal z) rest)
        (λ r. BeginsWithDecimal text.now (signed_decimal r.0) r.1.now) }
{
    let Some((number, rest)) = leading_natural(text) else {
        return None;
    };
    match i64::try_from(number) {
        Ok(number) => Some((number, rest)),
        Err(_) => None,
    }
}

/// Whether the text begins with a minus.
fn starts_with_minus(text: &[u8]) -> bool
    ensures { MatchBool result
        ((1 ≤ length text.now) × (slice_index text.now 0 ≡ 45))
        (slice_index text.now 0 ≢ 45) }
{
    match text {
        [byte, ..] => *byte == b'-',
        [] => false,
    }
}

/// The number of at most 19 digits with whose decimal the text begins, and what follows, which begins with no digit.
#[inline(always)]
fn leading_natural(text: &[u8]) -> Option<(u64, &[u8])>
    ensures { MatchOption result
        ((n : ℕ) (rest : List ℕ) → n < 10 ^ 19 → ¬ BeginsWithDecimal text.now (decimal n) rest)
        (λ r. (r.0 < 10 ^ 19) × BeginsWithDecimal text.now (decimal r.0) r.1.now) }
{
    let (number, count) = leading_digits(text);
    let rest = &text[count..];
    if count == 0 {
        return None;
    }
    if count > 1 && text[0] == b'0' {
        return None;
    }
    if count == MAX_DIGITS && starts_with_digit(rest) {
        return None;
    }
    Some((number, rest))
}

/// The number that the digits come to with which the text begins, and how many these are, at most 19.
#[inline(always)]
fn leading_digits(text: &[u8]) -> (u64, usize)
    ensures { AreLeadingDigits text.now result.0 result.1 }
{
    let front = &text[..text.len().min(MAX_DIGITS)];
    let mut number = 0;
    for (count, byte) in front.iter().enumerate() {
        if *byte < b'0' || *byte > b'9' {
            return (number, count);
        }
        number = 10 * number + u64::from(*byte - b'0');
    }
    (number, front.len())
}

/// Whether the text begins with a digit.
fn starts_with_digit(text: &[u8]) -> bool
    ensures { IsTrue result ↔ StartsWithDigit text.now }
{
    match text {
        [byte, ..] => byte.is_ascii_digit(),
        [] => false,
    }
}
