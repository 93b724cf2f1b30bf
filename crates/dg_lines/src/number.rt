//! Numbers in texts.
ghost use Rattle.std.specs.Prelude.{◌≡◌, ◌≢◌, ℕ, ◌≤◌, ◌<◌, ◌+◌, ◌/◌, ◌%◌, ◌^◌, ◌-◌, pos, neg_ℤ, MatchOption, decimal};
ghost use Rattle.std.specs.Fmt.{signed_decimal};
ghost use Rattle.std.specs.Int.RustNames.{unsigned_abs};
ghost use Rattle.dg_chips.specs.declared.script.TheConstants.{MAX_ENTRY};
ghost use Rattle.dg_rules.specs.declared.entry.TheConstants.{MAX_SEATS};
ghost use Rattle.dg_lines.specs.CommandWords.{IsNumeralWithin};

use dg_chips::MAX_ENTRY;
use dg_rules::MAX_SEATS;
use dg_tokens::parse_integer;

/// The entry of a script, within 1,000,000,000, whose decimal the text is.
pub fn entry_from_decimal(text: &[u8]) -> Option<i64>
    ensures { MatchOption result
        (¬ IsNumeralWithin (neg_ℤ (pos MAX_ENTRY)) (pos MAX_ENTRY) text.now)
        (λ z. (text.now ≡ signed_decimal z) × (unsigned_abs z ≤ MAX_ENTRY)) }
{
    let Some(number) = parse_integer(text) else {
        return None;
    };
    if number.unsigned_abs() <= MAX_ENTRY {
        Some(number)
    } else {
        None
    }
}

/// The degree of a rank test, 0 to 4,294,967,295, whose decimal the text is.
pub fn degree_from_decimal(text: &[u8]) -> Option<u32>
    ensures { MatchOption result
        (¬ IsNumeralWithin (pos 0) (pos (2 ^ 32 - 1)) text.now) (λ k. text.now ≡ decimal k) }
{
    let Some(number) = parse_integer(text) else {
        return None;
    };
    match u32::try_from(number) {
        Ok(k) => Some(k),
        Err(_) => None,
    }
}

/// The seat, 1 to 64, whose decimal the text is.
pub fn seat_from_decimal(text: &[u8]) -> Option<u8>
    ensures { MatchOption result
        ((n : ℕ) → 1 ≤ n → n ≤ MAX_SEATS → text.now ≢ decimal n)
        (λ n. (1 ≤ n) × (n ≤ MAX_SEATS) × (text.now ≡ decimal n)) }
{
    match text.len() {
        1 => seat_of_digits(b'0', text[0]),
        2 => {
            if text[0] == b'0' {
                return None;
            }
            seat_of_digits(text[0], text[1])
        }
        _ => None,
    }
}

/// The seat, 1 to 64, that has these two digits.
fn seat_of_digits(tens: u8, ones: u8) -> Option<u8>
    ensures { MatchOption result
        ((n : ℕ) → 1 ≤ n → n ≤ MAX_SEATS → tens ≡ 48 + n / 10 → ones ≢ 48 + n % 10)
        (λ n. (1 ≤ n) × (n ≤ MAX_SEATS) × (tens ≡ 48 + n / 10) × (ones ≡ 48 + n % 10)) }
{
    if tens < b'0' || tens > b'6' || ones < b'0' || ones > b'9' {
        return None;
    }
    let number = 10 * (tens - b'0') + (ones - b'0');
    if number < 1 || number > MAX_SEATS {
        return None;
    }
    Some(number)
}
