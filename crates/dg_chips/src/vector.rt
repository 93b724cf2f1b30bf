//! What divisors, scripts and wide amounts share: numbers in an array of 16 places, of 32 bits if they are small.

ghost use Rattle.std.specs.Prelude.{◌≡◌, ℕ, ◌<◌, ◌≤◌, ℤ, pos, length, MatchOption};
ghost use Rattle.std.specs.List.{slice_index_or};
ghost use Rattle.std.specs.Int.RustNames.{unsigned_abs};
ghost use Rattle.dg_chips.specs.Vector.{IsFirstPast};

use crate::script::MAX_ENTRY;
use dg_graph::MAX_VERTICES;

/// The place of the first number whose absolute value is above the limit.
pub fn first_past(numbers: &[i64], limit: u64) -> Option<usize>
    ensures { MatchOption result
        ((v : ℕ) → v < length numbers.now →
        unsigned_abs (slice_index_or numbers.now v (pos 0)) ≤ limit)
        (IsFirstPast limit numbers.now) }
{
    for (v, number) in numbers.iter().enumerate() {
        if number.unsigned_abs() > limit {
            return Some(v);
        }
    }
    None
}

/// The numbers in 32 bits, at most 16 and each within 1,000,000,000, and 0 at each place after them.
pub fn to_i32s(numbers: &[i64]) -> [i32; 16]
    requires few { length numbers.now ≤ MAX_VERTICES }
    requires limit { (v : ℕ) → v < length numbers.now →
        unsigned_abs (slice_index_or numbers.now v (pos 0)) ≤ MAX_ENTRY }
    ensures same { (v : ℕ) → v < length numbers.now →
        slice_index_or result v (pos 0) ≡ slice_index_or numbers.now v (pos 0) }
    ensures zero { (v : ℕ) → length numbers.now ≤ v → slice_index_or result v (pos 0) ≡ pos 0 }
{
    let mut narrowed = [0; 16];
    for (v, number) in numbers.iter().enumerate() {
        narrowed[v] = *number as i32;
    }
    narrowed
}

/// The same numbers in 64 bits.
pub fn to_i64s(numbers: &[i32; 16]) -> [i64; 16]
    ensures { result ≡ numbers.now }
{
    let mut widened = [0; 16];
    for v in 0..16 {
        widened[v] = i64::from(numbers[v]);
    }
    widened
}

/// The numbers, at most 16, and zero at each place after them.
pub fn padded<T: Copy>(numbers: &[T], zero: T) -> [T; 16]
    requires { length numbers.now ≤ MAX_VERTICES }
    ensures same { (v : ℕ) → v < length numbers.now →
        slice_index_or result v zero ≡ slice_index_or numbers.now v zero }
    ensures zero { (v : ℕ) → length numbers.now ≤ v → slice_index_or result v zero ≡ zero }
{
    let mut whole = [zero; 16];
    for (v, number) in numbers.iter().enumerate() {
        whole[v] = *number;
    }
    whole
}
