//! Cutting bytes at a byte.
ghost use Rattle.std.specs.Prelude.{◌≡◌, ◌≤◌, ◌==◌, length, map, take, position};
ghost use Rattle.std.specs.Option.{option_copied};
ghost use lib.Lanes.{mask_l};
ghost use Rattle.dg_lines.specs.Cuts.{before, after};

use memchr::memchr;
use std::simd::prelude::*;

/// What stands before the first such byte, or all if there is none, and what stands after it, if there is one.
pub fn cut(bytes: &[u8], at: u8) -> (&[u8], Option<&[u8]>)
    ensures before { result.0.now ≡ before at bytes.now }
    ensures after { option_copied result.1 ≡ after at bytes.now }
{
    match find_byte(bytes, at) {
        Some(place) => (&bytes[..place], Some(&bytes[place + 1..])),
        None => (bytes, None),
    }
}

/// Index of the first `at`. The first 32 bytes, if there are so many, are compared at once, because most words end there.
fn find_byte(bytes: &[u8], at: u8) -> Option<usize>
    ensures { result ≡ position (λ byte. byte == at) bytes.now }
{
    if bytes.len() < 32 {
        return bytes.iter().position(|byte| *byte == at);
    }
    let places = byte_mask(bytes, at);
    if places != 0 {
        return Some(places.trailing_zeros() as usize);
    }
    find_far_byte(bytes, at)
}

/// Index of the first `at`, by `memchr`. It stands apart, so that a byte that is near costs nothing for it.
#[inline(never)]
fn find_far_byte(bytes: &[u8], at: u8) -> Option<usize>
    ensures { result ≡ position (λ byte. byte == at) bytes.now }
{
    memchr(at, bytes)
}

/// The places of the byte among the first 32: bit i of the number is for place i.
fn byte_mask(bytes: &[u8], at: u8) -> u64
    requires { 32 ≤ length bytes.now }
    ensures { result ≡ mask_l (map (λ byte. byte == at) (take 32 bytes.now)) }
{
    u8x32::from_slice(bytes)
        .simd_eq(u8x32::splat(at))
        .to_bitmask()
}
