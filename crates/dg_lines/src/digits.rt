//! Numbers in decimal, each written in front of what follows it.
ghost use Rattle.std.specs.Prelude.{◌≡◌, ◌+◌, ◌≤◌, ◌++◌, length, drop};
ghost use Rattle.std.specs.Fmt.{signed_decimal};

use itoa::{Buffer, write_digits};

/// The most bytes of a number.
pub(crate) const MAX_DIGITS: usize = 40;

/// Writes the number so that it ends at `end`, and says where it starts. One of a single digit is written at once.
#[inline(always)]
pub(crate) fn write_number(number: i64, line: &mut [u8], end: usize) -> usize
    requires room { MAX_DIGITS ≤ end }
    requires within { end ≤ length line.old }
    ensures start { result ≤ end }
    ensures short { end ≤ result + MAX_DIGITS }
    ensures written { drop result line.new ≡ signed_decimal number ++ drop end line.old }
{
    if number >= 0 && number < 10 {
        line[end - 1] = b'0' + number as u8;
        return end - 1;
    }
    let start = write_digits(number.unsigned_abs(), line, end);
    if number >= 0 {
        return start;
    }
    line[start - 1] = b'-';
    start - 1
}

/// Writes a number of 128 bits so that it ends at `end`, and says where it starts.
#[inline(always)]
pub(crate) fn write_wide(number: i128, line: &mut [u8], end: usize) -> usize
    requires room { MAX_DIGITS ≤ end }
    requires within { end ≤ length line.old }
    ensures start { result ≤ end }
    ensures short { end ≤ result + MAX_DIGITS }
    ensures written { drop result line.new ≡ signed_decimal number ++ drop end line.old }
{
    match i64::try_from(number) {
        Ok(number) => write_number(number, line, end),
        Err(_) => write_long(number, line, end),
    }
}

/// `write_wide` for a number that needs more than 64 bits. It stands apart, so that no buffer is cleared without one.
#[cold]
#[inline(never)]
fn write_long(number: i128, line: &mut [u8], end: usize) -> usize
    requires room { MAX_DIGITS ≤ end }
    requires within { end ≤ length line.old }
    ensures start { result ≤ end }
    ensures short { end ≤ result + MAX_DIGITS }
    ensures written { drop result line.new ≡ signed_decimal number ++ drop end line.old }
{
    let mut buffer = Buffer::new();
    let digits = buffer.format(number).as_bytes();
    let start = end - digits.len();
    line[start..end].copy_from_slice(digits);
    start
}
