//! What the escapes of a text stand for.

use anyhow::{Context, Result, bail};
use std::io::Write;

/// Appends the bytes that a text stands for: `\n`, `\r` and `\t` as in Rust, `\xHH` for a byte, `\e` for no byte, and
/// `\(1-3 TEXT)` for the text once for each number from 1 to 3, where `\#` is the number and `\+` the next one.
pub(crate) fn push_text(bytes: &mut Vec<u8>, text: &str) -> Result<()> {
    let mut parts = text.split(r"\(");
    if let Some(plain) = parts.next() {
        push_plain(bytes, plain, 0)?;
    }
    for part in parts {
        push_repeated(bytes, part)?;
    }
    Ok(())
}

/// Appends what follows the opening parenthesis of a repetition.
fn push_repeated(bytes: &mut Vec<u8>, part: &str) -> Result<()> {
    let (repeated, after) = part.split_once(")").context("a repetition has no end")?;
    let (range, text) = repeated
        .split_once(" ")
        .context("a repetition has no text")?;
    let (first, last) = range.split_once("-").context("a repetition has no range")?;
    for number in first.parse::<u32>()?..=last.parse::<u32>()? {
        push_plain(bytes, text, number)?;
    }
    push_plain(bytes, after, 0)
}

/// Appends what a text without repetitions stands for, if the number counts.
fn push_plain(bytes: &mut Vec<u8>, text: &str, number: u32) -> Result<()> {
    let mut parts = text.split(r"\");
    if let Some(literal) = parts.next() {
        bytes.extend_from_slice(literal.as_bytes())?;
    }
    for part in parts {
        push_escaped(bytes, part.as_bytes(), number)?;
    }
    Ok(())
}

/// Appends what follows a backslash: an escape, and what stands after it.
fn push_escaped(bytes: &mut Vec<u8>, part: &[u8], number: u32) -> Result<()> {
    let after = match part {
        [b'n', after @ ..] => pushed(bytes, b'\n', after)?,
        [b'r', after @ ..] => pushed(bytes, b'\r', after)?,
        [b't', after @ ..] => pushed(bytes, b'\t', after)?,
        [b'x', high, low, after @ ..] => pushed(bytes, byte_of(*high, *low)?, after)?,
        [b'e', after @ ..] => after,
        [b'#', after @ ..] => {
            write!(bytes, "{number}")?;
            after
        }
        [b'+', after @ ..] => {
            write!(bytes, "{}", u64::from(number) + 1)?;
            after
        }
        _ => bail!("an escape is none"),
    };
    bytes.extend_from_slice(after)?;
    Ok(())
}

/// Appends a byte, and gives what stands after its escape.
fn pushed<'a>(bytes: &mut Vec<u8>, byte: u8, after: &'a [u8]) -> Result<&'a [u8]> {
    bytes.push(byte)?;
    Ok(after)
}

/// The byte of two hexadecimal digits.
fn byte_of(high: u8, low: u8) -> Result<u8> {
    match (digit_of(high), digit_of(low)) {
        (Some(high), Some(low)) => Ok((high & 15) << 4 | low & 15),
        _ => bail!("a byte has no two digits"),
    }
}

fn digit_of(byte: u8) -> Option<u8> {
    match byte {
        b'0'..=b'9' => Some(byte - b'0'),
        b'a'..=b'f' => Some(byte - b'a' + 10),
        _ => None,
    }
}
