//! Whether a text is the one that is wanted.

use std::str;

/// Whether a text is the one that is wanted, if a line `..` stands for any lines, up to the first that is like the line after
/// it.
pub(crate) fn is_wanted(wanted: &[u8], text: &[u8]) -> bool {
    if wanted == text {
        return true;
    }
    match (str::from_utf8(wanted), str::from_utf8(text)) {
        (Ok(wanted), Ok(text)) => has_lines(wanted, text),
        _ => false,
    }
}

/// Whether a text has the lines that are wanted, some of which are `..`.
fn has_lines(wanted: &str, text: &str) -> bool {
    let mut lines = text.lines();
    let mut is_open = false;
    let mut has_gaps = false;
    for line in wanted.lines() {
        if line == ".." {
            is_open = true;
            has_gaps = true;
            continue;
        }
        let is_there = if is_open {
            lines.any(|found| found == line)
        } else {
            lines.next() == Some(line)
        };
        if !is_there {
            return false;
        }
        is_open = false;
    }
    has_gaps && (is_open || lines.next().is_none())
}
