//! Rows, and how a line tells one.

use crate::escapes::push_text;
use anyhow::{Context, Result, bail};
use std::alloc::Global;
use std::str;

/// A file in memory.
#[derive(Drop)]
pub(crate) struct Named {
    /// What the words call it.
    pub(crate) name: String,
    /// What it holds.
    pub(crate) bytes: Vec<u8>,
}

/// A row: the words of a command line, and what has to come of them.
#[derive(Drop)]
pub(crate) struct Row {
    /// The number of its first line in its file.
    pub(crate) line: usize,
    /// Whether it is for the built program alone.
    pub(crate) is_left_out: bool,
    /// The words, of which the first is the program's name.
    pub(crate) words: Vec<String>,
    /// The standard input, which is the file `/dev/stdin` too.
    pub(crate) input: Vec<u8>,
    /// What has to be printed.
    pub(crate) output: Vec<u8>,
    /// What has to be said of a fault.
    pub(crate) fault: Vec<u8>,
    /// The exit status.
    pub(crate) status: u8,
}

/// Appends the files that lines `file NAME | TEXT` tell.
pub(crate) fn read_files(files: &mut Vec<Named>, text: &str) -> Result<()> {
    for line in text.lines() {
        if let Some(told) = line.strip_prefix("file ") {
            files.push(read_file(*files.allocator(), told).context(line)?)?;
        }
    }
    Ok(())
}

/// The file that `NAME | TEXT` tells.
fn read_file(alloc: Global, told: &str) -> Result<Named> {
    let (name, text) = told.split_once(" | ").context("a file has no text")?;
    let mut bytes = Vec::new(alloc);
    push_text(&mut bytes, text)?;
    Ok(Named {
        name: String::from_str(alloc, name)?,
        bytes,
    })
}

/// The rows of a file.
pub(crate) fn read_rows(alloc: Global, text: &str) -> Result<Vec<Row>> {
    let mut rows: Vec<Row> = Vec::new(alloc);
    for (line, number) in text.lines().zip(1..usize::MAX) {
        if line.is_empty() || line.starts_with("#") || line.starts_with("file ") {
            continue;
        }
        if is_further(line) {
            let row = rows.last_mut().context("a line goes on with no row")?;
            add_line(row, line).context(line)?;
        } else {
            rows.push(read_row(alloc, number, line).context(line)?)?;
        }
    }
    Ok(rows)
}

/// The row whose first line this is: `WORDS | INPUT | OUTPUT | FAULT | STATUS`, as far as it goes. Of a row that begins with
/// a star, which is for the built program alone, nothing more is read.
fn read_row(alloc: Global, number: usize, line: &str) -> Result<Row> {
    let is_left_out = line.starts_with("*");
    let mut fields = if is_left_out { "" } else { line }.split("|");
    Ok(Row {
        line: number,
        is_left_out,
        words: words_of(alloc, fields.next().unwrap_or("").trim())?,
        input: bytes_of(alloc, fields.next())?,
        output: bytes_of(alloc, fields.next())?,
        fault: bytes_of(alloc, fields.next())?,
        status: status_of(fields.next().unwrap_or("0"))?,
    })
}

/// The words of a command line, after the program's name. They are cut at each single space.
fn words_of(alloc: Global, field: &str) -> Result<Vec<String>> {
    let mut bytes = Vec::new(alloc);
    push_text(&mut bytes, field)?;
    let mut words = Vec::new(alloc);
    words.push(String::from_str(alloc, "dollar")?)?;
    if field.is_empty() {
        return Ok(words);
    }
    for word in str::from_utf8(bytes.as_slice())?.split(" ") {
        words.push(String::from_str(alloc, word)?)?;
    }
    Ok(words)
}

/// What a field stands for; the spaces around it count for nothing.
fn bytes_of(alloc: Global, field: Option<&str>) -> Result<Vec<u8>> {
    let mut bytes = Vec::new(alloc);
    push_text(&mut bytes, field.unwrap_or("").trim())?;
    Ok(bytes)
}

/// The exit status that a field tells.
fn status_of(field: &str) -> Result<u8> {
    Ok(field.trim().parse::<u8>()?)
}

/// Whether a line goes on with the row before it.
fn is_further(line: &str) -> bool {
    matches!(line.as_bytes(), [b'<' | b'>' | b'!' | b'=', ..])
}

/// Adds what a further line of a row tells: `< LINE` of the input, `> LINE` of the output, `! LINE` of the fault, or
/// `= STATUS`.
fn add_line(row: &mut Row, line: &str) -> Result<()> {
    if row.is_left_out {
        return Ok(());
    }
    let (mark, text) = line.split_once(" ").unwrap_or((line, ""));
    match mark {
        "<" => push_line(&mut row.input, text),
        ">" => push_line(&mut row.output, text),
        "!" => push_line(&mut row.fault, text),
        "=" => {
            row.status = status_of(text)?;
            Ok(())
        }
        _ => bail!("a line goes on with no part of a row"),
    }
}

/// Appends a line, and the newline at its end.
fn push_line(bytes: &mut Vec<u8>, text: &str) -> Result<()> {
    push_text(bytes, text)?;
    bytes.push(b'\n')?;
    Ok(())
}
