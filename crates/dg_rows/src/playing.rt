//! A row that is played.

use crate::matching::is_wanted;
use crate::rows::{Named, Row};
use anyhow::Result;
use dg_run::run;
use dg_system::MemoryFiles;
use std::alloc::{AllocError, Global};
use std::rt::Files;
use std::str;
use std::sync::Wait;
use std::thread::Threads;

/// How many bytes are shown of what came.
const SHOWN: usize = 300;

/// Whether a row comes out as it says. What does not is told, with the beginning of what came.
pub(crate) fn play<'a, R>(rt: &R, name: &str, row: &'a Row, files: &'a [Named]) -> Result<bool>
where
    R: Files + AllocGlobal + Threads + Wait + Print + Sync,
{
    let shelf = files_of(rt.alloc(), row, files)?;
    let shelf = MemoryFiles {
        files: shelf.as_slice(),
    };
    let mut output = Vec::new(rt.alloc());
    let mut faults = Vec::new(rt.alloc());
    let words = row.words.as_slice();
    let status = run(
        rt,
        words,
        &shelf,
        row.input.as_slice(),
        &mut output,
        &mut faults,
    );
    let has_output = is_told(rt, name, row, &row.output, &output)?;
    let has_fault = is_told(rt, name, row, &row.fault, &faults)?;
    if status != row.status {
        println!(rt; "{name}:{}: the status is {status}", row.line)?;
    }
    Ok(has_output && has_fault && status == row.status)
}

/// The files that a row may name: those told before, and its input.
fn files_of<'a>(
    alloc: Global,
    row: &'a Row,
    files: &'a [Named],
) -> Result<Vec<(&'a str, &'a [u8])>, AllocError> {
    let mut all = Vec::new(alloc);
    all.push(("/dev/stdin", row.input.as_slice()))?;
    for file in files {
        all.push((file.name.as_str(), file.bytes.as_slice()))?;
    }
    Ok(all)
}

/// Whether the bytes are those that the row wants; else the first of them are told.
fn is_told(rt: &impl Print, name: &str, row: &Row, wanted: &[u8], bytes: &[u8]) -> Result<bool> {
    if is_wanted(wanted, bytes) {
        return Ok(true);
    }
    let shown = bytes.get(..SHOWN).unwrap_or(bytes);
    let text = str::from_utf8(shown).unwrap_or("bytes that are no text");
    println!(rt; "{name}:{}: came {text:?}", row.line)?;
    Ok(false)
}
