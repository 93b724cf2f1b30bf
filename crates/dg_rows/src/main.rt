//! The program `dg_rows`: plays the rows of all files in the folder where it is run, as the program `dollar` would, but over
//! files in memory. It names each row that comes out otherwise than its file says, and ends with the number of rows.
//! tests/rows/README.md has the form of a row.
#![tactic(auto)]

mod escapes;
mod matching;
mod playing;
mod rows;

use crate::playing::play;
use crate::rows::{read_files, read_rows};
use anyhow::{Context, Result};
use std::fs;
use std::rt::Files;
use std::sync::Wait;
use std::thread::Threads;

/// The file whose files all rows may name.
const SHARED: &str = "files.txt";

/// How many rows there were.
#[derive(Clone, Copy, Default)]
struct Counts {
    /// Those that were played.
    played: u64,
    /// Those of them that came out otherwise than they say.
    different: u64,
    /// Those that are for the built program alone.
    left_out: u64,
}

fn main(rt: HostRuntime) -> Result<()> {
    let counts = play_all(&rt)?;
    println!(rt;
        "{} rows played, {} differ, {} left out",
        counts.played, counts.different, counts.left_out
    )?;
    Ok(())
}

/// Plays the rows of each file in the folder.
fn play_all<R>(rt: &R) -> Result<Counts>
where
    R: Files + AllocGlobal + Threads + Wait + Print + Sync + Clone + Drop,
{
    let shared = fs::read_to_string(rt, SHARED).context(SHARED)?;
    let mut counts = Counts::default();
    for entry in fs::read_dir(rt, ".")? {
        let entry = entry?;
        let name = entry.file_name();
        if name.ends_with(".txt") {
            play_file(rt, name, shared.as_str(), &mut counts).context(name)?;
        }
    }
    Ok(counts)
}

/// Plays the rows of a file, whose words may name the files that it tells itself, and those that the shared file tells.
fn play_file<R>(rt: &R, name: &str, shared: &str, counts: &mut Counts) -> Result<()>
where
    R: Files + AllocGlobal + Threads + Wait + Print + Sync,
{
    let text = fs::read_to_string(rt, name)?;
    let mut files = Vec::new(rt.alloc());
    read_files(&mut files, shared)?;
    read_files(&mut files, text.as_str())?;
    for row in &read_rows(rt.alloc(), text.as_str())? {
        if row.is_left_out {
            counts.left_out = counts.left_out.wrapping_add(1);
            continue;
        }
        counts.played = counts.played.wrapping_add(1);
        if !play(rt, name, row, files.as_slice())? {
            counts.different = counts.different.wrapping_add(1);
        }
    }
    Ok(())
}
