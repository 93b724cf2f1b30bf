//! Which files a run reads, and in which order.

use crate::tables::TRIANGLE;
use dg_run::run;
use dg_system::{MemoryFiles, SourceFault, Sources, Stream};
use std::alloc::Global;
use std::cell::Cell;
use std::process::Abort;
use std::rt::Files;
use std::sync::Wait;
use std::test::Fail;
use std::thread::Threads;

// Files whose names are digits, and the names of those that were asked for, as a number: the last one stands last.
#[derive(Drop)]
struct Noted<'a> {
    files: MemoryFiles<'a>,
    asked: Cell<u64>,
}

impl Noted<'_> {
    fn note(&self, name: &str) {
        if let Some(digit) = name.as_bytes().first() {
            let before = self.asked.get().wrapping_mul(10);
            self.asked
                .set(before.wrapping_add(u64::from(*digit)).wrapping_sub(48));
        }
    }
}

impl Sources for Noted<'_> {
    ghost use Rattle.std.specs.Prelude.{map};
    ghost use Rattle.dg_system.specs.Held.{held_among};

    ghost held = { λ noted. held_among (map (λ file. (file.0.now, file.1.now)) noted.files.files.now) };

    fn bytes<R: Files + AllocGlobal>(&self, rt: &R, name: &str) -> Result<Vec<u8>, SourceFault> {
        self.note(name);
        self.files.bytes(rt, name)
    }

    fn open<'s, R: Files>(
        &'s self,
        rt: &R,
        name: &str,
    ) -> Result<Stream<'s, R::File>, SourceFault> {
        self.note(name);
        self.files.open(rt, name)
    }
}

// Two tables, the second of which is refused, steps, a script, amounts, and lines that are tables.
static FILES: [(&str, &str); 6] = [
    ("1", TRIANGLE),
    ("2", "{}"),
    ("3", "1 lend a\n"),
    ("4", "claim\n"),
    ("5", "0 0 0\n"),
    ("6", "x\n"),
];

// The words after the program's name, and the files that are asked for. There is no file 9.
static RUNS: [(&[&str], u64); 17] = [
    (&["judge", "1"], 1),
    (&["rank", "1", "1"], 1),
    (&["rank", "1", "1", "--workers", "2"], 1),
    (&["rr", "1"], 1),
    (&["greedy", "1", "3"], 1),
    (&["rehearse", "1", "3"], 13),
    (&["rehearse", "2", "3"], 2),
    (&["rehearse", "9", "3"], 9),
    (&["serve", "1"], 1),
    (&["serve", "1", "--seats", "2"], 1),
    (&["judge", "--lines", "6"], 6),
    (&["judge", "1", "--divisors", "5"], 15),
    (&["judge", "2", "--divisors", "5"], 2),
    (&["party", "1", "4"], 14),
    (&["party", "2", "4", "4"], 244),
    (&["party", "1", "4", "9", "4"], 149),
    (&["party", "9", "4"], 9),
];

#[test]
fn files_are_read_once_and_in_order(rt: HostRuntime) -> Result<(), Fail> {
    for (words, asked) in &RUNS {
        reads(&rt, rt.alloc(), words, *asked)?;
    }
    // A party of more scripts than there are seats reads none.
    let mut many = ["4"; 67];
    many[0] = "party";
    many[1] = "1";
    reads(&rt, rt.alloc(), &many, 0)
}

// Whether a run of these words asks for just these files.
fn reads<R>(rt: &R, alloc: Global, words: &[&str], asked: u64) -> Result<(), Fail>
where
    R: Files + AllocGlobal + Threads + Wait + Abort + Sync,
{
    let files = FILES.map(|(name, text)| (name, text.as_bytes()));
    let sources = Noted {
        files: MemoryFiles { files: &files },
        asked: Cell::new(0),
    };
    let mut all = Vec::new(alloc);
    all.push(String::from_str(alloc, "dollar")?)?;
    for word in words {
        all.push(String::from_str(alloc, word)?)?;
    }
    let (mut output, mut faults) = (Vec::new(alloc), Vec::new(alloc));
    run(rt, &all, &sources, b"".as_slice(), &mut output, &mut faults);
    assert!(rt; sources.asked.get() == asked, "{words:?}");
    Ok(())
}
