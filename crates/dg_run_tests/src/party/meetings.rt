//! Sessions that go on at once.

use crate::tables::TRIANGLE;
use dg_chips::Start;
use dg_file::{Names, read_table};
use dg_rank::Gate;
use dg_session::{PartyOutcome, SessionEnd, party};
use std::alloc::{AllocError, Global};
use std::process::Abort;
use std::sync::Wait;
use std::sync::atomic::{AtomicBool, AtomicU64, Ordering};
use std::test::Fail;
use std::thread;
use std::thread::Threads;
use std::time::{Clock, Duration};

// A gate that holds each seat until all have entered, but for no more than a million turns.
#[derive(Drop)]
struct Meeting<'a, R> {
    rt: &'a R,
    seats: u64,
    entered: AtomicU64,
    numbers: AtomicU64,
    has_missed: AtomicBool,
}

impl<'a, R: Clock + Sync> Gate for Meeting<'a, R> {
    fn enter(&self, piece: u32) {
        self.numbers.fetch_add(u64::from(piece), Ordering::SeqCst);
        self.entered.fetch_add(1, Ordering::SeqCst);
        for _ in 0..1_000_000 {
            if self.entered.load(Ordering::SeqCst) >= self.seats {
                return;
            }
            thread::sleep(self.rt, Duration::from_micros(10));
        }
        self.has_missed.store(true, Ordering::SeqCst);
    }
}

const SCRIPT: &str = "lend a\nnothing\nlook\ngift b 1\ncommit\ncommit\nborrow a\n";

// Scripts, how each session ends, and the sum of their seats' numbers. What is printed of such parties rows show.
type Row = (
    &'static [&'static str],
    &'static [Result<u32, SessionEnd>],
    u64,
);

static ROWS: [Row; 3] = [
    (&["lend a\n", "borrow a\n"], &[Ok(1), Ok(1)], 3),
    (&[SCRIPT; 8], &[Ok(7); 8], 36),
    (&["bad", "", ""], &[Ok(1), Ok(0), Ok(0)], 6),
];

#[test]
fn sessions_go_on_at_once(rt: HostRuntime) -> Result<(), Fail> {
    for row in &ROWS {
        go_on(&rt, rt.alloc(), row)?;
    }
    Ok(())
}

fn go_on<R: Threads + Wait + Clock + Abort + Sync>(
    rt: &R,
    alloc: Global,
    row: &Row,
) -> Result<(), Fail> {
    let (texts, ends, numbers) = *row;
    let meeting = Meeting {
        rt,
        seats: texts.len() as u64,
        entered: AtomicU64::new(0),
        numbers: AtomicU64::new(0),
        has_missed: AtomicBool::new(false),
    };
    let found = played(rt, alloc, texts, &meeting)?;
    has_let_all_in(rt, &meeting, numbers);
    assert!(rt; found.ends.as_slice() == ends);
    Ok(())
}

fn has_let_all_in<R: Abort>(rt: &R, meeting: &Meeting<'_, R>, numbers: u64) {
    assert!(rt; !meeting.has_missed.load(Ordering::SeqCst));
    assert!(rt; meeting.entered.load(Ordering::SeqCst) == meeting.seats);
    assert!(rt; meeting.numbers.load(Ordering::SeqCst) == numbers);
}

// A party on the triangle, of a session over each of the texts.
fn played<R: Threads + Wait + Sync, G: Gate>(
    rt: &R,
    alloc: Global,
    texts: &[&str],
    gate: &G,
) -> Result<PartyOutcome, Fail> {
    let file = read_table(alloc, TRIANGLE.as_bytes())?;
    let scripts = scripts_of(alloc, texts)?;
    played_from(rt, alloc, file.start(), file.names(), &scripts, gate)
}

fn played_from<R: Threads + Wait + Sync, G: Gate>(
    rt: &R,
    alloc: Global,
    start: &Start,
    names: &Names,
    scripts: &[Vec<u8>],
    gate: &G,
) -> Result<PartyOutcome, Fail> {
    if names.len() != start.graph().size() || scripts.is_empty() || scripts.len() > 64 {
        return Err(Fail::new("a table file and 1 to 64 scripts"));
    }
    Ok(party(rt, alloc, 100, start, names, scripts, gate)?)
}

// The bytes of the texts.
pub(super) fn scripts_of(alloc: Global, texts: &[&str]) -> Result<Vec<Vec<u8>>, AllocError> {
    let mut scripts = Vec::new(alloc);
    for text in texts {
        scripts.push(Vec::from_slice(alloc, text.as_bytes())?)?;
    }
    Ok(scripts)
}
