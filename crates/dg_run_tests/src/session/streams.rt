//! Readers and writers that fail.

use crate::table_tests::{TableTest, on_a_table};
use crate::tables::{TRIANGLE, triangle};
use dg_chips::Start;
use dg_file::{Names, read_table};
use dg_log::Name;
use dg_session::{LineFormat, SessionEnd, cut_one_way, serve_seats};
use dg_system::{Input, Output};
use dg_table::{Seat, Table};
use std::alloc::Global;
use std::cell::Cell;
use std::io::{ErrorKind, Read, Write};
use std::process::Abort;
use std::sync::Wait;
use std::test::Fail;
use std::thread::Threads;
use std::{io, slice};

const TEXT: &[u8] = b"look\nlend a\ncommit\ncommit\nlend z\ngift a 0\nclaim\n";

const ANSWER: &[u8] =
    b"0 looked 0 a=2 b=-1 c=-1\n1 moved a=0 b=0 c=0\n2 winnable by a=0 b=0 c=0 to a=0 b=0 c=0\nbad look\nbad name\n3 refused gift\n4 won\n";

// Gives the text, so many bytes a read at most; then it fails so, or ends. Each other read is interrupted. It fails as well if
// something was written that is not flushed.
#[derive(Drop)]
pub(crate) struct Flow<'a> {
    pub(crate) text: &'a [u8],
    pub(crate) most: usize,
    pub(crate) fault: Option<ErrorKind>,
    pub(crate) is_interrupted: bool,
    pub(crate) is_held_back: Option<&'a Cell<bool>>,
}

impl<'a> Read for Flow<'a> {
    fn read(&mut self, buffer: &mut [u8]) -> io::Result<usize> {
        self.is_interrupted = !self.is_interrupted;
        if self.is_interrupted {
            return Err(io::Error::from(ErrorKind::Interrupted));
        }
        if let Some(true) = self.is_held_back.map(Cell::get) {
            return Err(io::Error::from(ErrorKind::BrokenPipe));
        }
        if let (true, Some(kind)) = (self.text.is_empty(), self.fault) {
            return Err(io::Error::from(kind));
        }
        let size = buffer.len().min(self.most).min(self.text.len());
        let (given, left) = self.text.split_at(size);
        buffer[..size].copy_from_slice(given);
        self.text = left;
        Ok(size)
    }
}

// Takes so many bytes a write, and fails if it holds so many; or takes none from there on. Each other write is
// interrupted, and the first flush after one that is not; others may fail. It notes whether something was written that is not
// flushed.
#[derive(Drop)]
pub(crate) struct Sip<'a> {
    pub(crate) held: Vec<u8>,
    pub(crate) most: usize,
    pub(crate) fails_at: usize,
    pub(crate) refuses: bool,
    pub(crate) flush_fails: bool,
    pub(crate) is_interrupted: bool,
    pub(crate) is_held_back: &'a Cell<bool>,
}

impl<'a> Write for Sip<'a> {
    fn write(&mut self, text: &[u8]) -> io::Result<usize> {
        self.is_interrupted = !self.is_interrupted;
        if self.is_interrupted {
            return Err(io::Error::from(ErrorKind::Interrupted));
        }
        if self.held.len() >= self.fails_at {
            if self.refuses {
                return Ok(0);
            }
            return Err(io::Error::from(ErrorKind::Other));
        }
        let size = text.len().min(self.most);
        self.is_held_back.set(true);
        match self.held.extend_from_slice(&text[..size]) {
            Ok(()) => Ok(size),
            Err(_) => Err(io::Error::from(ErrorKind::OutOfMemory)),
        }
    }

    fn flush(&mut self) -> io::Result<()> {
        self.is_interrupted = !self.is_interrupted;
        if self.is_interrupted {
            return Err(io::Error::from(ErrorKind::Interrupted));
        }
        if self.flush_fails {
            return Err(io::Error::from(ErrorKind::Other));
        }
        self.is_held_back.set(false);
        Ok(())
    }
}

fn new_flow<'a>(
    text: &'a [u8],
    fault: Option<ErrorKind>,
    is_held_back: &'a Cell<bool>,
) -> Flow<'a> {
    Flow {
        text,
        most: 1,
        fault,
        is_interrupted: false,
        is_held_back: Some(is_held_back),
    }
}

fn new_sip(alloc: Global, fails_at: usize, refuses: bool, is_held_back: &Cell<bool>) -> Sip<'_> {
    Sip {
        held: Vec::new(alloc),
        most: 1,
        fails_at,
        refuses,
        flush_fails: false,
        is_interrupted: false,
        is_held_back,
    }
}

// One byte a read and a write: the reader fails at each byte in turn, or ends after the last.
#[test]
fn sessions_end_where_reads_fail(rt: HostRuntime) -> Result<(), Fail> {
    cut_one_way();
    let owing = triangle(&[2, -1, -1])?;
    let mut lines = 0usize;
    for j in 0..TEXT.len() + 2 {
        ends_where_a_read_fails(&rt, rt.alloc(), &owing, j, front(lines))?;
        if TEXT.get(j) == Some(&b'\n') {
            lines = lines.wrapping_add(1);
        }
    }
    Ok(())
}

fn ends_where_a_read_fails<R: Threads + Wait + Abort + Sync>(
    rt: &R,
    alloc: Global,
    owing: &Start,
    j: usize,
    answer: &[u8],
) -> Result<(), Fail> {
    let (at, fault, end) = if j <= TEXT.len() {
        (j, Some(ErrorKind::Other), Err(SessionEnd::Read))
    } else {
        (TEXT.len(), None, Ok(7))
    };
    let is_held_back = Cell::new(false);
    let reader = new_flow(&TEXT[..at], fault, &is_held_back);
    let writer = new_sip(alloc, 1_000, false, &is_held_back);
    on_a_table(
        rt,
        alloc,
        9,
        owing,
        1,
        TableTest::Session(reader, writer, answer, end),
    )
}

// The first lines of the answer.
fn front(lines: usize) -> &'static [u8] {
    let mut left = lines;
    for (at, byte) in ANSWER.iter().enumerate() {
        if left == 0 {
            return &ANSWER[..at];
        }
        if *byte == b'\n' {
            left -= 1;
        }
    }
    ANSWER
}

// The writer fails at each byte in turn, or takes none there.
#[test]
fn sessions_end_where_writes_fail(rt: HostRuntime) -> Result<(), Fail> {
    let owing = triangle(&[2, -1, -1])?;
    for fails_at in 0..ANSWER.len() {
        ends_where_a_write_fails(&rt, rt.alloc(), &owing, fails_at, &ANSWER[..fails_at])?;
    }
    Ok(())
}

fn ends_where_a_write_fails<R: Threads + Wait + Abort + Sync>(
    rt: &R,
    alloc: Global,
    owing: &Start,
    fails_at: usize,
    answer: &[u8],
) -> Result<(), Fail> {
    let is_held_back = Cell::new(false);
    let reader = new_flow(TEXT, None, &is_held_back);
    let writer = new_sip(alloc, fails_at, fails_at % 2 == 1, &is_held_back);
    let end = Err(SessionEnd::Write);
    on_a_table(
        rt,
        alloc,
        9,
        owing,
        1,
        TableTest::Session(reader, writer, answer, end),
    )
}

// All lines come in one read. Their answers are written, and can't be flushed.
#[test]
fn a_session_ends_where_a_flush_fails(rt: HostRuntime) -> Result<(), Fail> {
    let alloc = rt.alloc();
    let is_held_back = Cell::new(false);
    let mut reader = new_flow(TEXT, None, &is_held_back);
    reader.most = TEXT.len();
    let mut writer = new_sip(alloc, 1_000, false, &is_held_back);
    writer.flush_fails = true;
    on_a_table(
        &rt,
        alloc,
        9,
        &triangle(&[2, -1, -1])?,
        1,
        TableTest::Session(reader, writer, ANSWER, Err(SessionEnd::Write)),
    )
}

// All lines come in one read, and their answers are longer than it.
#[test]
fn a_read_may_have_many_answers(rt: HostRuntime) -> Result<(), Fail> {
    let alloc = rt.alloc();
    let mut text = Vec::new(alloc);
    let mut answer = Vec::new(alloc);
    for _ in 0..4_000 {
        text.extend_from_slice(b"x\n")?;
        answer.extend_from_slice(b"bad word\n")?;
    }
    let is_held_back = Cell::new(false);
    let mut reader = new_flow(text.as_slice(), None, &is_held_back);
    reader.most = text.len();
    let writer = new_sip(alloc, usize::MAX, false, &is_held_back);
    on_a_table(
        &rt,
        alloc,
        9,
        &triangle(&[2, -1, -1])?,
        1,
        TableTest::Session(reader, writer, answer.as_slice(), Ok(4_000)),
    )
}

// The session over the reader leaves the writer with the answer, all of it flushed unless a write failed, and ends so.
pub(crate) fn serves<N: Name, R: Threads + Wait + Abort>(
    rt: &R,
    alloc: Global,
    table: &Table<N>,
    seat: &mut Seat<N>,
    reader: Flow<'_>,
    writer: Sip<'_>,
    answer: &[u8],
    end: Result<u32, SessionEnd>,
) -> Result<(), Fail> {
    let file = read_table(alloc, TRIANGLE.as_bytes())?;
    let mut writer = Output::new(writer);
    ends_so(
        rt,
        alloc,
        table,
        seat,
        file.names(),
        reader,
        &mut writer,
        end,
    );
    let writer = writer.into_inner();
    assert!(rt; writer.held.as_slice() == answer);
    assert!(rt; end == Err(SessionEnd::Write) || !writer.is_held_back.get());
    Ok(())
}

// The reader and the writer have failed if the end tells of it.
fn ends_so<N: Name, R: Threads + Wait + Abort>(
    rt: &R,
    alloc: Global,
    table: &Table<N>,
    seat: &mut Seat<N>,
    names: &Names,
    reader: Flow<'_>,
    writer: &mut Output<Sip<'_>>,
    end: Result<u32, SessionEnd>,
) {
    assert!(rt; names.len() == table.start().graph().size());
    let mut reader = Input::new(reader);
    let seats = slice::from_mut(seat);
    let how = LineFormat::OneSeat;
    let result = serve_seats(rt, alloc, table, seats, names, &mut reader, writer, 1, how);
    assert!(rt; result == end);
    assert!(rt; reader.has_failed() == (end == Err(SessionEnd::Read)));
    assert!(rt; writer.has_failed() == (end == Err(SessionEnd::Write)));
}
