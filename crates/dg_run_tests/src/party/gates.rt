//! Sessions that enter a gate before their first lines.

use crate::gates::Early;
use crate::party::meetings::scripts_of;
use crate::table_tests::{TableTest, on_a_table};
use crate::tables::{TRIANGLE, triangle};
use dg_file::{Names, read_table};
use dg_log::Name;
use dg_rank::Gate;
use dg_session::sessions;
use dg_table::{Seat, Table};
use std::alloc::Global;
use std::process::Abort;
use std::sync::Wait;
use std::sync::atomic::{AtomicBool, AtomicU64, Ordering};
use std::test::Fail;
use std::thread::Threads;

#[test]
fn sessions_enter_before_their_first_lines(rt: HostRuntime) -> Result<(), Fail> {
    on_a_table(
        &rt,
        rt.alloc(),
        4,
        &triangle(&[2, -1, -1])?,
        3,
        TableTest::Gate,
    )
}

// Each of three seats enters once, with its own number, and has no entry then.
pub(crate) fn enter_first<N: Name + Send + Sync, R: Threads + Wait + Abort + Sync>(
    rt: &R,
    alloc: Global,
    table: &Table<N>,
    seats: &mut [Seat<N>],
) -> Result<(), Fail> {
    let gate = Early {
        log: table.log(),
        counts: AtomicU64::new(0),
        is_late: AtomicBool::new(false),
    };
    go_in(rt, alloc, table, seats, &gate)?;
    assert!(rt; gate.counts.load(Ordering::SeqCst) == 0x1110);
    assert!(rt; !gate.is_late.load(Ordering::SeqCst));
    Ok(())
}

// Three sessions enter the gate, and each ends after its own text.
fn go_in<N: Name + Send + Sync, R: Threads + Wait + Abort + Sync, G: Gate>(
    rt: &R,
    alloc: Global,
    table: &Table<N>,
    seats: &mut [Seat<N>],
    gate: &G,
) -> Result<(), Fail> {
    let file = read_table(alloc, TRIANGLE.as_bytes())?;
    let scripts = scripts_of(alloc, &["lend a\n", "look\ncommit\n", "claim"])?;
    end_well(rt, alloc, table, seats, file.names(), &scripts, gate)
}

fn end_well<N: Name + Send + Sync, R: Threads + Wait + Abort + Sync, G: Gate>(
    rt: &R,
    alloc: Global,
    table: &Table<N>,
    seats: &mut [Seat<N>],
    names: &Names,
    scripts: &[Vec<u8>],
    gate: &G,
) -> Result<(), Fail> {
    if names.len() != table.start().graph().size() || scripts.len() != seats.len() {
        return Err(Fail::from("another table"));
    }
    let ends = sessions(rt, alloc, table, seats, names, scripts, gate)
        .ok()
        .ok_or("sessions")?;
    assert!(rt; ends.as_slice() == [Ok(1), Ok(2), Ok(1)].as_slice());
    Ok(())
}
