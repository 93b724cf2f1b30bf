//! Observers of a triangle.
ghost use Rattle.std.specs.Prelude.{◌≡◌, ◌+◌, IfOk};
ghost use Rattle.dg_rules.specs.State.{amounts_after};

use crate::table_tests::{TableTest, on_a_table};
use crate::tables::{amounts, triangle};
use dg_chips::{Divisor, Move};
use dg_log::{Log, Name};
use dg_observer::{Observer, ObserverFault, OutOfMemory, Watch};
use dg_rules::{Entry, Plain, Reply};
use dg_table::{Seat, Table};
use std::alloc::Global;
use std::cell::Cell;
use std::marker::PhantomData;
use std::process::Abort;
use std::sync::Wait;
use std::test::Fail;

// Counts entries, as docs/library.md has it.
#[derive(Clone, Copy)]
struct Entries;

impl Watch for Entries {
    ghost use Rattle.std.specs.Prelude.{◌≡◌, ◌+◌, ◌-◌, ◌^◌, min};

    type State = u64;

    ghost begins = { λ n. n ≡ 0 };

    ghost goes_on = { λ n e m. m ≡ min (n + 1) (2 ^ 64 - 1) };
}

// Counts two entries, and has no memory for a third.
#[derive(Clone, Copy)]
struct FirstTwo;

impl Watch for FirstTwo {
    ghost use Rattle.std.specs.Prelude.{◌≡◌, ◌+◌};

    type State = u64;

    ghost begins = { λ n. n ≡ 0 };

    ghost goes_on = { λ n e m. m ≡ n + 1 };
}

fn count_to_two(count: &u64, _entry: &Entry) -> Result<u64, OutOfMemory>
    ensures { IfOk result (λ next. next ≡ count.now + 1) }
{
    if *count < 2 {
        Ok(*count + 1)
    } else {
        Err(OutOfMemory)
    }
}

// Keeps a number, whichever.
#[derive(Clone, Copy)]
struct Any;

impl Watch for Any {
    ghost use Rattle.std.specs.Prelude.{⊤};

    type State = u64;

    ghost begins = { λ n. ⊤ };

    ghost goes_on = { λ n e m. ⊤ };
}

// Keeps the amounts of the table N after the entries that were read.
#[derive(Clone, Copy)]
pub(crate) struct Positions<N> {
    of: PhantomData<N>,
}

impl<N: Name> Watch for Positions<N> {
    ghost use Rattle.std.specs.Prelude.{◌≡◌};
    ghost use Rattle.dg_rules.specs.State.{amounts_after};

    type State = Divisor;

    ghost begins = { λ d. d ≡ N.table.start.divisor };

    ghost goes_on = { λ old e next. next ≡ amounts_after old e.reply };
}

// A move or a gift that was accepted shows the amounts after it, and nothing else changes them.
pub(crate) fn keep_position(position: &Divisor, entry: &Entry) -> Result<Divisor, OutOfMemory>
    ensures { IfOk result (λ next. next ≡ amounts_after position.now entry.now.reply) }
{
    match entry.reply {
        Reply::Moved(divisor) | Reply::Given(_, divisor) => Ok(divisor),
        _ => Ok(*position),
    }
}

#[test]
fn entries_are_counted(rt: HostRuntime) -> Result<(), Fail> {
    on_a_table(
        &rt,
        rt.alloc(),
        8,
        &triangle(&[0, 0, 0])?,
        2,
        TableTest::Watched,
    )
}

// Seat 1 lends a, seat 2 gives b a dollar and names a vertex that is not there.
pub(crate) fn watched<N: Name, R: Wait + Abort>(
    rt: &R,
    alloc: Global,
    table: &Table<N>,
    first: &mut Seat<N>,
    second: &mut Seat<N>,
) -> Result<(), Fail> {
    let log = table.log();
    table.call(rt, alloc, first, Plain::Move(Move::Lend(0)))?;
    table.call(rt, alloc, second, Plain::Gift(1, 1))?;
    table.call(rt, alloc, second, Plain::Move(Move::Lend(3)))?;
    counts_entries(rt, alloc, log)?;
    is_asked_once_for_each(rt, alloc, log)?;
    has_no_memory(rt, alloc, log);
    follows_the_position(rt, alloc, log, table.start().divisor())
}

fn counts_entries<N: Name>(rt: &impl Abort, alloc: Global, log: &Log<N>) -> Result<(), Fail> {
    let mut entries = Observer::<N, Entries, _>::new(alloc, 0, |count: &u64, _: &Entry| {
        Ok(count.saturating_add(1))
    });
    let read = entries.catch_up(log)?;
    assert!(rt; read == 3 && *entries.state() == 3);
    Ok(())
}

fn is_asked_once_for_each<N: Name>(
    rt: &impl Abort,
    alloc: Global,
    log: &Log<N>,
) -> Result<(), Fail> {
    let steps = Cell::new(0u64);
    let mut asked = Observer::<N, Any, _>::new(alloc, 0, |state: &u64, _: &Entry| {
        steps.set(steps.get().wrapping_add(1));
        Ok(*state)
    });
    let read = asked.catch_up(log)?;
    assert!(rt; read == 3 && steps.get() == 3);
    Ok(())
}

// If there is no memory for the third entry, what was read before stands.
fn has_no_memory<N: Name>(rt: &impl Abort, alloc: Global, log: &Log<N>) {
    let mut two = Observer::<N, FirstTwo, _>::new(
        alloc,
        0,
        |count: &u64, entry: &Entry| count_to_two(count, entry),
    );
    assert!(rt; two.catch_up(log) == Err(ObserverFault::OutOfMemory));
    assert!(rt; two.count() == 2 && *two.state() == 2);
    assert!(rt; two.catch_up(log) == Err(ObserverFault::OutOfMemory));
    assert!(rt; two.count() == 2 && *two.state() == 2);
}

fn follows_the_position<N: Name>(
    rt: &impl Abort,
    alloc: Global,
    log: &Log<N>,
    start: &Divisor,
) -> Result<(), Fail>
    requires { start.now ≡ N.table.start.divisor }
{
    let mut position = Observer::<N, Positions<N>, _>::new(
        alloc,
        *start,
        |position: &Divisor, entry: &Entry| keep_position(position, entry),
    );
    let read = position.catch_up(log)?;
    assert!(rt; read == 3);
    assert!(rt; *position.state() == amounts(&[-2, 2, 1])?);
    Ok(())
}
