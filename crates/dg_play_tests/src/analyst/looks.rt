//! Calls on looks that save time.

use crate::table_tests::{TableTest, on_a_table};
use crate::tables::triangle;
use dg_analyst::{Look, commit, commit_look, commit_stale, look, reckon};
use dg_log::Name;
use dg_rules::{Plain, Question, Reply, Request};
use dg_table::{Seat, Table};
use std::alloc::Global;
use std::process::Abort;
use std::sync::Wait;
use std::test::Fail;

#[test]
fn findings_are_entered_in_less_time(rt: HostRuntime) -> Result<(), Fail> {
    let owing = triangle(&[2, -1, -1])?;
    on_a_table(&rt, rt.alloc(), 6, &owing, 2, TableTest::Looks)
}

// The second seat enters verdicts on looks of the first, by an inverse that is at hand.
pub(crate) fn enters_in_less_time<N: Name, R: Wait + Abort>(
    rt: &R,
    alloc: Global,
    table: &Table<N>,
    first: &mut Seat<N>,
    second: &mut Seat<N>,
) -> Result<(), Fail> {
    let taken = look(table, rt, alloc, first)?;
    let reckoned = reckon(taken);
    let receipt = commit(table, rt, alloc, second, reckoned)
        .ok()
        .ok_or("an entry")?;
    assert!(rt; receipt.number() == 1 && is_won(&table.log().entry(&receipt).reply));
    let taken = look(table, rt, alloc, first)?;
    let mut inverse = *table.inverse();
    let receipt = commit_look(table, rt, alloc, second, &taken, &mut inverse)?;
    assert!(rt; receipt.number() == 3 && is_won(&table.log().entry(&receipt).reply));
    asks_on_a_stale_look(rt, alloc, table, &taken, first, second)
}

// Whether it tells of a verdict by which the position can be won.
fn is_won(reply: &Reply) -> bool {
    match reply {
        Reply::Verdict(verdict) => verdict.winnable,
        _ => false,
    }
}

// A question on the third entry is entered as stale after a join, and not before, when the seat meets the history all the
// same.
fn asks_on_a_stale_look<N: Name, R: Wait + Abort>(
    rt: &R,
    alloc: Global,
    table: &Table<N>,
    taken: &Look<N>,
    first: &mut Seat<N>,
    second: &mut Seat<N>,
) -> Result<(), Fail> {
    let early = commit_stale(table, rt, alloc, first, taken, &Question::Judge)?;
    assert!(rt; early.is_none() && first.calls() == 2 && first.met().len() == 4);
    table.call(rt, alloc, second, Plain::Join(0, 1))?;
    let found = commit_stale(table, rt, alloc, second, taken, &Question::Rank(2))?;
    let receipt = found.ok_or("an entry")?;
    let entry = table.log().entry(&receipt);
    assert!(rt; receipt.number() == 5 && second.calls() == 4);
    assert!(rt; entry.request == Request::Rank(2, 2) && entry.reply == Reply::Stale(1));
    Ok(())
}
