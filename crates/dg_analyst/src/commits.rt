//! Entering what was computed on a look.
ghost use Rattle.std.specs.Prelude.{◌≡◌, length, IfOk, IfErr, MatchOption};
ghost use Rattle.dg_verdict.specs.declared.verdict.Verdict.{Verdict as VerdictData};
ghost use Rattle.dg_analyst.specs.Commits.{IsReckoned, IsCommitted, IsRankCommitted, RefusesCommit};
ghost use Rattle.dg_analyst.specs.Views.{LookWithFinding};
ghost use Rattle.dg_table.specs.Settled.{IsStale, IsNotStale};

use crate::looks::Look;
use crate::reckoning::{Reckoned, Tried};
use dg_log::{Name, Receipt};
use dg_reduce::InverseLaplacian;
use dg_rules::{Finding, Question, renew_inverse};
use dg_table::{Fault, Seat, Table};
use dg_verdict::judge_with_inverse;
use std::alloc::Global;
use std::sync::Wait;

/// Enters a verdict that was computed on a look: as stale just if gifts, levies or joins were accepted since the look;
/// otherwise as a verdict that is right for the position at its place in the one history, with the reduced divisor and the
/// burning order that were found. The seat is told of the look, and need not be the one that looked.
///
/// It waits for the lock. Refused with `OutOfMemory`, before it waits; with `Full`; and with `Log`, also if the history has
/// no entry of the look's number. What was computed comes back, the seat knows what it knew, and there is no entry.
pub fn commit<N: Name>(
    table: &Table<N>,
    rt: &impl Wait,
    alloc: Global,
    seat: &mut Seat<N>,
    reckoned: Reckoned<N>,
) -> Result<Receipt<N>, (Reckoned<N>, Fault)>
    ensures settled { IfOk result
        (λ r. IsCommitted N.table reckoned r seat.old seat.new) }
    ensures fault { IfErr result
        (λ e. (e.0 ≡ reckoned) × RefusesCommit N.table seat.old seat.new e.1) }
{
    let finding = Finding::Judged(reckoned.verdict);
    let look = &reckoned.look;
    match table.settle(rt, alloc, seat, &look.receipt, &look.shown, &finding) {
        Ok(receipt) => Ok(receipt),
        Err(fault) => Err((reckoned, fault)),
    }
}

/// Enters a question on a look as stale, as `commit` and `commit_rank` enter what was computed for it, if gifts, levies or joins
/// were accepted since the look; so nothing need be computed on a look that is stale. `None` if none was in the history that it
/// finds, which the seat has met then; that is no event: no cell is set, and the seat knows what it knew. The look stays the
/// caller's; the seat is told of it if there is an entry, and need not be the one that looked.
///
/// It waits for the lock. Refused as `commit`, also if the look is not stale; then the seat knows what it knew, and there is no
/// entry.
pub fn commit_stale<N: Name>(
    table: &Table<N>,
    rt: &impl Wait,
    alloc: Global,
    seat: &mut Seat<N>,
    look: &Look<N>,
    asks: &Question,
) -> Result<Option<Receipt<N>>, Fault>
    ensures settled { IfOk result (λ found. MatchOption found
        (IsNotStale N.table look.now.receipt seat.old seat.new)
        (λ r. IsStale N.table look.now.receipt asks.now r seat.old seat.new)) }
    ensures fault { IfErr result (RefusesCommit N.table seat.old seat.new) }
{
    table.settle_stale(rt, alloc, seat, &look.receipt, &look.shown, asks)
}

/// Computes the verdict on a look and enters it, as `reckon` and `commit` do one after the other. The inverse is first made
/// anew unless it may serve; no verdict depends on it. The look stays the caller's.
///
/// It waits and is refused as `commit`; then the seat knows what it knew, and there is no entry.
pub fn commit_look<N: Name>(
    table: &Table<N>,
    rt: &impl Wait,
    alloc: Global,
    seat: &mut Seat<N>,
    look: &Look<N>,
    inverse: &mut InverseLaplacian,
) -> Result<Receipt<N>, Fault>
    ensures settled { (found : LookWithFinding VerdictData) × IsReckoned N.table.start.q look.now found ×
        IfOk result (λ r. IsCommitted N.table found r seat.old seat.new) }
    ensures fault { IfErr result (RefusesCommit N.table seat.old seat.new) }
{
    let shown = &look.shown;
    let q = look.q;
    renew_inverse(inverse, q, shown);
    let verdict = judge_with_inverse(&shown.graph, Some(inverse), q, &shown.position);
    let finding = Finding::Judged(verdict);
    table.settle(rt, alloc, seat, &look.receipt, shown, &finding)
}

/// Enters the answer of a rank test on a look: as stale just if gifts, levies or joins were accepted since the look;
/// otherwise as it was found, and it is right for the position at its place in the one history. The seat is told of the
/// look, and need not be the one that looked.
///
/// It waits and is refused as `commit`. What was tried comes back, the seat knows what it knew, and there is no entry.
pub fn commit_rank<N: Name>(
    table: &Table<N>,
    rt: &impl Wait,
    alloc: Global,
    seat: &mut Seat<N>,
    tried: Tried<N>,
) -> Result<Receipt<N>, (Tried<N>, Fault)>
    ensures settled { IfOk result
        (λ r. IsRankCommitted N.table tried r seat.old seat.new) }
    ensures fault { IfErr result
        (λ e. (e.0 ≡ tried) × RefusesCommit N.table seat.old seat.new e.1) }
{
    let finding = Finding::Ranked(tried.verdict);
    let look = &tried.look;
    match table.settle(rt, alloc, seat, &look.receipt, &look.shown, &finding) {
        Ok(receipt) => Ok(receipt),
        Err(fault) => Err((tried, fault)),
    }
}
