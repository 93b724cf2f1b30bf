//! Trials and rank tests.

use crate::gates::Meeting;
use crate::tables::triangle;
use dg_chips::Divisor;
use dg_rank::{Gate, OpenGate, RankFault, RankVerdict, rank_at_least, rank_with, trial, trials};
use std::sync::atomic::Ordering;
use std::test::Fail;

// Sizes, degrees, and how many trials there are.
static COUNTS: [(usize, u32, Option<u32>); 8] = [
    (16, 7, Some(170_544)),
    (16, 8, None),
    (3, 630, Some(199_396)),
    (3, 631, None),
    (1, 1_001, None),
    (0, 0, None),
    (17, 0, None),
    (1, 0, Some(1)),
];

#[test]
fn how_many_trials(rt: HostRuntime) {
    for (n, k, count) in &COUNTS {
        assert!(rt; trials(*n, *k) == *count, "degree {k} on {n}");
    }
}

#[test]
fn which_trials(rt: HostRuntime) {
    assert!(rt; trials(3, 2) == Some(6));
    assert!(rt; trial(3, 2, 0) == Divisor::sized(&[0, 0, 2]));
    assert!(rt; trial(3, 2, 1) == Divisor::sized(&[0, 1, 1]));
    assert!(rt; trial(3, 2, 2) == Divisor::sized(&[0, 2, 0]));
    assert!(rt; trial(3, 2, 3) == Divisor::sized(&[1, 0, 1]));
    assert!(rt; trial(3, 2, 4) == Divisor::sized(&[1, 1, 0]));
    assert!(rt; trial(3, 2, 5) == Divisor::sized(&[2, 0, 0]));
    assert!(rt; trials(1, 1_000) == Some(1) && trials(2, 1_000) == Some(1_001));
    assert!(rt; trial(1, 1_000, 0) == Divisor::sized(&[1_000]));
    assert!(rt; trial(2, 1_000, 1_000) == Divisor::sized(&[1_000, 0]));
    assert!(rt; trials(16, 0) == Some(1) && trial(16, 0, 0) == Divisor::sized(&[0; 16]));
}

// On the triangle with a dollar at a, one can be lost at b or at c only by going into debt.
#[test]
fn what_may_be_lost(rt: HostRuntime) -> Result<(), Fail> {
    let start = triangle(&[1, 0, 0])?;
    let (graph, q, divisor) = (start.graph(), start.q(), start.divisor());
    let below = Ok(RankVerdict::Below(1, Divisor::sized(&[0, 0, 1])));
    assert!(rt; rank_at_least(graph, q, divisor, 0) == Ok(RankVerdict::AtLeast(0)));
    assert!(rt; rank_at_least(graph, q, divisor, 1) == below);
    assert!(rt; rank_at_least(graph, q, divisor, 631) == Err(RankFault::TooMany));
    OpenGate.enter(0);
    assert!(rt; rank_with(&rt, graph, q, divisor, 1, 3, &OpenGate) == below);
    let meeting = Meeting::of_two(&rt);
    assert!(rt; rank_with(&rt, graph, q, divisor, 1, 2, &meeting) == below);
    assert!(rt; meeting.has_met());
    Ok(())
}

// Degrees and numbers of workers, and why there is no such test. Nobody enters the gate then.
static NO_TESTS: [(u32, u32, RankFault); 3] = [
    (1, 0, RankFault::Workers),
    (1, 17, RankFault::Workers),
    (631, 17, RankFault::TooMany),
];

#[test]
fn what_is_not_tried(rt: HostRuntime) -> Result<(), Fail> {
    let start = triangle(&[1, 0, 0])?;
    let (graph, q, divisor) = (start.graph(), start.q(), start.divisor());
    let meeting = Meeting::of_two(&rt);
    for (degree, workers, fault) in &NO_TESTS {
        let tried = rank_with(&rt, graph, q, divisor, *degree, *workers, &meeting);
        assert!(rt; tried == Err(*fault), "{fault}");
    }
    assert!(rt; meeting.entered.load(Ordering::SeqCst) == 0);
    Ok(())
}
