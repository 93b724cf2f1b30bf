//! Rank tests in pieces, each in a thread of its own.
ghost use Rattle.std.specs.Prelude.{◌<◌};

use crate::edges::{FOUR, PAIR, SQUARE, TRIANGLE};
use dg_chips::Divisor;
use dg_graph::Graph;
use dg_rank::{Gate, OpenGate, RankFault, rank_at_least, rank_with};
use dg_verdict::RankVerdict;
use std::process::Abort;
use std::sync::Wait;
use std::sync::atomic::{AtomicBool, AtomicU64, Ordering};
use std::test::Fail;
use std::thread;
use std::thread::Threads;
use std::time::{Clock, Duration};

// A gate that holds each piece until all have entered, but for no more than a million turns; then the first goes on last.
// Four bits for each piece count how often it entered.
#[derive(Drop)]
struct Meeting<'a, R> {
    rt: &'a R,
    pieces: u64,
    entered: AtomicU64,
    counts: AtomicU64,
    has_missed: AtomicBool,
}

impl<'a, R: Clock + Sync> Gate for Meeting<'a, R> {
    fn enter(&self, piece: u32) {
        if piece < 16 {
            self.counts.fetch_add(1 << (4 * piece), Ordering::SeqCst);
        }
        self.entered.fetch_add(1, Ordering::SeqCst);
        for _ in 0..1_000_000 {
            if self.entered.load(Ordering::SeqCst) >= self.pieces {
                if piece == 0 {
                    thread::sleep(self.rt, Duration::from_millis(5));
                }
                return;
            }
            thread::sleep(self.rt, Duration::from_micros(10));
        }
        self.has_missed.store(true, Ordering::SeqCst);
    }
}

// What a rank test answers if as many pieces meet at the gate as there are workers, if each enters it once and none
// waits in vain.
fn meets<R: Threads + Wait + Clock + Sync>(
    rt: &R,
    graph: &Graph,
    amounts: &[i64],
    degree: u32,
    workers: u32,
) -> Result<RankVerdict, Fail>
    requires { 0 < graph.now.size }
{
    let meeting = Meeting {
        rt,
        pieces: u64::from(workers),
        entered: AtomicU64::new(0),
        counts: AtomicU64::new(0),
        has_missed: AtomicBool::new(false),
    };
    let divisor = Divisor::new(graph, amounts)?;
    let found = rank_with(rt, graph, 0, &divisor, degree, workers, &meeting)?;
    if meeting.counts.load(Ordering::SeqCst) != each_once(workers) {
        return Err(Fail::new("each piece enters the gate once"));
    }
    if meeting.has_missed.load(Ordering::SeqCst) {
        return Err(Fail::new("the pieces meet"));
    }
    Ok(found)
}

// The counts of so many pieces that entered once.
fn each_once(workers: u32) -> u64 {
    let mut counts = 0;
    for piece in 0..workers.min(16) {
        counts |= 1u64 << (4 * piece);
    }
    counts
}

/// Edges, amounts on their vertices, a degree, and the first loss; no loss if the rank is at least the degree.
type FirstLoss = (&'static [(u8, u8, u8)], &'static [i64], u32, &'static [i64]);

// By hand: on the triangle a divisor of degree 0 is winnable if the amounts of the last two vertices agree but for a
// multiple of 3, and all are won with a degree of at least 1. On the complete graph of four the canonical divisor has the
// rank 3 - 1.
static FIRST_LOSSES: [FirstLoss; 8] = [
    (TRIANGLE, &[1, 0, 0], 1, &[0, 0, 1]),
    (TRIANGLE, &[2, -1, -1], 0, &[]),
    (TRIANGLE, &[2, 0, 0], 1, &[]),
    (TRIANGLE, &[3, 0, 0], 3, &[0, 1, 2]),
    (TRIANGLE, &[0, 0, 0], 1, &[0, 0, 1]),
    (TRIANGLE, &[1, 0, 0], 150, &[0, 0, 150]),
    (TRIANGLE, &[150, 0, 0], 150, &[0, 1, 149]),
    (FOUR, &[1, 1, 1, 1], 2, &[]),
];

// The answer of a rank test with this first loss.
fn verdict(graph: &Graph, degree: u32, loss: &[i64]) -> Result<RankVerdict, Fail> {
    if loss.is_empty() {
        Ok(RankVerdict::AtLeast(degree))
    } else {
        Ok(RankVerdict::Below(degree, Divisor::new(graph, loss)?))
    }
}

#[test]
fn pieces_run_at_once(rt: HostRuntime) -> Result<(), Fail> {
    for (edges, amounts, degree, loss) in &FIRST_LOSSES {
        let graph = Graph::new(amounts.len(), edges)?;
        let wanted = verdict(&graph, *degree, loss)?;
        all_meet(&rt, &graph, amounts, *degree, &wanted)?;
    }
    Ok(())
}

// Whether this is the answer of pieces that meet, for several numbers of workers.
fn all_meet<R: Threads + Wait + Clock + Sync + Abort>(
    rt: &R,
    graph: &Graph,
    amounts: &[i64],
    degree: u32,
    wanted: &RankVerdict,
) -> Result<(), Fail> {
    for workers in [1, 2, 3, 16] {
        assert!(rt; graph.size() > 0);
        let found = meets(rt, graph, amounts, degree, workers)?;
        assert!(rt; found == *wanted, "{workers} workers at {amounts:?}");
    }
    Ok(())
}

// A cycle of four vertices, seen from the first, is in debt there; of the three tables some tests are settled by the degree.
#[test]
fn any_number_of_workers_agrees_with_one(rt: HostRuntime) -> Result<(), Fail> {
    for degree in 0..=4 {
        all_agree(&rt, TRIANGLE, &[3, 0, 0], degree)?;
        all_agree(&rt, SQUARE, &[-2, 0, 3, 0], degree)?;
        all_agree(&rt, PAIR, &[1, 1], degree)?;
    }
    Ok(())
}

// Whether each number of workers answers as one.
fn all_agree<R: Threads + Wait + Abort>(
    rt: &R,
    edges: &[(u8, u8, u8)],
    amounts: &[i64],
    degree: u32,
) -> Result<(), Fail> {
    let graph = Graph::new(amounts.len(), edges)?;
    let divisor = Divisor::new(&graph, amounts)?;
    assert!(rt; graph.size() > 0);
    let wanted = rank_at_least(&graph, 0, &divisor, degree);
    for workers in 1..=16 {
        let found = rank_with(rt, &graph, 0, &divisor, degree, workers, &OpenGate);
        assert!(rt;
            found == wanted,
            "{workers} workers, {degree} at {amounts:?}"
        );
    }
    Ok(())
}
