//! Rank tests among workers.
ghost use Rattle.std.specs.Prelude.{◌≡◌, ◌<◌, ◌⊎◌, ⊤, MatchOption, MatchResult};
ghost use Rattle.dg_chips.specs.Vector.{at};
ghost use Rattle.dg_verdict.specs.RankTests.{IsRightRank};
ghost use Rattle.dg_rank.specs.Ranks.{IsTestable, IsRankFault, IsWorkerCount};

use crate::counting::trials;
use crate::pieces::{Search, first_loss_among};
use crate::rank_fault::RankFault;
use crate::ranks::{rank_by_degree, verdict_of_loss};
use dg_chips::{Divisor, Wide};
use dg_graph::Graph;
use dg_verdict::RankVerdict;
use std::marker::Sync;
use std::sync::Wait;
use std::thread::Threads;

/// The most workers of a rank test.
pub const MAX_WORKERS: u32 = 16;

/// What a piece of a rank test passes before its first trial; pieces on several threads share it.
pub trait Gate: Sync {
    /// Lets the piece with this number through.
    fn enter(&self, piece: u32);
}

/// The gate that lets every piece through at once.
#[derive(Clone, Copy)]
pub struct OpenGate;

impl Gate for OpenGate {
    fn enter(&self, _piece: u32) {}
}

/// The rank test among workers: the answer is what `rank_at_least` answers, for any number of them and any gate.
///
/// Refused with `TooMany` as there, then with `Workers` if their number is not 1 to 16, and with `Spawn` if a thread could
/// not be started. `OutOfMemory` never comes: only threads take memory.
///
/// What no clause says, and only tests show: the trials are shared in as many pieces as there are workers. Each piece has a
/// thread of its own, which enters the gate once, with the piece's number, from 0 on, also if it has no trial to make: the
/// degree may have told the answer before any thread starts. That it does so before its first trial, not even tests show.
/// After `TooMany` and `Workers` no gate was entered, and after `Spawn` the threads that were started have ended.
pub fn rank_with<R: Threads + Wait, G: Gate>(
    rt: &R,
    graph: &Graph,
    q: usize,
    divisor: &Divisor,
    k: u32,
    workers: u32,
    gate: &G,
) -> Result<RankVerdict, RankFault>
    requires size { divisor.now.size ≡ graph.now.size }
    requires vertex { q < graph.now.size }
    ensures { MatchResult result
        (λ x. IsTestable graph.now.size k × IsWorkerCount workers ×
        IsRightRank graph.now (at divisor.now) k x)
        (IsRankFault graph.now.size k workers) }
{
    let size = graph.size();
    let Some(count) = trials(size, k) else {
        return Err(RankFault::TooMany);
    };
    if workers < 1 || workers > MAX_WORKERS {
        return Err(RankFault::Workers);
    }
    let known = rank_by_degree(graph, divisor, k);
    // The clause of `size` says that the amounts are within their limit.
    let _amounts = divisor.size();
    let search = Search {
        graph: *graph,
        chips: Wide::of(divisor),
        k,
        count: trials_to_make(&known, count),
        workers,
    };
    match first_loss_among(rt, &search, gate, 0) {
        Ok(loss) => match known {
            Some(verdict) => Ok(verdict),
            None => Ok(verdict_of_loss(k, loss)),
        },
        Err(fault) => Err(fault),
    }
}

/// How many of so many trials are made: none if the verdict is known.
fn trials_to_make(known: &Option<RankVerdict>, count: u32) -> u32
    ensures some { (result ≡ 0) ⊎ (result ≡ count) }
    ensures all { MatchOption known.now (result ≡ count) (λ _. ⊤) }
{
    match *known {
        Some(_) => 0,
        None => count,
    }
}
