//! Pieces of the trials of a rank test, each with a thread of its own.
ghost use Rattle.std.specs.Prelude.{◌≡◌, ℕ, ◌+◌, ◌<◌, ◌≤◌, MatchResult};
ghost use Rattle.dg_rank.specs.Pieces.{piece_start, CanSearch, TellsFirstLoss};
ghost use Rattle.dg_rank.specs.declared.pieces.Search.{Search};
ghost use Rattle.dg_rank.specs.Ranks.{IsWorkerCount};
ghost use Rattle.dg_rank.specs.declared.rank_fault.RankFault.TheVariants.{Spawn};

use crate::enumeration::Trial;
use crate::first_loss::first_loss;
use crate::rank_fault::RankFault;
use crate::workers::Gate;
use dg_chips::Wide;
use dg_graph::Graph;
use dg_system::in_parallel;
use std::sync::Wait;
use std::thread::Threads;

/// What is searched for a first loss: the trials below a number, in so many pieces. Piece j of w holds those from the
/// j-th of w parts of their number, rounded down, up to and without the next one's first.
#[derive(Drop)]
pub(crate) struct Search {
    pub(crate) graph: Graph,
    pub(crate) chips: Wide,
    pub(crate) k: u32,
    pub(crate) count: u32,
    pub(crate) workers: u32,
}

/// The first loss of those that the pieces find, from one piece on. Each has a thread of its own, which enters the gate with
/// the number of its piece, and then searches its trials, if there are any. The first is meant in the order of trials, not in
/// time. The thread of this piece is started first, and joined last.
///
/// Refused with `Spawn` if a thread could not be started; those that were have ended then.
pub(crate) fn first_loss_among<R: Threads + Wait, G: Gate>(
    rt: &R,
    search: &Search,
    gate: &G,
    piece: u32,
) -> Result<Option<Trial>, RankFault>
    requires search { CanSearch search.now }
    requires workers { IsWorkerCount search.now.workers }
    requires piece { piece ≤ search.now.workers }
    ensures { MatchResult result
        (TellsFirstLoss search.now (piece_start search.now piece) search.now.count)
        (λ e. e ≡ Spawn) }
{
    if piece == search.workers {
        return Ok(None);
    }
    let next = piece + 1;
    let mut here = || -> Option<Trial>
        requires { CanSearch search.now × IsWorkerCount search.now.workers ×
            (piece < search.now.workers) }
        ensures { TellsFirstLoss search.entry.now (piece_start search.entry.now piece)
            (piece_start search.entry.now (piece + 1)) result }
    { first_loss_in_piece(search, gate, piece) };
    let mut later = || -> Result<Option<Trial>, RankFault>
        requires { CanSearch search.now × IsWorkerCount search.now.workers ×
            (next ≤ search.now.workers) }
        ensures { MatchResult result
            (TellsFirstLoss search.entry.now (piece_start search.entry.now next) search.entry.now.count)
            (λ e. e ≡ Spawn) }
    { first_loss_among(rt, search, gate, next) };
    let (here, later) = match in_parallel(rt, &mut here, &mut later) {
        Ok(both) => both,
        Err(_) => return Err(RankFault::Spawn),
    };
    match later {
        Ok(later) => Ok(earlier_loss(here, later)),
        Err(fault) => Err(fault),
    }
}

/// The first loss of trials, and of others after them.
fn earlier_loss(here: Option<Trial>, later: Option<Trial>) -> Option<Trial>
    ensures { (s : Search) (i m j : ℕ) → i ≤ m → m ≤ j → TellsFirstLoss s i m here → TellsFirstLoss s m j later →
        TellsFirstLoss s i j result }
{
    match here {
        Some(trial) => Some(trial),
        None => later,
    }
}

/// The first loss of a piece, searched once the gate has let it through.
fn first_loss_in_piece<G: Gate>(search: &Search, gate: &G, piece: u32) -> Option<Trial>
    requires search { CanSearch search.now }
    requires workers { IsWorkerCount search.now.workers }
    requires piece { piece < search.now.workers }
    ensures { TellsFirstLoss search.now (piece_start search.now piece)
        (piece_start search.now (piece + 1)) result }
{
    let piece = enter(gate, piece);
    first_loss_between(
        search,
        piece_start(search, piece),
        piece_start(search, piece + 1),
    )
}

/// The first loss of the trials from one number up to another: that of all from the first of these on, if it comes before the
/// trial of the other number.
fn first_loss_between(search: &Search, from: u32, to: u32) -> Option<Trial>
    requires search { CanSearch search.now }
    requires order { from ≤ to }
    requires within { to ≤ search.now.count }
    ensures { TellsFirstLoss search.now from to result }
{
    if from == to {
        return None;
    }
    let (graph, k) = (&search.graph, search.k);
    let size = graph.size();
    let start = Trial::nth(size, k, from);
    let loss = first_loss(graph, None, &search.chips, k, start)?;
    if to < search.count && !loss.is_before(&Trial::nth(size, k, to)) {
        return None;
    }
    Some(loss)
}

/// Lets a piece through the gate, and says which one went through.
fn enter<G: Gate>(gate: &G, piece: u32) -> u32
    ensures { result ≡ piece }
{
    gate.enter(piece);
    piece
}

/// The number of the first trial of a piece, and of the one past all trials for the number past all pieces.
fn piece_start(search: &Search, piece: u32) -> u32
    requires search { CanSearch search.now }
    requires workers { IsWorkerCount search.now.workers }
    requires piece { piece ≤ search.now.workers }
    ensures { result ≡ piece_start search.now piece }
{
    piece * search.count / search.workers
}
