//! The first loss of the trials that hold nothing before a place: of these, one that begins later comes first.
ghost use Rattle.std.specs.Prelude.{◌≡◌, ◌<◌, ◌≤◌, MatchOption};
ghost use Rattle.dg_theory.specs.Firing.{IsEffective};
ghost use Rattle.dg_chips.specs.Vector.{at};
ghost use Rattle.dg_reduce.specs.Effective.{IsInLinearSystem};
ghost use Rattle.dg_rank.specs.Losses.{HasSmallDegree};
ghost use Rattle.dg_rank.specs.Boxes.{TrialsWinFrom, IsLossFrom, IsFirstLossFrom, IsLastLoss};

use crate::boxes::{Stopped, after_loss};
use crate::enumeration::Trial;
use crate::losses::{find_loss_from, find_loss_soon};
use dg_graph::Graph;
use dg_reduce::EffectiveDivisor;

/// So many searches of shares tell soon. What takes more is asked at each place by itself.
const MAX_SHARES: u32 = 32;

/// The first loss of the trials of a degree that hold nothing before a place; `None` if all win.
pub(crate) fn find_first_from(
    graph: &Graph,
    left: &EffectiveDivisor,
    dollars: u32,
    place: usize,
) -> Option<Trial>
    requires size { left.now.size ≡ graph.now.size }
    requires effective { IsEffective graph.now.size (at left.now) }
    requires small { HasSmallDegree graph.now.size (at left.now) }
    requires few { dollars ≤ 1000 }
    requires place { place < graph.now.size }
    ensures { MatchOption result
        (TrialsWinFrom graph.now (at left.now) dollars place)
        (IsFirstLossFrom graph.now (at left.now) dollars place) }
{
    let _size = graph.size();
    let mut best = *left;
    let (last, loss) = find_last_loss(graph, &mut best, dollars, place)?;
    Some(first_loss_from(graph, &best, dollars, last, loss))
}

/// The first loss of the trials of a degree that hold nothing before a place, if it holds a dollar there: if a loss of at most
/// that degree is known that does, and none begins later. It is that dollar and the first loss of what is left without it.
fn first_loss_from(
    graph: &Graph,
    left: &EffectiveDivisor,
    dollars: u32,
    place: usize,
    known: Trial,
) -> Trial
    requires size { left.now.size ≡ graph.now.size }
    requires effective { IsEffective graph.now.size (at left.now) }
    requires small { HasSmallDegree graph.now.size (at left.now) }
    requires few { dollars ≤ 1000 }
    requires known { IsLastLoss graph.now (at left.now) dollars place known }
    ensures { IsFirstLossFrom graph.now (at left.now) dollars place result }
{
    let size = graph.size();
    if place + 1 == size {
        return Trial::all_at_last(size, dollars);
    }
    let Some(mut other) = after_loss(graph, left, place, 1) else {
        return Trial::all_at_last(size, dollars - 1).with_more(place, 1);
    };
    let mut fewer = known;
    let held = fewer.get(place);
    fewer.set(place, held - 1);
    let (last, loss) = last_loss_from(graph, &mut other, dollars - 1, place, fewer);
    first_loss_from(graph, &other, dollars - 1, last, loss).with_more(place, 1)
}

/// The last place, from one on, at which a loss of at most so many dollars begins, and such a loss; `None` if all can be borne
/// that hold nothing before that place. What is left becomes another divisor of its class.
#[cycle(last_losses)]
fn find_last_loss(
    graph: &Graph,
    left: &mut EffectiveDivisor,
    dollars: u32,
    place: usize,
) -> Option<(usize, Trial)>
    requires size { left.old.size ≡ graph.now.size }
    requires effective { IsEffective graph.now.size (at left.old) }
    requires small { HasSmallDegree graph.now.size (at left.old) }
    requires few { dollars ≤ 1000 }
    requires place { place ≤ graph.now.size }
    ensures class { IsInLinearSystem graph.now (at left.old) left.new }
    ensures told { MatchOption result
        (TrialsWinFrom graph.now (at left.old) dollars place)
        (λ found. (place ≤ found.0) × IsLastLoss graph.now (at left.old) dollars found.0 found.1) }
{
    if place == graph.size() {
        return None;
    }
    match find_loss_soon(graph, left, dollars, place, MAX_SHARES) {
        Ok(Some(loss)) => Some(last_loss_from(graph, left, dollars, place, loss)),
        Ok(None) => None,
        Err(Stopped) => find_last_by_one(graph, left, dollars, place),
    }
}

/// What `find_last_loss` finds, if a loss is known that holds nothing before the place.
#[cycle(last_losses)]
fn last_loss_from(
    graph: &Graph,
    left: &mut EffectiveDivisor,
    dollars: u32,
    place: usize,
    known: Trial,
) -> (usize, Trial)
    requires size { left.old.size ≡ graph.now.size }
    requires effective { IsEffective graph.now.size (at left.old) }
    requires small { HasSmallDegree graph.now.size (at left.old) }
    requires few { dollars ≤ 1000 }
    requires place { place < graph.now.size }
    requires known { IsLossFrom graph.now (at left.old) dollars place known }
    ensures class { IsInLinearSystem graph.now (at left.old) left.new }
    ensures from { place ≤ result.0 }
    ensures last { IsLastLoss graph.now (at left.old) dollars result.0 result.1 }
{
    if known.get(place) == 0 {
        return last_loss_from(graph, left, dollars, place + 1, known);
    }
    match find_last_loss(graph, left, dollars, place + 1) {
        Some(later) => later,
        None => (place, known),
    }
}

/// What `find_last_loss` finds, by a search at each place from the last on, once a dollar is lost there.
fn find_last_by_one(
    graph: &Graph,
    left: &mut EffectiveDivisor,
    dollars: u32,
    place: usize,
) -> Option<(usize, Trial)>
    requires size { left.old.size ≡ graph.now.size }
    requires effective { IsEffective graph.now.size (at left.old) }
    requires small { HasSmallDegree graph.now.size (at left.old) }
    requires few { dollars ≤ 1000 }
    requires place { place ≤ graph.now.size }
    ensures class { IsInLinearSystem graph.now (at left.old) left.new }
    ensures told { MatchOption result
        (TrialsWinFrom graph.now (at left.old) dollars place)
        (λ found. (place ≤ found.0) × IsLastLoss graph.now (at left.old) dollars found.0 found.1) }
{
    let size = graph.size();
    if dollars == 0 || place == size {
        return None;
    }
    if let Some(later) = find_last_by_one(graph, left, dollars, place + 1) {
        return Some(later);
    }
    let Some(mut other) = after_loss(graph, left, place, 1) else {
        return Some((place, Trial::all_at_last(size, 0).with_more(place, 1)));
    };
    if let Some(loss) = find_loss_from(graph, &mut other, dollars - 1, place) {
        return Some((place, loss.with_more(place, 1)));
    }
    *left = other;
    left.give(place, 1);
    None
}
