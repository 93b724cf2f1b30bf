//! The first loss of the trials from one on.
ghost use Rattle.std.specs.Prelude.{◌≡◌, ◌+◌, ◌<◌, ◌≤◌, length, MatchOption};
ghost use Rattle.std.specs.List.{sum};
ghost use Rattle.dg_theory.specs.Firing.{IsEffective};
ghost use Rattle.dg_graph.specs.Graph.{IsGraph};
ghost use Rattle.dg_chips.specs.Vector.{at};
ghost use Rattle.dg_rank.specs.Boxes.{IsTrialFrom, TellsFirstIf, IsNotBefore, HoldsAt};
ghost use Rattle.dg_rank.specs.Divisors.{amounts_of_trial};
ghost use Rattle.dg_rank.specs.Losses.{AreSmallAmounts, HasSmallDegree, WinsWithout, IsFewDivisor};
ghost use Rattle.dg_rank.specs.Trials.{IsTrial};

use crate::beginnings::find_first_from;
use crate::boxes::after_loss;
use crate::enumeration::Trial;
use dg_chips::Wide;
use dg_graph::Graph;
use dg_reduce::{EffectiveDivisor, InverseLaplacian, reduce_certified};

/// The first loss of the trials of degree k from one on; `None` if these all win.
pub(crate) fn first_loss(
    graph: &Graph,
    inverse: Option<&InverseLaplacian>,
    chips: &Wide,
    k: u32,
    start: Trial,
) -> Option<Trial>
    requires graph { IsGraph graph.now }
    requires size { chips.now.size ≡ graph.now.size }
    requires range { AreSmallAmounts graph.now.size (at chips.now) }
    requires few { k ≤ 1000 }
    requires start { IsTrial graph.now.size k start }
    ensures { TellsFirstIf graph.now (at chips.now) k 0 (IsNotBefore graph.now.size start) result }
{
    match effective_with(graph, inverse, chips, &start) {
        Some(left) => first_loss_on(graph, &left, k, 0, start),
        None => Some(start),
    }
}

/// The first loss of the trials that hold nothing before a place, from one on; `None` if these all win. Where it holds all at
/// its last place, it is the first of these. Else those that hold as much at the place come first, and then those that hold more.
fn first_loss_on(
    graph: &Graph,
    left: &EffectiveDivisor,
    dollars: u32,
    place: usize,
    start: Trial,
) -> Option<Trial>
    requires size { left.now.size ≡ graph.now.size }
    requires effective { IsEffective graph.now.size (at left.now) }
    requires small { HasSmallDegree graph.now.size (at left.now) }
    requires few { dollars ≤ 1000 }
    requires place { place < graph.now.size }
    requires places { length start ≡ graph.now.size }
    requires start { IsTrialFrom graph.now.size dollars place (amounts_of_trial start) }
    ensures { TellsFirstIf graph.now (at left.now) dollars place (IsNotBefore graph.now.size start) result }
{
    let size = graph.size();
    if start.get(size - 1) == dollars {
        return find_first_from(graph, left, dollars, place);
    }
    let held = start.get(place);
    let Some(rest) = after_loss(graph, left, place, held) else {
        return Some(start);
    };
    let mut later = start;
    later.set(place, 0);
    match first_loss_on(graph, &rest, dollars - held, place + 1, later) {
        Some(loss) => Some(loss.with_more(place, held)),
        None => first_loss_above(graph, left, dollars, place, held + 1),
    }
}

/// The first loss of the trials that hold nothing before a place and so much at least there; `None` if these all win.
fn first_loss_above(
    graph: &Graph,
    left: &EffectiveDivisor,
    dollars: u32,
    place: usize,
    least: u32,
) -> Option<Trial>
    requires size { left.now.size ≡ graph.now.size }
    requires effective { IsEffective graph.now.size (at left.now) }
    requires small { HasSmallDegree graph.now.size (at left.now) }
    requires few { dollars ≤ 1000 }
    requires place { place < graph.now.size }
    ensures { TellsFirstIf graph.now (at left.now) dollars place (HoldsAt place least) result }
{
    if least > dollars {
        return None;
    }
    let size = graph.size();
    let Some(other) = after_loss(graph, left, place, least) else {
        return Some(Trial::all_at_last(size, dollars - least).with_more(place, least));
    };
    match find_first_from(graph, &other, dollars - least, place) {
        Some(loss) => Some(loss.with_more(place, least)),
        None => None,
    }
}

/// Amounts without debts that amounts can be fired to, once a trial is lost and given back. `None` if it can't be lost.
pub(crate) fn effective_with(
    graph: &Graph,
    inverse: Option<&InverseLaplacian>,
    chips: &Wide,
    trial: &Trial,
) -> Option<EffectiveDivisor>
    requires graph { IsGraph graph.now }
    requires size { chips.now.size ≡ graph.now.size }
    requires range { AreSmallAmounts graph.now.size (at chips.now) }
    requires places { length trial.now ≡ graph.now.size }
    requires few { sum trial.now ≤ 1000 }
    ensures { MatchOption result
        (¬ WinsWithout graph.now (at chips.now) trial.now)
        (IsFewDivisor graph.now (at chips.now)) }
{
    let size = graph.size();
    let lost = trial.to_divisor();
    let reduced = reduce_certified(graph, inverse, 0, &chips.minus(&lost))
        .reduced
        .divisor;
    if reduced.get(0) < 0 {
        return None;
    }
    let mut left = EffectiveDivisor::of(&reduced);
    for v in 0..size {
        left.give(v, trial.get(v));
    }
    Some(left)
}
