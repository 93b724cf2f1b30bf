//! The search for any loss, in three ways: a few boxes, which often tell; then leaves that are folded, which tell soon what would
//! take many boxes where multiple edges form a tree, or nearly one; and then boxes until they tell, for which twins are found.
ghost use Rattle.std.specs.Prelude.{◌≡◌, ℕ, ◌<◌, ◌≤◌, ⊤, MatchOption, MatchResult, slice_index};
ghost use Rattle.dg_theory.specs.Firing.{IsEffective};
ghost use Rattle.dg_chips.specs.Vector.{at};
ghost use Rattle.dg_reduce.specs.Effective.{IsInLinearSystem};
ghost use Rattle.dg_rank.specs.Boxes.{TrialsWinFrom, IsLossFrom};
ghost use Rattle.dg_rank.specs.Losses.{HasSmallDegree};

use crate::boxes::{Stopped, find_box_loss};
use crate::enumeration::Trial;
use crate::folding::find_folded_loss;
use crate::prices::MAX_PLACES;
use dg_graph::Graph;
use dg_reduce::EffectiveDivisor;

/// So many boxes are searched at first: to fold leaves, or to find twins, takes as long.
const MAX_PLAIN_BOXES: u32 = 8;

/// A loss of at most so many dollars, of which none are lost before a place; `None` if each such loss can be borne. What is
/// left becomes another divisor of its class, the last that was at hand.
pub(crate) fn find_loss_from(
    graph: &Graph,
    left: &mut EffectiveDivisor,
    dollars: u32,
    place: usize,
) -> Option<Trial>
    requires size { left.old.size ≡ graph.now.size }
    requires effective { IsEffective graph.now.size (at left.old) }
    requires small { HasSmallDegree graph.now.size (at left.old) }
    requires few { dollars ≤ 1000 }
    requires place { place < graph.now.size }
    ensures class { IsInLinearSystem graph.now (at left.old) left.new }
    ensures told { MatchOption result
        (TrialsWinFrom graph.now (at left.old) dollars place)
        (IsLossFrom graph.now (at left.old) dollars place) }
{
    if let Ok(found) = find_loss_soon(graph, left, dollars, place, u32::MAX) {
        return found;
    }
    let room = room_from(graph.size(), dollars, place);
    let twins = graph.twins();
    match find_box_loss(graph, left, &twins, &room, dollars, false, &mut 0) {
        Ok(found) => found,
        Err(Stopped) => unreachable!(),
    }
}

/// What `find_loss_from` tells, if a few boxes tell it, or leaves that are folded and so many searches of shares.
pub(crate) fn find_loss_soon(
    graph: &Graph,
    left: &mut EffectiveDivisor,
    dollars: u32,
    place: usize,
    searches: u32,
) -> Result<Option<Trial>, Stopped>
    requires size { left.old.size ≡ graph.now.size }
    requires effective { IsEffective graph.now.size (at left.old) }
    requires small { HasSmallDegree graph.now.size (at left.old) }
    requires few { dollars ≤ 1000 }
    requires place { place < graph.now.size }
    ensures class { IsInLinearSystem graph.now (at left.old) left.new }
    ensures told { MatchResult result
        (λ found. MatchOption found
        (TrialsWinFrom graph.now (at left.old) dollars place)
        (IsLossFrom graph.now (at left.old) dollars place))
        (λ _. ⊤) }
{
    let room = room_from(graph.size(), dollars, place);
    let mut boxes = MAX_PLAIN_BOXES;
    if let Ok(found) = find_box_loss(graph, left, &[0; 16], &room, dollars, true, &mut boxes) {
        return Ok(found);
    }
    if (dollars as usize) < MAX_PLACES {
        return find_folded_loss(graph, left, &room, dollars, searches);
    }
    Err(Stopped)
}

/// Room for so many dollars at each vertex from a place on, and for none before.
fn room_from(size: usize, dollars: u32, place: usize) -> [u16; 16]
    requires size { size ≤ 16 }
    requires few { dollars ≤ 1000 }
    ensures before { (v : ℕ) → v < place → slice_index result v ≡ 0 }
    ensures past { (v : ℕ) → place ≤ v → v < size → slice_index result v ≡ dollars }
{
    let mut room = [0; 16];
    for v in place..size {
        room[v] = dollars as u16;
    }
    room
}
