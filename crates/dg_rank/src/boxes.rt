//! A search for a loss by boxes: at each vertex so much may be lost, and in all so many dollars.
ghost use Rattle.std.specs.Prelude.{◌≡◌, ℕ, ◌+◌, ◌<◌, ◌≤◌, ◌⊎◌, true, pos, min, MatchOption, MatchResult, slice_index};
ghost use Rattle.std.specs.List.{sum};
ghost use Rattle.std.specs.Option.{option_copied};
ghost use Rattle.dg_theory.specs.Firing.{only_at, IsEffective};
ghost use Rattle.dg_theory.specs.Play.{IsWinnable};
ghost use Rattle.dg_theory.specs.Rank.{minus};
ghost use Rattle.dg_theory.specs.Twins.{AreTwins};
ghost use Rattle.dg_graph.specs.declared.graph.TheConstants.{MAX_VERTICES};
ghost use Rattle.dg_graph.specs.Sets.{in_set};
ghost use Rattle.dg_chips.specs.Vector.{at};
ghost use Rattle.dg_reduce.specs.Effective.{IsInLinearSystem};
ghost use Rattle.dg_rank.specs.Losses.{HasSmallDegree};
ghost use Rattle.dg_rank.specs.Boxes.{BoxWins, IsBoxLoss, HaveOnlyTwins};
ghost use Rattle.dg_rank.specs.Prices.{paid, AreTold, BoxPays, IsUnpaid, AreCosts, IsLacking, IsTwinClosed};

use crate::enumeration::Trial;
use crate::prices::{Prices, first_unpaid, lesser, most_costs, price_of_more};
use dg_graph::{Graph, contains};
use dg_reduce::EffectiveDivisor;
use std::simd::prelude::*;

/// That a search has ended before it told anything.
#[derive(Clone, Copy)]
pub(crate) struct Stopped;

/// A loss in a box: at most so many dollars in all, and at each vertex at most what there is room for, without which what is
/// left can't be won; `None` if all of the box can be lost. It is `find_unpaid` where each dollar lost costs a dollar.
pub(crate) fn find_box_loss(
    graph: &Graph,
    left: &mut EffectiveDivisor,
    twins: &[u16; 16],
    room: &[u16; 16],
    dollars: u32,
    stops: bool,
    boxes: &mut u32,
) -> Result<Option<Trial>, Stopped>
    requires size { left.old.size ≡ graph.now.size }
    requires effective { IsEffective graph.now.size (at left.old) }
    requires small { HasSmallDegree graph.now.size (at left.old) }
    requires twins { HaveOnlyTwins graph.now twins.now }
    requires few { dollars ≤ 1000 }
    ensures class { IsInLinearSystem graph.now (at left.old) left.new }
    ensures told { MatchResult result
        (λ found. MatchOption found
        (BoxWins graph.now (at left.old) room.now dollars)
        (IsBoxLoss graph.now (at left.old) room.now dollars))
        (λ _. stops ≡ true) }
{
    let _size = graph.size();
    let dollars = dollars as u16;
    find_unpaid(
        graph, left, twins, None, &[0; 16], room, dollars, stops, boxes,
    )
}

/// A loss in a box for which the vertices can't pay, by the prices for what was lost before and is lost in the box; `None` if
/// they can pay for each.
///
/// A search that stops does so after so many more boxes; the number is counted down.
#[cycle(boxes)]
pub(crate) fn find_unpaid(
    graph: &Graph,
    left: &mut EffectiveDivisor,
    twins: &[u16; 16],
    prices: Option<&Prices>,
    lost: &[u16; 16],
    room: &[u16; 16],
    dollars: u16,
    stops: bool,
    boxes: &mut u32,
) -> Result<Option<Trial>, Stopped>
    requires size { left.old.size ≡ graph.now.size }
    requires effective { IsEffective graph.now.size (at left.old) }
    requires small { HasSmallDegree graph.now.size (at left.old) }
    requires twins { HaveOnlyTwins graph.now twins.now }
    requires few { dollars ≤ 1000 }
    requires lost { (v : ℕ) → v < MAX_VERTICES → slice_index lost.now v + dollars ≤ 1000 }
    requires told { AreTold (option_copied prices) lost.now dollars }
    ensures class { IsInLinearSystem graph.now (at left.old) left.new }
    ensures told { MatchResult result
        (λ found. MatchOption found
        (BoxPays graph.now (at left.old) (paid (option_copied prices.entry) lost.now) room.now dollars)
        (IsUnpaid graph.now (at left.old) (paid (option_copied prices.entry) lost.now) room.now dollars))
        (λ _. stops ≡ true) }
{
    let _size = graph.size();
    if dollars == 0 {
        return Ok(None);
    }
    if stops && *boxes == 0 {
        return Err(Stopped);
    }
    *boxes = boxes.saturating_sub(1);
    if dollars == 1 {
        return Ok(find_unpaid_dollar(graph, left, prices, lost, room));
    }
    part_box(
        graph, left, twins, prices, lost, room, dollars, stops, boxes,
    )
}

/// What `find_unpaid` finds. Where every vertex holds what it may have to pay, they can pay for all. At any other a loss has as
/// many dollars as it can't pay for, or fewer: the former are searched, and then the box is closed there. Once dollars were paid
/// for, another divisor of the class is at hand, and so is the one with which a search beyond has ended: where that promises a
/// shorter search, it becomes `left`.
///
/// Where the box is closed, it may be closed at twins as well: if such an exchange changes neither the graph nor what is
/// left and may be lost, who loses more at a twin has a mirror image that was searched. Sets of twins may lack some.
#[cycle(boxes)]
fn part_box(
    graph: &Graph,
    left: &mut EffectiveDivisor,
    twins: &[u16; 16],
    prices: Option<&Prices>,
    lost: &[u16; 16],
    room: &[u16; 16],
    dollars: u16,
    stops: bool,
    boxes: &mut u32,
) -> Result<Option<Trial>, Stopped>
    requires size { left.old.size ≡ graph.now.size }
    requires effective { IsEffective graph.now.size (at left.old) }
    requires small { HasSmallDegree graph.now.size (at left.old) }
    requires twins { HaveOnlyTwins graph.now twins.now }
    requires few { dollars ≤ 1000 }
    requires lost { (v : ℕ) → v < MAX_VERTICES → slice_index lost.now v + dollars ≤ 1000 }
    requires told { AreTold (option_copied prices) lost.now dollars }
    ensures class { IsInLinearSystem graph.now (at left.old) left.new }
    ensures told { MatchResult result
        (λ found. MatchOption found
        (BoxPays graph.now (at left.old) (paid (option_copied prices.entry) lost.now) room.now dollars)
        (IsUnpaid graph.now (at left.old) (paid (option_copied prices.entry) lost.now) room.now dollars))
        (λ _. stops ≡ true) }
{
    let size = graph.size();
    let mut open = *room;
    let mut costs = most_costs(prices, lost, room, dollars);
    let mut lack = lack_in_box(left, prices, lost, &open, &costs, dollars);
    'lacking: while let Some((v, taken)) = lack.place {
        let price = u32::from(price_of_more(prices, lost, v, taken));
        let Some(mut other) = after_loss(graph, left, v, price) else {
            return Ok(Some(Trial::all_at_last(size, 0).with_more(v, u32::from(taken))));
        };
        let mut fuller = other;
        fuller.give(v, price);
        let fewer = lack_in_box(&fuller, prices, lost, &open, &costs, dollars);
        if fewer.work < lack.work {
            *left = fuller;
            lack = fewer;
        } else {
            let (mut all, mut beyond) = (*lost, open);
            all[v] += taken;
            beyond[v] -= taken;
            let rest = dollars - taken;
            match find_unpaid(
                graph, &mut other, twins, prices, &all, &beyond, rest, stops, boxes,
            ) {
                Ok(None) => close(
                    graph,
                    left,
                    twins,
                    prices,
                    lost,
                    &mut open,
                    &mut costs,
                    v,
                    taken - 1,
                ),
                Ok(Some(trial)) => return Ok(Some(trial.with_more(v, u32::from(taken)))),
                Err(stopped) => return Err(stopped),
            }
            other.give(v, price);
            lack = lack_in_either(left, &other, prices, lost, &open, &costs, dollars);
        }
    }
    Ok(None)
}

/// A loss of one dollar in a box that can't be paid for; `None` if each can. Whoever can pay for a dollar in some divisor of the
/// class can bear to lose it, so each that is at hand tells of all who can.
fn find_unpaid_dollar(
    graph: &Graph,
    left: &mut EffectiveDivisor,
    prices: Option<&Prices>,
    lost: &[u16; 16],
    room: &[u16; 16],
) -> Option<Trial>
    requires size { left.old.size ≡ graph.now.size }
    requires effective { IsEffective graph.now.size (at left.old) }
    requires small { HasSmallDegree graph.now.size (at left.old) }
    requires told { AreTold (option_copied prices) lost.now 1 }
    ensures class { IsInLinearSystem graph.now (at left.old) left.new }
    ensures told { MatchOption result
        (BoxPays graph.now (at left.old) (paid (option_copied prices.entry) lost.now) room.now 1)
        (IsUnpaid graph.now (at left.old) (paid (option_copied prices.entry) lost.now) room.now 1) }
{
    let size = graph.size();
    let costs = most_costs(prices, lost, room, 1);
    let mut lacks = left.shortfalls(&costs);
    for v in 0..size {
        if lacks[v] == 0 {
            continue;
        }
        let price = u32::from(costs[v]);
        let Some(other) = after_loss(graph, left, v, price) else {
            return Some(Trial::all_at_last(size, 0).with_more(v, 1));
        };
        *left = other;
        left.give(v, price);
        lacks = lesser(&lacks, &left.shortfalls(&costs));
    }
    None
}

/// What is lacking in a box, once another divisor has become `left` if it promises no longer a search.
fn lack_in_either(
    left: &mut EffectiveDivisor,
    other: &EffectiveDivisor,
    prices: Option<&Prices>,
    lost: &[u16; 16],
    room: &[u16; 16],
    costs: &[u16; 16],
    dollars: u16,
) -> Lack
    requires sizes { left.old.size ≡ other.now.size }
    requires size { left.old.size ≤ 16 }
    requires effective { IsEffective left.old.size (at left.old) }
    requires other { IsEffective left.old.size (at other.now) }
    requires told { AreTold (option_copied prices) lost.now dollars }
    requires costs { AreCosts (paid (option_copied prices) lost.now) room.now dollars costs.now }
    ensures either { (left.new ≡ left.old) ⊎ (left.new ≡ other.now) }
    ensures lack { IsLacking left.new.size (paid (option_copied prices.entry) lost.now) (at left.new) room.now dollars
        result.place }
{
    let lack = lack_in_box(left, prices, lost, room, costs, dollars);
    let fewer = lack_in_box(other, prices, lost, room, costs, dollars);
    if fewer.work > lack.work {
        return lack;
    }
    *left = *other;
    fewer
}

/// Closes a box at a vertex, for all but so many dollars; and so at its twins that hold as much and have as much room, if each
/// dollar costs a dollar. By a table twins may pay unlike prices.
fn close(
    graph: &Graph,
    left: &EffectiveDivisor,
    twins: &[u16; 16],
    prices: Option<&Prices>,
    lost: &[u16; 16],
    room: &mut [u16; 16],
    costs: &mut [u16; 16],
    v: usize,
    dollars: u16,
)
    requires size { left.now.size ≡ graph.now.size }
    requires effective { IsEffective graph.now.size (at left.now) }
    requires vertex { v < graph.now.size }
    requires more { dollars < slice_index room.old v }
    requires twins { HaveOnlyTwins graph.now twins.now }
    requires told { AreTold (option_copied prices) lost.now dollars }
    ensures closed { IsTwinClosed graph.now (at left.now) (paid (option_copied prices.entry) lost.now) room.old v dollars
        room.new }
    ensures fewer { sum room.new < sum room.old }
    ensures costs { (most : ℕ) → dollars ≤ most → AreCosts (paid (option_copied prices.entry) lost.now) room.old most costs.old →
        AreCosts (paid (option_copied prices.entry) lost.now) room.new most costs.new }
{
    let (wide, held) = (room[v], held_at(left, v));
    let cost = price_of_more(prices, lost, v, dollars);
    room[v] = dollars;
    costs[v] = cost;
    if prices.is_some() || twins[v] == 0 {
        return;
    }
    for u in 0..graph.size() {
        if contains(twins[v], u) && room[u] == wide && held_at(left, u) == held {
            room[u] = dollars;
            costs[u] = cost;
        }
    }
}

/// What is lacking in a box: a vertex that holds less than it may have to pay, with a number of dollars that it may lose, if
/// there is one; and a guess at how long it takes to close the box.
#[derive(Clone, Copy)]
struct Lack {
    place: Option<(usize, u16)>,
    work: u32,
}

/// What is lacking in a box in which each vertex pays at most so much.
fn lack_in_box(
    left: &EffectiveDivisor,
    prices: Option<&Prices>,
    lost: &[u16; 16],
    room: &[u16; 16],
    costs: &[u16; 16],
    dollars: u16,
) -> Lack
    requires size { left.now.size ≤ 16 }
    requires effective { IsEffective left.now.size (at left.now) }
    requires told { AreTold (option_copied prices) lost.now dollars }
    requires costs { AreCosts (paid (option_copied prices) lost.now) room.now dollars costs.now }
    ensures { IsLacking left.now.size (paid (option_copied prices.entry) lost.now) (at left.now) room.now dollars result.place }
{
    let lacks = left.shortfalls(costs);
    let lanes = u16x16::from_array(lacks);
    let lacking = lanes.simd_gt(u16x16::splat(0));
    let (rooms, all) = (u16x16::from_array(*room), u16x16::splat(dollars));
    // A search at a vertex goes on with as many dollars as are beyond what it can pay for: the more, the longer.
    let beyond = lacking
        .select(lanes + all - rooms.simd_min(all), u16x16::splat(0))
        .cast::<u32>();
    let work = (beyond * beyond * beyond).reduce_sum();
    // Of those with the most room the last: a loss there comes earlier among the trials.
    let guess = last_of_most(lacking.select(rooms, u16x16::splat(0)));
    let Some(v) = lacking_vertex(left.size(), &lacks, guess) else {
        return Lack { place: None, work };
    };
    let most = room[v].min(dollars);
    let taken = first_unpaid(prices, lost, v, held_at(left, v), most);
    Lack {
        place: Some((v, taken)),
        work,
    }
}

/// A vertex that lacks something, if there is one: the one that is guessed, if that does.
fn lacking_vertex(size: usize, lacks: &[u16; 16], guess: usize) -> Option<usize>
    requires { size ≤ 16 }
    ensures { MatchOption result
        ((v : ℕ) → v < size → slice_index lacks.now v ≡ 0)
        (λ v. (v < size) × (0 < slice_index lacks.now v)) }
{
    if guess < size && lacks[guess] > 0 {
        return Some(guess);
    }
    for v in 0..size {
        if lacks[v] > 0 {
            return Some(v);
        }
    }
    None
}

/// The place of the greatest of some numbers, and of several the last. No clause says so, so it serves as a guess.
fn last_of_most(numbers: u16x16) -> usize {
    let most = numbers.simd_eq(u16x16::splat(numbers.reduce_max()));
    63usize.wrapping_sub(most.to_bitmask().leading_zeros() as usize)
}

/// What is left once so many dollars are taken at a vertex and paid back; `None` if that can't be won.
pub(crate) fn after_loss(
    graph: &Graph,
    left: &EffectiveDivisor,
    v: usize,
    taken: u32,
) -> Option<EffectiveDivisor>
    requires size { left.now.size ≡ graph.now.size }
    requires effective { IsEffective graph.now.size (at left.now) }
    requires small { HasSmallDegree graph.now.size (at left.now) }
    requires vertex { v < graph.now.size }
    requires taken { taken ≤ 1000 }
    ensures { MatchOption result
        (¬ IsWinnable graph.now (minus (at left.now) (only_at v (pos taken))))
        (IsInLinearSystem graph.now (minus (at left.now) (only_at v (pos taken)))) }
{
    let mut other = *left;
    other.take(v, taken);
    if other.repay(graph, v) {
        Some(other)
    } else {
        None
    }
}

/// The dollars that a vertex has left.
pub(crate) fn held_at(left: &EffectiveDivisor, v: usize) -> u32
    requires vertex { v < left.now.size }
    requires effective { IsEffective left.now.size (at left.now) }
    ensures { pos result ≡ at left.now v }
{
    left.get(v) as u32
}
