//! A search for a loss on graphs with leaves, each on any number of edges: leaf after leaf is folded into its only neighbour.
//! What a vertex and all that is folded into it can bear is told by a row: the least that the vertex is left with once so many
//! dollars are lost there, if nobody else there may stay in debt. At last boxes are searched, in which each vertex that is left
//! pays by its row.
ghost use Rattle.std.specs.Prelude.{false, List, ◌≡◌, ℕ, ◌+◌, ◌-◌, ◌<◌, ◌≤◌, ℤ, pos, ◌+ℤ◌, ◌-ℤ◌, ◌*ℤ◌, ◌≤ℤ◌, true, ⊤, min, length, IfSome, MatchOption, MatchResult, slice_index};
ghost use Rattle.std.specs.Bool.{OnTrue};
ghost use Rattle.std.specs.List.{slice_index_or};
ghost use Rattle.dg_theory.specs.Firing.{IsEffective, degree};
ghost use Rattle.dg_theory.specs.Multigraph.{edges_between};
ghost use Rattle.dg_theory.specs.Sets.{IsVertexSet};
ghost use Rattle.dg_graph.specs.declared.graph.TheConstants.{MAX_VERTICES};
ghost use Rattle.dg_graph.specs.Sets.{in_set};
ghost use Rattle.dg_chips.specs.Vector.{at};
ghost use Rattle.dg_rank.specs.Losses.{HasSmallDegree};
ghost use Rattle.dg_rank.specs.Boxes.{BoxWins, IsBoxLoss};
ghost use Rattle.dg_rank.specs.Folding.{worth, IsLeaf, IsOnlyIn, AreFolded, RowsWin, IsSpared, IsJoined, IsRounded, IsHeldByRows, ArePaidByRows};
ghost use Rattle.dg_rank.specs.Prices.{price, ArePrices};

use crate::boxes::{Stopped, find_box_loss, find_unpaid, held_at};
use crate::enumeration::Trial;
use crate::numbers::failing_degree;
use crate::prices::{MAX_PLACES, PriceRow, Prices};
use dg_chips::Wide;
use dg_graph::{
    Graph, MAX_VERTICES, complement, contains, intersection, least_vertex, with_vertex,
    without_vertex,
};
use dg_reduce::EffectiveDivisor;

/// The most that a vertex holds where shares are searched: with 16 such amounts a divisor is small.
const MAX_HELD: i32 = 1_999_000;

/// A loss that rows name is looked for in the least box that holds it. There each box leads on to it, so a few are enough.
const MAX_TRIED_BOXES: u32 = 64;

/// The least that a vertex is left with, by the dollars that are lost there and in all that is folded into it.
type Row = [i32; MAX_PLACES];

/// A loss in a box, as `find_box_loss` finds it, by rows. Only that all of the box can be lost rests on them; a loss that they
/// name is looked for by boxes. It stops where there is no leaf, where a number is too large, after so many searches of shares,
/// and where few boxes find no loss.
/// It stands apart, so that no room is cleared for rows where few boxes tell.
#[inline(never)]
pub(crate) fn find_folded_loss(
    graph: &Graph,
    left: &EffectiveDivisor,
    room: &[u16; 16],
    dollars: u32,
    searches: u32,
) -> Result<Option<Trial>, Stopped>
    requires size { left.now.size ≡ graph.now.size }
    requires effective { IsEffective graph.now.size (at left.now) }
    requires small { HasSmallDegree graph.now.size (at left.now) }
    requires few { dollars < MAX_PLACES }
    ensures { MatchResult result
        (λ found. MatchOption found
        (BoxWins graph.now (at left.now) room.now dollars)
        (IsBoxLoss graph.now (at left.now) room.now dollars))
        (λ _. ⊤) }
{
    let size = graph.size();
    let mut rows = unfolded_rows(left, room, dollars as usize);
    let mut searches_left = searches;
    let told = fold_leaves(
        graph,
        complement(size, 0),
        size - 1,
        failing_degree(graph),
        &mut rows,
        dollars as usize,
        &mut searches_left,
    )?;
    let Some(losses) = told else {
        return Ok(None);
    };
    let mut boxes = MAX_TRIED_BOXES;
    let narrow = narrowed(room, &losses);
    let mut best = *left;
    match find_box_loss(
        graph, &mut best, &[0; 16], &narrow, dollars, true, &mut boxes,
    )? {
        Some(trial) => Ok(Some(trial)),
        None => Err(Stopped),
    }
}

/// The row of each vertex before anything is folded into it.
fn unfolded_rows(left: &EffectiveDivisor, room: &[u16; 16], dollars: usize) -> [Row; 16]
    requires size { left.now.size ≤ MAX_VERTICES }
    requires small { HasSmallDegree left.now.size (at left.now) }
    requires effective { IsEffective left.now.size (at left.now) }
    requires few { dollars < MAX_PLACES }
    ensures { (v t : ℕ) → v < left.now.size → t ≤ dollars →
        worth result v t ≡ at left.now v -ℤ pos (min t (slice_index room.now v)) }
{
    let mut rows = [[0; MAX_PLACES]; 16];
    for v in 0..left.size() {
        rows[v] = unfolded_row(left.get(v), room[v], dollars);
    }
    rows
}

/// The row of a vertex into which nothing is folded, if it holds so much and as much may be lost there as there is room.
fn unfolded_row(amount: i32, room: u16, dollars: usize) -> Row
    requires low { pos 0 ≤ℤ amount }
    requires few { dollars < MAX_PLACES }
    ensures { (t : ℕ) → t ≤ dollars → slice_index_or result t (pos 0) ≡ amount -ℤ pos (min t room) }
{
    let mut row = [0; MAX_PLACES];
    for t in 0..dollars + 1 {
        row[t] = amount - t.min(usize::from(room)) as i32;
    }
    row
}

/// Folds the leaves of what is left of a graph, one vertex more than `leaves`, until there is no leaf. `None` if then all shares
/// can be borne; else a loss, which the rows tell without proof: what each vertex loses, folded or not. Of the genus a leaf
/// spares a dollar less than its edges.
fn fold_leaves(
    graph: &Graph,
    unfolded: u16,
    leaves: usize,
    genus: u32,
    rows: &mut [Row; 16],
    dollars: usize,
    searches: &mut u32,
) -> Result<Option<Trial>, Stopped>
    requires vertices { IsVertexSet graph.now.size (in_set unfolded) }
    requires folded { AreFolded graph.now (in_set unfolded) }
    requires spared { IsSpared graph.now (in_set unfolded) genus }
    requires leaves { leaves < MAX_VERTICES }
    requires few { dollars < MAX_PLACES }
    ensures { MatchResult result
        (λ found. MatchOption found
        (RowsWin graph.now (in_set unfolded) rows.old dollars)
        (λ E. length E ≡ graph.now.size))
        (λ _. ⊤) }
{
    let size = graph.size();
    let Some((leaf, parent)) = find_leaf(graph, unfolded) else {
        if leaves + 1 == size {
            return Err(Stopped);
        }
        return shared_losses(graph, unfolded, genus, rows, dollars, searches);
    };
    if leaves == 0 {
        return Err(Stopped);
    }
    let edges = graph.edges(leaf, parent);
    let Some(joined) = join(&rows[parent], &rows[leaf], edges, dollars) else {
        return Err(Stopped);
    };
    rows[parent] = joined.row;
    let fewer = without_vertex(unfolded, leaf);
    let rest = genus.saturating_sub(u32::from(edges) - 1);
    let Some(mut losses) = fold_leaves(graph, fewer, leaves - 1, rest, rows, dollars, searches)?
    else {
        return Ok(None);
    };
    // No clause bounds what the rows tell.
    let all = losses.get(parent);
    let part = joined.parts[(all as usize).min(MAX_PLACES - 1)];
    losses.set(parent, all.saturating_sub(part));
    losses.set(leaf, part);
    Ok(Some(losses))
}

/// A loss of the vertices that are left, each with all that is folded into it; `None` if they can bear all.
fn shared_losses(
    graph: &Graph,
    unfolded: u16,
    genus: u32,
    rows: &[Row; 16],
    dollars: usize,
    searches: &mut u32,
) -> Result<Option<Trial>, Stopped>
    requires folded { AreFolded graph.now (in_set unfolded) }
    requires spared { IsSpared graph.now (in_set unfolded) genus }
    requires few { dollars < MAX_PLACES }
    ensures { MatchResult result
        (λ found. MatchOption found
        (RowsWin graph.now (in_set unfolded) rows.now dollars)
        (λ E. length E ≡ graph.now.size))
        (λ _. ⊤) }
{
    let _size = graph.size();
    let (Some(mut left), Some(prices)) = (
        held_by_rows(graph, unfolded, rows),
        prices_by_rows(unfolded, rows, dollars),
    ) else {
        return Err(Stopped);
    };
    if is_rich(&left, &prices, genus) {
        return Ok(None);
    }
    let (none, dollars) = ([0; 16], dollars as u16);
    let room = [dollars; 16];
    find_unpaid(
        graph,
        &mut left,
        &none,
        Some(&prices),
        &none,
        &room,
        dollars,
        true,
        searches,
    )
}

/// Whether the degree alone tells that all can be borne: each dollar lost costs a dollar at most, and once all are lost, the
/// degree is still at least what leaves do not spare of the genus. False says nothing.
fn is_rich(left: &EffectiveDivisor, prices: &Prices, genus: u32) -> bool
    requires size { left.now.size ≤ MAX_VERTICES }
    requires effective { IsEffective left.now.size (at left.now) }
    requires few { prices.now.most < MAX_PLACES }
    ensures rich { OnTrue result ((pos genus +ℤ pos prices.now.most) ≤ℤ degree left.now.size (at left.now)) }
    ensures cheap { OnTrue result ((v t : ℕ) → v < MAX_VERTICES → t ≤ prices.now.most → price prices.now v t ≤ t) }
{
    if total(left) < u64::from(genus) + prices.most as u64 {
        return false;
    }
    for v in 0..MAX_VERTICES {
        if !costs_at_most_a_dollar(&prices.rows[v], prices.most) {
            return false;
        }
    }
    true
}

/// The sum of all amounts.
fn total(left: &EffectiveDivisor) -> u64
    requires few { left.now.size ≤ MAX_VERTICES }
    requires effective { IsEffective left.now.size (at left.now) }
    ensures { pos result ≡ degree left.now.size (at left.now) }
{
    let mut sum = 0;
    for v in 0..left.size() {
        sum += u64::from(held_at(left, v));
    }
    sum
}

/// Whether a vertex pays at most a dollar for each that is lost there, of up to so many.
fn costs_at_most_a_dollar(prices: &PriceRow, most: usize) -> bool
    requires { most < MAX_PLACES }
    ensures { OnTrue result ((t : ℕ) → t ≤ most → slice_index prices.now t ≤ t) }
{
    for t in 0..most + 1 {
        if usize::from(prices[t]) > t {
            return false;
        }
    }
    true
}

/// What the vertices that are left hold while nothing is lost, with what is folded into them; nobody else holds anything. `None`
/// if that is too much.
fn held_by_rows(graph: &Graph, unfolded: u16, rows: &[Row; 16]) -> Option<EffectiveDivisor>
    ensures { IfSome result (IsHeldByRows graph.now (in_set unfolded) rows.now) }
{
    let mut held = Wide::zero(graph);
    for v in 0..graph.size() {
        if contains(unfolded, v) {
            let amount = rows[v][0];
            if amount < 0 || amount > MAX_HELD {
                return None;
            }
            held = held.with_amount(v, i128::from(amount));
        }
    }
    Some(EffectiveDivisor::of(&held))
}

/// What the vertices that are left pay, by their rows, and 0 for all others. `None` if one pays too much, or less for more.
fn prices_by_rows(unfolded: u16, rows: &[Row; 16], dollars: usize) -> Option<Prices>
    requires few { dollars < MAX_PLACES }
    ensures prices { IfSome result ArePrices }
    ensures most { IfSome result (λ P. P.most ≡ dollars) }
    ensures paid { IfSome result (ArePaidByRows (in_set unfolded) rows.now dollars) }
{
    let mut prices = [[0; MAX_PLACES]; MAX_VERTICES];
    for v in 0..MAX_VERTICES {
        if contains(unfolded, v) {
            prices[v] = prices_by_row(&rows[v], dollars)?;
        }
    }
    Some(Prices {
        rows: prices,
        most: dollars,
    })
}

/// What a vertex pays, by its row, for each number of dollars up to one: what it is left with becomes less by so much. `None` if
/// that is too much, or less for more.
#[tactic(auto, using(crate::proofs::RowPrices::rising_set))]
fn prices_by_row(amounts: &Row, dollars: usize) -> Option<PriceRow>
    requires few { dollars < MAX_PLACES }
    ensures rising { IfSome result (λ prices. (s t : ℕ) → s ≤ t → t ≤ dollars → slice_index prices s ≤ slice_index prices t) }
    ensures cheap { IfSome result (λ prices. (t : ℕ) → t ≤ dollars → slice_index prices t ≤ 1000) }
    ensures less { IfSome result (λ prices. (t : ℕ) → t ≤ dollars →
        pos (slice_index prices t) ≡ slice_index_or amounts.now 0 (pos 0) -ℤ slice_index_or amounts.now t (pos 0)) }
{
    let mut prices = [0; MAX_PLACES];
    for t in 1..dollars + 1 {
        prices[t] = price_between(amounts[0], amounts[t], prices[t - 1])?;
    }
    Some(prices)
}

/// What is paid where one amount becomes another; `None` if that is less than so much, or too much.
fn price_between(before: i32, after: i32, least: u16) -> Option<u16>
    ensures less { IfSome result (λ price. pos price ≡ before -ℤ after) }
    ensures least { IfSome result (λ price. least ≤ price) }
    ensures most { IfSome result (λ price. price ≤ 1000) }
{
    let price = before.checked_sub(after)?;
    if price < i32::from(least) || price > 1000 {
        return None;
    }
    Some(price as u16)
}

/// A leaf of what is left of a graph, and its only neighbour there.
fn find_leaf(graph: &Graph, unfolded: u16) -> Option<(usize, usize)>
    requires { IsVertexSet graph.now.size (in_set unfolded) }
    ensures { IfSome result (λ l. IsLeaf graph.now (in_set unfolded) l.0 l.1) }
{
    for u in 0..graph.size() {
        if contains(unfolded, u) {
            if let Some(r) = only_vertex(intersection(neighbours(graph, u), unfolded)) {
                return Some((u, r));
            }
        }
    }
    None
}

/// The vertices that a vertex has edges to.
fn neighbours(graph: &Graph, v: usize) -> u16
    requires { v < graph.now.size }
    ensures part { (w : ℕ) → in_set result w ≡ true → 0 < edges_between graph.now v w }
    ensures all { (w : ℕ) → w < graph.now.size → 0 < edges_between graph.now v w → in_set result w ≡ true }
{
    let row = graph.row(v);
    let mut set = 0;
    for w in 0..graph.size() {
        if row[w] > 0 {
            set = with_vertex(set, w);
        }
    }
    set
}

/// The vertex of a set that has no other.
fn only_vertex(set: u16) -> Option<usize>
    ensures { IfSome result (IsOnlyIn (in_set set)) }
{
    let v = least_vertex(set)?;
    if without_vertex(set, v) != 0 {
        return None;
    }
    Some(v)
}

/// A vertex's row once a leaf is folded into it, and how many of the dollars of each place are then lost at the leaf.
#[derive(Drop)]
struct Joined {
    row: Row,
    parts: [u32; MAX_PLACES],
}

/// Folds a leaf into its neighbour: of what the leaf is left with, whole rounds go along the edges; and it pays its debt so.
/// `None` past 32 bits.
fn join(parent: &Row, leaf: &Row, edges: u8, dollars: usize) -> Option<Joined>
    requires some { 0 < edges }
    requires few { dollars < MAX_PLACES }
    ensures { IfSome result (λ j. IsJoined edges dollars parent.now leaf.now j.row) }
{
    let rounds = rounded(leaf, edges, dollars)?;
    let mut row = [0; MAX_PLACES];
    let mut parts = [0; MAX_PLACES];
    for t in 0..dollars + 1 {
        let (least, part) = least_sum(parent, &rounds, t)?;
        row[t] = least;
        parts[t] = part as u32;
    }
    Some(Joined { row, parts })
}

/// The amounts of a row rounded down to whole rounds of dollars, one along each edge; `None` past 32 bits.
fn rounded(row: &Row, edges: u8, dollars: usize) -> Option<Row>
    requires some { 0 < edges }
    requires few { dollars < MAX_PLACES }
    ensures { IfSome result (λ rounds. (t : ℕ) → t ≤ dollars →
        IsRounded edges (slice_index_or row.now t (pos 0)) (slice_index_or rounds t (pos 0))) }
{
    let mut rounds = [0; MAX_PLACES];
    for t in 0..dollars + 1 {
        rounds[t] = whole_rounds(row[t], edges)?;
    }
    Some(rounds)
}

/// An amount rounded down to whole rounds of dollars, one along each edge; `None` past 32 bits.
fn whole_rounds(amount: i32, edges: u8) -> Option<i32>
    requires { 0 < edges }
    ensures { IfSome result (IsRounded edges amount) }
{
    let once = i32::from(edges);
    once.checked_mul(amount.div_euclid(once))
}

/// The least sum of a number of each of two rows, at places that add up to a place; and the place in the second.
fn least_sum(first: &Row, second: &Row, place: usize) -> Option<(i32, usize)>
    requires { place < MAX_PLACES }
    ensures least { IfSome result (λ s. (b : ℕ) → b ≤ place → s.0
        ≤ℤ (slice_index_or first.now (place - b) (pos 0) +ℤ slice_index_or second.now b (pos 0))) }
    ensures part { IfSome result (λ s. s.1 ≤ place) }
    ensures is { IfSome result (λ s. s.0
        ≡ slice_index_or first.now (place - s.1) (pos 0) +ℤ slice_index_or second.now s.1 (pos 0)) }
{
    let mut least = first[place].checked_add(second[0])?;
    let mut part = 0;
    for b in 1..place + 1 {
        let sum = first[place - b].checked_add(second[b])?;
        if sum < least {
            least = sum;
            part = b;
        }
    }
    Some((least, part))
}

/// The room of a box, where it is more than the losses at a vertex narrowed to these.
fn narrowed(room: &[u16; 16], losses: &Trial) -> [u16; 16]
    ensures { (v : ℕ) → slice_index result v ≤ slice_index room.now v }
{
    let mut narrow = *room;
    for v in 0..losses.size() {
        narrow[v] = narrow[v].min(losses.get(v).min(1000) as u16);
    }
    narrow
}
