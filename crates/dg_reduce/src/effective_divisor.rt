//! Amounts without debts, from which dollars are taken.

ghost use Rattle.std.specs.Prelude.{◌≡◌, ℕ, ◌<◌, ◌≤◌, ◌^◌, ◌-◌, pos, ◌+ℤ◌, ◌-ℤ◌, ◌<ℤ◌, if◌then◌else◌, MatchBool, MatchOption, slice_index};
ghost use Rattle.std.specs.List.{slice_index_or};
ghost use Rattle.std.specs.Int.RustNames.{unsigned_abs};
ghost use Rattle.dg_theory.specs.Multigraph.{valence};
ghost use Rattle.dg_theory.specs.Firing.{only_at, indicator, gain, FiresTo, IsEffective, IsEffectiveOff};
ghost use Rattle.dg_theory.specs.Play.{IsWinnable};
ghost use Rattle.dg_theory.specs.Reduced.{edges_out, IsReduced};
ghost use Rattle.dg_graph.specs.declared.graph.TheConstants.{MAX_VERTICES};
ghost use Rattle.dg_graph.specs.Sets.{in_set};
ghost use Rattle.dg_chips.specs.Vector.{at};
ghost use Rattle.dg_burn.specs.Fires.{AreCapped};
ghost use Rattle.dg_reduce.specs.Effective.{IsInLinearSystem};
ghost use Rattle.dg_reduce.specs.Rests.{IsUnburntRest, IsFloorOff, StaysAboveFloor};

use dg_burn::{BurnCounts, burn_counted};
use dg_chips::Wide;
use dg_graph::Graph;
use std::marker::Model;
use std::simd::prelude::*;

/// The bit of each vertex in its half of a set.
const PLACES: [u8; 16] = [1, 2, 4, 8, 16, 32, 64, 128, 1, 2, 4, 8, 16, 32, 64, 128];

/// An amount of dollars for each vertex of a graph, in 32 bits, changed in place.
#[derive(Clone, Copy, PartialEq, Eq)]
pub struct EffectiveDivisor {
    size: usize,
    amounts: [i32; 16],
}

impl Model for EffectiveDivisor {
    ghost use Rattle.dg_chips.specs.Vector.{Vector, IsWide};

    ghost Value = { Vector };

    ghost view = { λ a. record { size = a.size; numbers = a.amounts } };

    ghost invariant = { λ a. IsWide (record { size = a.size; numbers = a.amounts }) };

    ghost inverse = { λ x. record { size = x.size; amounts = x.numbers } };
}

impl EffectiveDivisor {
    /// The same amounts in 32 bits.
    pub fn of(chips: &Wide) -> EffectiveDivisor
        requires range { (v : ℕ) → v < chips.now.size → unsigned_abs (at chips.now v) ≤ 2 ^ 30 }
        ensures size { result.size ≡ chips.now.size }
        ensures amounts { (v : ℕ) → v < chips.now.size → at result v ≡ at chips.now v }
    {
        EffectiveDivisor {
            size: chips.size(),
            amounts: chips.in_32_bits(),
        }
    }

    /// The number of vertices.
    pub fn size(&self) -> usize
        ensures { result ≡ self.now.size }
    {
        self.size
    }

    /// The amount of a vertex.
    pub fn get(&self, v: usize) -> i32
        requires { v < self.now.size }
        ensures { result ≡ at self.now v }
    {
        let dollars = &self.amounts;
        dollars[v]
    }

    /// How many dollars each vertex has less than the number there.
    pub fn shortfalls(&self, numbers: &[u16; 16]) -> [u16; 16]
        requires { IsEffective self.now.size (at self.now) }
        ensures { (v : ℕ) → v < self.now.size →
            slice_index result v ≡ slice_index numbers.now v - unsigned_abs (at self.now v) }
    {
        let amounts = &self.amounts;
        let mut lacks = [0; 16];
        // As many rounds for each size are done by lanes.
        for v in 0..16 {
            let held = amounts[v].clamp(0, 65_535) as u16;
            lacks[v] = numbers[v].saturating_sub(held);
        }
        lacks
    }

    /// Gives dollars to a vertex.
    pub fn give(&mut self, v: usize, dollars: u32)
        requires vertex { v < self.old.size }
        requires range { unsigned_abs (at self.old v) ≤ 2 ^ 29 }
        requires dollars { dollars ≤ 2 ^ 29 }
        ensures size { self.new.size ≡ self.old.size }
        ensures amounts { (w : ℕ) → at self.new w ≡ at self.old w +ℤ only_at v (pos dollars) w }
    {
        let amounts = &mut self.amounts;
        amounts[v] += dollars as i32;
    }

    /// Takes dollars from a vertex, which may then be in debt.
    pub fn take(&mut self, v: usize, dollars: u32)
        requires vertex { v < self.old.size }
        requires range { unsigned_abs (at self.old v) ≤ 2 ^ 29 }
        requires dollars { dollars ≤ 2 ^ 29 }
        ensures size { self.new.size ≡ self.old.size }
        ensures amounts { (w : ℕ) → at self.new w ≡ at self.old w -ℤ only_at v (pos dollars) w }
    {
        let amounts = &mut self.amounts;
        amounts[v] -= dollars as i32;
    }

    /// Pays back what one vertex owes; nobody else may be in debt. As long as it owes, the vertices that burning from it leaves
    /// lend. False if the amounts can't be won; then nothing is said of what is left.
    #[inline(always)]
    pub fn repay(&mut self, graph: &Graph, v: usize) -> bool
        requires size { self.old.size ≡ graph.now.size }
        requires vertex { v < graph.now.size }
        requires no_debt { IsEffectiveOff graph.now v (at self.old) }
        requires range { (w : ℕ) → w < graph.now.size → unsigned_abs (at self.old w) ≤ 2 ^ 26 }
        ensures { MatchBool result
            (IsInLinearSystem graph.now (at self.old) self.new)
            (¬ IsWinnable graph.now (at self.old)) }
    {
        if self.get(v) >= 0 {
            return true;
        }
        self.repay_debt(graph, v)
    }

    /// The slow half of `repay`: pays back what the vertex owes. It stands apart, as most calls find no debt.
    #[inline(never)]
    fn repay_debt(&mut self, graph: &Graph, v: usize) -> bool
        requires size { self.old.size ≡ graph.now.size }
        requires vertex { v < graph.now.size }
        requires owes { at self.old v <ℤ pos 0 }
        requires no_debt { IsEffectiveOff graph.now v (at self.old) }
        requires range { (w : ℕ) → w < graph.now.size → unsigned_abs (at self.old w) ≤ 2 ^ 26 }
        ensures { MatchBool result
            (IsInLinearSystem graph.now (at self.old) self.new)
            (¬ IsWinnable graph.now (at self.old)) }
    {
        // For the prover: `size` says that the graph is within its limits.
        let _size = graph.size();
        let floor = floor_off(v);
        let Some(mut rest) = self.rest(graph, v) else {
            return false;
        };
        'paying: while self.get(v) < 0 {
            // Burning takes longer than this test, and the same set often lends many times.
            if !self.can_fire(&rest, &floor) {
                let Some(next) = self.rest(graph, v) else {
                    return false;
                };
                rest = next;
            }
            self.fire(graph, &rest);
        }
        true
    }

    /// Whether each amount stays at its floor or above when a set that burning left lends once.
    #[inline(always)]
    fn can_fire(&self, rest: &UnburntSet, floor: &[i32; 16]) -> bool
        requires small { (v : ℕ) → unsigned_abs (slice_index_or rest.now.gains v (pos 0)) ≤ 63 }
        requires range { (v : ℕ) → v < self.now.size → unsigned_abs (at self.now v) ≤ 2 ^ 31 - 64 }
        ensures { MatchBool result
            (StaysAboveFloor MAX_VERTICES floor.now (at self.now) rest.now)
            (¬ StaysAboveFloor MAX_VERTICES floor.now (at self.now) rest.now) }
    {
        let amounts = &self.amounts;
        let mut stays = true;
        for v in 0..16 {
            if with_gain(amounts[v], rest.gains[v]) < floor[v] {
                stays = false;
            }
        }
        stays
    }

    /// What burning from a vertex leaves, if it leaves something.
    #[inline(always)]
    fn rest(&self, graph: &Graph, v: usize) -> Option<UnburntSet>
        requires size { self.now.size ≡ graph.now.size }
        requires vertex { v < graph.now.size }
        requires no_debt { IsEffectiveOff graph.now v (at self.now) }
        ensures { MatchOption result
            (IsReduced graph.now v (at self.now))
            (IsUnburntRest graph.now v (at self.now)) }
    {
        let _size = graph.size();
        let counted = burn_counted(graph, v, &self.held());
        if counted.burnt.unburnt == 0 {
            return None;
        }
        Some(UnburntSet {
            set: counted.burnt.unburnt,
            gains: rest_gains(graph, &counted),
        })
    }

    /// The amounts as far as burning looks at them.
    #[inline(always)]
    fn held(&self) -> [u8; 16]
        ensures { AreCapped self.now.size (at self.now) result }
    {
        let _size = self.size;
        capped_i32s(&self.amounts)
    }

    /// Lets each vertex that burning left lend once.
    #[inline(always)]
    fn fire(&mut self, graph: &Graph, rest: &UnburntSet)
        requires size { self.old.size ≡ graph.now.size }
        requires gains { (v : ℕ) → v < MAX_VERTICES → slice_index_or rest.now.gains v (pos 0)
            ≡ gain graph.now (indicator (in_set rest.now.set)) v }
        requires small { (v : ℕ) → unsigned_abs (slice_index_or rest.now.gains v (pos 0)) ≤ 63 }
        requires range { (v : ℕ) → v < graph.now.size → unsigned_abs (at self.old v) ≤ 2 ^ 31 - 64 }
        ensures size { self.new.size ≡ graph.now.size }
        ensures fires { FiresTo graph.now (indicator (in_set rest.now.set)) (at self.old)
            (at self.new) }
    {
        let size = graph.size();
        let mut amounts = self.amounts;
        for v in 0..16 {
            amounts[v] = with_gain(amounts[v], rest.gains[v]);
        }
        *self = EffectiveDivisor { size, amounts };
    }
}

/// The amounts as far as burning looks at them: 0 for a debt, and 64 for more than 64.
pub(crate) fn capped_i32s(amounts: &[i32; 16]) -> [u8; 16]
    ensures { AreCapped MAX_VERTICES (λ v. slice_index_or amounts.now v (pos 0)) result }
{
    let mut held = [0; 16];
    for v in 0..16 {
        held[v] = (amounts[v].clamp(0, 255) as u8).min(64);
    }
    held
}

/// A set that burning left, and what each vertex gains if each of the set lends once.
#[derive(Clone, Copy)]
struct UnburntSet {
    set: u16,
    gains: [i32; 16],
}

/// The least that each may hold while one vertex is paid back: no debt, and for that vertex any.
fn floor_off(v: usize) -> [i32; 16]
    requires { v < MAX_VERTICES }
    ensures { IsFloorOff v result }
{
    let mut floor = [0; 16];
    floor[v] = i32::MIN;
    floor
}

/// What each vertex gains if each vertex that burning left lends once.
fn rest_gains(graph: &Graph, rest: &BurnCounts) -> [i32; 16]
    requires { (v : ℕ) →
        slice_index rest.now.joined v ≡ edges_out graph.now (in_set rest.now.burnt.unburnt) v }
    ensures gains { (v : ℕ) → v < MAX_VERTICES →
        slice_index_or result v (pos 0)
        ≡ gain graph.now (indicator (in_set rest.now.burnt.unburnt)) v }
    ensures few { (v : ℕ) → unsigned_abs (slice_index_or result v (pos 0)) ≤ 63 }
{
    let _size = graph.size();
    let others = outside(rest.burnt.unburnt, u8x16::from_array(*graph.valences())).to_array();
    let mut gains = [0; 16];
    for v in 0..16 {
        gains[v] = i32::from(gained(graph, rest, others[v], v));
    }
    gains
}

/// What a vertex gains if each vertex that burning left lends once, and a dollar comes along each of so many edges.
fn gained(graph: &Graph, rest: &BurnCounts, edges: u8, v: usize) -> i8
    requires vertex { v < MAX_VERTICES }
    requires rest { slice_index rest.now.joined v
        ≡ edges_out graph.now (in_set rest.now.burnt.unburnt) v }
    requires edges { edges ≡ (if in_set rest.now.burnt.unburnt v then 0 else valence graph.now v) }
    ensures gain { result ≡ gain graph.now (indicator (in_set rest.now.burnt.unburnt)) v }
    ensures few { unsigned_abs result ≤ 63 }
{
    let _size = graph.size();
    difference(edges, rest.joined[v])
}

/// The difference of two numbers of edges.
fn difference(more: u8, less: u8) -> i8
    requires more { more ≤ 63 }
    requires less { less ≤ 63 }
    ensures { result ≡ pos more -ℤ pos less }
{
    more as i8 - less as i8
}

/// An amount with what is gained.
fn with_gain(amount: i32, gain: i32) -> i32
    requires amount { unsigned_abs amount ≤ 2 ^ 31 - 64 }
    requires gain { unsigned_abs gain ≤ 63 }
    ensures { result ≡ amount +ℤ gain }
{
    amount + gain
}

/// The numbers of the vertices that are not in a set, 0 at those that are.
fn outside(set: u16, numbers: u8x16) -> u8x16
    ensures { (v : ℕ) → v < MAX_VERTICES →
        slice_index result v ≡ (if in_set set v then 0 else slice_index numbers v) }
{
    let low = (set & 255) as u8;
    let high = (set >> 8) as u8;
    let halves = [
        low, low, low, low, low, low, low, low, high, high, high, high, high, high, high, high,
    ];
    let bits = u8x16::from_array(halves) & u8x16::from_array(PLACES);
    bits.simd_eq(u8x16::splat(0))
        .select(numbers, u8x16::splat(0))
}
