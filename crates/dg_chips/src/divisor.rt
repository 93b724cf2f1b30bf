//! Divisors: amounts of dollars within the limit, one for each vertex.

ghost use Rattle.std.specs.Prelude.{◌≡◌, ℕ, ◌<◌, ◌≤◌, ◌↔◌, IsTrue, MatchResult, MatchOption, length, pos, ◌+ℤ◌, ◌-ℤ◌};
ghost use Rattle.std.specs.List.{slice_index_or};
ghost use Rattle.std.specs.Int.RustNames.{unsigned_abs};
ghost use Rattle.dg_theory.specs.Rank.{canonical};
ghost use Rattle.dg_theory.specs.Firing.{degree, IsEffective, only_at, indicator, fired};
ghost use Rattle.dg_graph.specs.Sets.{in_set};
ghost use Rattle.dg_theory.specs.Sets.{IsVertexSet};
ghost use Rattle.dg_chips.specs.Vector.{at, HoldsNumbers, IsDivisorVector, IsOutOfRange};
ghost use Rattle.dg_chips.specs.Divisors.{IsChipFault, IsMinusFault};

use crate::firing::carried_once;
use crate::set_firing::set_firing_sums;
use crate::vector::{first_past, to_i32s};
use dg_graph::{Graph, MAX_VERTICES};
use std::marker::Model;
use thiserror::Error;

/// The largest absolute value of an amount.
pub const MAX_AMOUNT: u64 = 1_000_000;

/// Why amounts are refused as a divisor. Vertices are numbered from 0.
#[derive(Clone, Copy, Debug, PartialEq, Eq, Error)]
pub enum ChipFault {
    /// There are not as many amounts as vertices.
    #[error("number of amounts")]
    Length,
    /// The amount of the vertex is not within 1,000,000.
    #[error("amount of vertex {0}")]
    Range(usize),
}

/// An amount of dollars for each vertex of a graph, from -1,000,000 to 1,000,000; a negative one is a debt.
#[derive(Clone, Copy, PartialEq, Eq)]
pub struct Divisor {
    size: u8,
    amounts: [i32; 16],
}

impl Model for Divisor {
    ghost use Rattle.dg_chips.specs.Vector.{Vector, IsDivisorVector};

    ghost Value = { Vector };

    ghost view = { λ a. record { size = a.size; numbers = a.amounts } };

    ghost invariant = { λ a. IsDivisorVector (record { size = a.size; numbers = a.amounts }) };

    ghost inverse = { λ x. record { size = x.size; amounts = x.numbers } };
}

impl Divisor {
    /// The divisor with these amounts, in vertex order.
    ///
    /// Refused with `Length` if there are not as many as vertices, then with `Range` for the first vertex whose
    /// amount is not within 1,000,000.
    pub fn new(graph: &Graph, amounts: &[i64]) -> Result<Divisor, ChipFault>
        ensures { MatchResult result
            (λ d. (d.size ≡ graph.now.size) × HoldsNumbers amounts.now d × IsDivisorVector d)
            (IsChipFault graph.now.size amounts.now) }
    {
        let size = graph.size();
        if amounts.len() != size {
            return Err(ChipFault::Length);
        }
        if let Some(v) = first_past(amounts, MAX_AMOUNT) {
            return Err(ChipFault::Range(v));
        }
        Ok(Divisor::sized(amounts))
    }

    /// The divisor with these amounts, in vertex order. The conditions are that there are at most 16, and that each is
    /// within 1,000,000.
    pub fn sized(amounts: &[i64]) -> Divisor
        requires few { length amounts.now ≤ MAX_VERTICES }
        requires range { (v : ℕ) → v < length amounts.now →
            unsigned_abs (slice_index_or amounts.now v (pos 0)) ≤ MAX_AMOUNT }
        ensures { HoldsNumbers amounts.now result }
    {
        Divisor::from_array(amounts.len(), to_i32s(amounts))
    }

    /// The divisor that is kept as this row.
    fn from_array(size: usize, amounts: [i32; 16]) -> Divisor
        requires { IsDivisorVector (record { size = size; numbers = amounts }) }
        ensures row { result ≡ record { size = size; numbers = amounts } }
        ensures divisor { IsDivisorVector result }
    {
        let size = size as u8;
        Divisor { size, amounts }
    }

    /// The canonical divisor of a graph: at each vertex two dollars less than it has edges.
    pub fn canonical(graph: &Graph) -> Divisor
        ensures size { result.size ≡ graph.now.size }
        ensures amounts { (v : ℕ) → v < graph.now.size → at result v ≡ canonical graph.now v }
    {
        let size = graph.size();
        let mut amounts = [0; 16];
        for v in 0..size {
            amounts[v] = i32::from(graph.valence(v)) - 2;
        }
        Divisor::from_array(size, amounts)
    }

    /// The divisor less another one: at each vertex the difference of the amounts.
    ///
    /// Refused with `Length` if the other has another number of vertices, then with `Range` for the first vertex at
    /// which the difference is not within 1,000,000.
    pub fn minus(&self, other: &Divisor) -> Result<Divisor, ChipFault>
        ensures { MatchResult result
            (λ d. (d.size ≡ self.now.size) × (other.now.size ≡ self.now.size)
            × ((v : ℕ) → v < self.now.size → at d v ≡ at self.now v -ℤ at other.now v))
            (IsMinusFault self.now other.now) }
    {
        let size = self.size();
        if other.size() != size {
            return Err(ChipFault::Length);
        }
        let mut amounts = [0; 16];
        for v in 0..size {
            let amount = self.get(v) - other.get(v);
            if amount.unsigned_abs() > MAX_AMOUNT {
                return Err(ChipFault::Range(v));
            }
            amounts[v] = amount as i32;
        }
        Ok(Divisor::from_array(size, amounts))
    }

    /// The number of vertices.
    pub fn size(&self) -> usize
        ensures size { result ≡ self.now.size }
        ensures divisor { IsDivisorVector self.now }
    {
        usize::from(self.size)
    }

    /// The amounts in vertex order, with zeros past the last.
    pub fn amounts(&self) -> &[i32; 16]
        ensures amounts { result.now ≡ self.now.numbers }
        ensures divisor { IsDivisorVector self.now }
    {
        &self.amounts
    }

    /// The sum of all amounts.
    pub fn degree(&self) -> i64
        ensures { result ≡ degree self.now.size (at self.now) }
    {
        let mut sum = 0;
        for v in 0..self.size() {
            sum += self.get(v);
        }
        sum
    }

    /// Whether no vertex is in debt.
    pub fn is_effective(&self) -> bool
        ensures { IsTrue result ↔ IsEffective self.now.size (at self.now) }
    {
        for v in 0..self.size() {
            if self.get(v) < 0 {
                return false;
            }
        }
        true
    }

    /// The amount of a vertex.
    pub fn get(&self, v: usize) -> i64
        requires { v < self.now.size }
        ensures amount { result ≡ at self.now v }
        ensures limit { unsigned_abs result ≤ MAX_AMOUNT }
    {
        let _size = self.size;
        let amounts = &self.amounts;
        i64::from(amounts[v])
    }

    /// The divisor with so many dollars more at one vertex, at most 1,000,000 more or less; `None` if the vertex
    /// would not hold an amount within 1,000,000.
    pub fn checked_add_at(&self, v: usize, dollars: i64) -> Option<Divisor>
        requires vertex { v < self.now.size }
        requires dollars { unsigned_abs dollars ≤ MAX_AMOUNT }
        ensures { MatchOption result
            (MAX_AMOUNT < unsigned_abs (at self.now v +ℤ dollars))
            (λ d. (d.size ≡ self.now.size)
            × ((w : ℕ) → w < self.now.size → at d w ≡ at self.now w +ℤ only_at v dollars w)
            × IsDivisorVector d) }
    {
        let amount = self.get(v) + dollars;
        if amount.unsigned_abs() > MAX_AMOUNT {
            return None;
        }
        let size = self.size;
        let mut amounts = self.amounts;
        amounts[v] = amount as i32;
        Some(Divisor { size, amounts })
    }

    /// The divisor after a vertex has lent once, or borrowed once if `scaled` is -1; `None` if an amount is then not within
    /// 1,000,000.
    pub(crate) fn after_lending(&self, graph: &Graph, v: usize, times: i32) -> Option<Divisor>
        requires size { self.now.size ≡ graph.now.size }
        requires vertex { v < graph.now.size }
        requires times { unsigned_abs times ≤ 1 }
        ensures { MatchOption result
            (IsOutOfRange graph.now.size (fired graph.now (at self.now) (only_at v times)))
            (λ d. (d.size ≡ graph.now.size)
            × ((w : ℕ) → w < graph.now.size →
            at d w ≡ fired graph.now (at self.now) (only_at v times) w)
            × IsDivisorVector d) }
    {
        let size = graph.size();
        let row = graph.row(v);
        let mut amounts = self.amounts;
        amounts[v] -= carried_once(graph.valence(v), times);
        let mut fits = true;
        for w in 0..16 {
            amounts[w] += carried_once(row[w], times);
            fits &= u64::from(amounts[w].unsigned_abs()) <= MAX_AMOUNT;
        }
        if !fits {
            return None;
        }
        Some(Divisor::from_array(size, amounts))
    }

    /// The divisor after each vertex of a set has lent once; `None` if an amount is then not within 1,000,000.
    pub(crate) fn after_firing(&self, graph: &Graph, set: u16) -> Option<Divisor>
        requires size { self.now.size ≡ graph.now.size }
        requires vertices { IsVertexSet graph.now.size (in_set set) }
        ensures { MatchOption result
            (IsOutOfRange graph.now.size (fired graph.now (at self.now) (indicator (in_set set))))
            (λ d. (d.size ≡ graph.now.size)
            × ((w : ℕ) → w < graph.now.size →
            at d w ≡ fired graph.now (at self.now) (indicator (in_set set)) w)
            × IsDivisorVector d) }
    {
        let size = graph.size();
        let (got, lent) = set_firing_sums(graph, set);
        let mut amounts = self.amounts;
        let mut fits = true;
        for w in 0..16 {
            amounts[w] += i32::from(got[w]) - i32::from(lent[w]);
            fits &= u64::from(amounts[w].unsigned_abs()) <= MAX_AMOUNT;
        }
        if !fits {
            return None;
        }
        Some(Divisor::from_array(size, amounts))
    }
}
