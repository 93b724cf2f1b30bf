//! Wide amounts: dollars for each vertex, of any size that 128 bits hold.

ghost use Rattle.std.specs.Prelude.{◌≡◌, ◌≢◌, ℕ, ◌<◌, ◌≤◌, ◌^◌, ◌+ℤ◌, ◌-ℤ◌, pos, MatchResult};
ghost use Rattle.std.specs.Int.RustNames.{unsigned_abs};
ghost use Rattle.dg_theory.specs.Firing.{fired, indicator, multiple};
ghost use Rattle.dg_graph.specs.Sets.{in_set};
ghost use Rattle.dg_chips.specs.Vector.{at, HoldsNumbers, IsWide};
ghost use Rattle.dg_chips.specs.Divisors.{IsWideFault};

use crate::divisor::{ChipFault, Divisor};
use crate::firing::gain_of_script;
use crate::light::gains_fit_i32;
use crate::script::Script;
use crate::set_firing::{gain_of_set, lendings};
use crate::vector::padded;
use dg_graph::Graph;
use std::marker::Model;

/// An amount of dollars for each vertex of a graph, without a divisor's limit; a negative one is a debt.
#[derive(Clone, Copy, PartialEq, Eq)]
pub struct Wide {
    size: usize,
    amounts: [i128; 16],
}

impl Model for Wide {
    ghost use Rattle.dg_chips.specs.Vector.{Vector, IsWide};

    ghost Value = { Vector };

    ghost view = { λ a. record { size = a.size; numbers = a.amounts } };

    ghost invariant = { λ a. IsWide (record { size = a.size; numbers = a.amounts }) };

    ghost inverse = { λ x. record { size = x.size; amounts = x.numbers } };
}

impl Wide {
    /// The amounts, in vertex order; refused with `Length` if there are not as many as vertices.
    pub fn new(graph: &Graph, amounts: &[i128]) -> Result<Wide, ChipFault>
        ensures { MatchResult result
            (λ x. (x.size ≡ graph.now.size) × HoldsNumbers amounts.now x × IsWide x)
            (IsWideFault graph.now.size amounts.now) }
    {
        let size = graph.size();
        if amounts.len() != size {
            return Err(ChipFault::Length);
        }
        let amounts = padded(amounts, 0);
        Ok(Wide { size, amounts })
    }

    /// The amounts of a divisor.
    pub fn of(divisor: &Divisor) -> Wide
        ensures size { result.size ≡ divisor.now.size }
        ensures amounts { (v : ℕ) → v < divisor.now.size → at result v ≡ at divisor.now v }
        ensures wide { IsWide result }
    {
        let size = divisor.size();
        let mut amounts = [0; 16];
        for v in 0..size {
            amounts[v] = i128::from(divisor.get(v));
        }
        Wide { size, amounts }
    }

    /// The amounts that are 0 at every vertex of the graph.
    pub fn zero(graph: &Graph) -> Wide
        ensures size { result.size ≡ graph.now.size }
        ensures amounts { (v : ℕ) → at result v ≡ pos 0 }
    {
        let size = graph.size();
        Wide {
            size,
            amounts: [0; 16],
        }
    }

    /// The amounts in 32 bits, with zeros past the last.
    pub fn in_32_bits(&self) -> [i32; 16]
        requires { (v : ℕ) → v < self.now.size → unsigned_abs (at self.now v) ≤ 2 ^ 30 }
        ensures amounts { result ≡ self.now.numbers }
        ensures wide { IsWide self.now }
    {
        let mut amounts = [0; 16];
        for v in 0..self.size() {
            amounts[v] = self.get(v) as i32;
        }
        amounts
    }

    /// The amounts after each vertex of a set has lent so often.
    pub fn fired(&self, graph: &Graph, set: u16, times: i128) -> Wide
        requires size { self.now.size ≡ graph.now.size }
        requires range { (v : ℕ) → v < graph.now.size → unsigned_abs (at self.now v) ≤ 2 ^ 120 }
        requires times { unsigned_abs times ≤ 2 ^ 120 }
        ensures size { result.size ≡ graph.now.size }
        ensures amounts { (v : ℕ) → v < graph.now.size →
            at result v ≡ fired graph.now (at self.now)
            (multiple times (indicator (in_set set))) v }
    {
        let size = graph.size();
        let mut amounts = [0; 16];
        for v in 0..size {
            amounts[v] = self.get(v) + gain_of_set(graph, set, times, v);
        }
        Wide { size, amounts }
    }

    /// The amounts with so many more at each vertex of a set.
    pub fn plus_at_set(&self, set: u16, times: i128) -> Wide
        requires range { (v : ℕ) → v < self.now.size → unsigned_abs (at self.now v) ≤ 2 ^ 126 }
        requires times { unsigned_abs times ≤ 2 ^ 120 }
        ensures size { result.size ≡ self.now.size }
        ensures amounts { (v : ℕ) → v < self.now.size →
            at result v ≡ at self.now v +ℤ multiple times (indicator (in_set set)) v }
    {
        let size = self.size();
        let mut amounts = [0; 16];
        for v in 0..size {
            amounts[v] = self.get(v) + lendings(set, times, v);
        }
        Wide { size, amounts }
    }

    /// The amounts less those of a divisor.
    pub fn minus(&self, divisor: &Divisor) -> Wide
        requires size { divisor.now.size ≡ self.now.size }
        requires range { (v : ℕ) → v < self.now.size → unsigned_abs (at self.now v) ≤ 2 ^ 126 }
        ensures size { result.size ≡ self.now.size }
        ensures amounts { (v : ℕ) → v < self.now.size →
            at result v ≡ at self.now v -ℤ at divisor.now v }
    {
        let size = self.size();
        let mut amounts = [0; 16];
        for v in 0..size {
            amounts[v] = self.get(v) - i128::from(divisor.get(v));
        }
        Wide { size, amounts }
    }

    /// The amounts after the lendings of a script.
    pub fn fired_by(&self, graph: &Graph, script: &Script) -> Wide
        requires size { self.now.size ≡ graph.now.size }
        requires script { script.now.size ≡ graph.now.size }
        requires range { (v : ℕ) → v < graph.now.size → unsigned_abs (at self.now v) ≤ 2 ^ 120 }
        ensures size { result.size ≡ graph.now.size }
        ensures amounts { (v : ℕ) → v < graph.now.size →
            at result v ≡ fired graph.now (at self.now) (at script.now) v }
    {
        let size = graph.size();
        let light = gains_fit_i32(graph, script.as_array());
        let mut amounts = [0; 16];
        for v in 0..size {
            let gain = gain_of_script(graph, script, light, v);
            amounts[v] = self.get(v) + i128::from(gain);
        }
        Wide { size, amounts }
    }

    /// The same amounts but at one vertex.
    pub fn with_amount(&self, v: usize, amount: i128) -> Wide
        requires { v < self.now.size }
        ensures size { result.size ≡ self.now.size }
        ensures same { at result v ≡ amount }
        ensures others { (w : ℕ) → w ≢ v → at result w ≡ at self.now w }
    {
        let size = self.size();
        let mut amounts = self.amounts;
        amounts[v] = amount;
        Wide { size, amounts }
    }

    /// The number of vertices.
    pub fn size(&self) -> usize
        ensures size { result ≡ self.now.size }
        ensures wide { IsWide self.now }
    {
        self.size
    }

    /// The amount of a vertex.
    pub fn get(&self, v: usize) -> i128
        requires { v < self.now.size }
        ensures { result ≡ at self.now v }
    {
        let _size = self.size;
        let amounts = &self.amounts;
        amounts[v]
    }
}
