//! Drifts: sums of the scripts of moves.

ghost use Rattle.std.specs.Prelude.{◌≡◌, ℕ, ◌<◌, ◌≤◌, ◌+ℤ◌, ◌-ℤ◌, pos, MatchOption, MatchBool};
ghost use Rattle.std.specs.Int.RustNames.{unsigned_abs};
ghost use Rattle.dg_chips.specs.Vector.{at, IsDrift, IsPastDrift};
ghost use Rattle.dg_chips.specs.Moves.{move_script, IsApplicableMove};
ghost use Rattle.dg_theory.specs.Firing.{FiresTo, only_at, indicator};
ghost use Rattle.dg_graph.specs.Sets.{in_set};

use crate::divisor::Divisor;
use crate::firing::leads;
use crate::moves::Move;
use crate::script::Script;
use crate::wide::Wide;
use dg_graph::{Graph, contains};
use std::marker::Model;

/// The largest absolute value of an entry, which is a sum of entries of scripts.
pub const MAX_DRIFT: u64 = 100_000_000_000_000;

/// How often each vertex has lent by some moves together, from -100,000,000,000,000 to 100,000,000,000,000; a negative
/// number is so many borrowings.
#[derive(Clone, Copy, PartialEq, Eq)]
pub struct Drift {
    size: usize,
    entries: [i64; 16],
}

impl Model for Drift {
    ghost use Rattle.dg_chips.specs.Vector.{Vector, IsDrift};

    ghost Value = { Vector };

    ghost view = { λ a. record { size = a.size; numbers = a.entries } };

    ghost invariant = { λ a. IsDrift (record { size = a.size; numbers = a.entries }) };

    ghost inverse = { λ x. record { size = x.size; entries = x.numbers } };
}

impl Drift {
    /// The drift of no move at all: 0 at every vertex.
    pub fn zero(graph: &Graph) -> Drift
        ensures size { result.size ≡ graph.now.size }
        ensures entries { (v : ℕ) → at result v ≡ pos 0 }
    {
        let size = graph.size();
        Drift {
            size,
            entries: [0; 16],
        }
    }

    /// What the first script lends more than the second, at each vertex.
    pub fn between(first: &Script, second: &Script) -> Drift
        requires { first.now.size ≡ second.now.size }
        ensures size { result.size ≡ first.now.size }
        ensures entries { (v : ℕ) → v < first.now.size →
            at result v ≡ at first.now v -ℤ at second.now v }
    {
        let size = first.size();
        let mut entries = [0; 16];
        for v in 0..size {
            entries[v] = first.get(v) - second.get(v);
        }
        Drift { size, entries }
    }

    /// The drift with one move more.
    ///
    /// The move can be played on the graph: it names vertices of the graph alone, the set that it fires is not empty,
    /// and its script has the graph's size. With it no vertex has lent or borrowed more than 100,000,000,000,000 times.
    pub fn plus(&self, graph: &Graph, chip_move: &Move) -> Drift
        requires size { self.now.size ≡ graph.now.size }
        requires playable { IsApplicableMove graph.now.size chip_move.now }
        requires limit { (v : ℕ) → v < graph.now.size →
            unsigned_abs (at self.now v +ℤ move_script chip_move.now v) ≤ MAX_DRIFT }
        ensures size { result.size ≡ graph.now.size }
        ensures entries { (v : ℕ) → v < graph.now.size →
            at result v ≡ at self.now v +ℤ move_script chip_move.now v }
    {
        let _size = graph.size();
        match chip_move {
            Move::Lend(v) => self.plus_at(usize::from(*v), 1),
            Move::Borrow(v) => self.plus_at(usize::from(*v), -1),
            Move::Fire(set) => self.plus_set(*set),
            Move::Script(script) => self.plus_script(script),
        }
    }

    /// The drift with one lending more, or one borrowing if `scaled` is -1.
    fn plus_at(&self, v: usize, times: i64) -> Drift
        requires vertex { v < self.now.size }
        requires times { unsigned_abs times ≤ 1 }
        requires limit { unsigned_abs (at self.now v +ℤ times) ≤ MAX_DRIFT }
        ensures size { result.size ≡ self.now.size }
        ensures entries { (w : ℕ) → w < self.now.size →
            at result w ≡ at self.now w +ℤ only_at v times w }
    {
        let entry = self.get(v) + times;
        let size = self.size;
        let mut entries = self.entries;
        entries[v] = entry;
        Drift { size, entries }
    }

    /// The drift with one lending more of each vertex of a set.
    fn plus_set(&self, set: u16) -> Drift
        requires { (v : ℕ) → v < self.now.size →
            unsigned_abs (at self.now v +ℤ indicator (in_set set) v) ≤ MAX_DRIFT }
        ensures size { result.size ≡ self.now.size }
        ensures entries { (v : ℕ) → v < self.now.size →
            at result v ≡ at self.now v +ℤ indicator (in_set set) v }
    {
        let size = self.size();
        let mut entries = [0; 16];
        for v in 0..size {
            entries[v] = self.get(v) + i64::from(contains(set, v));
        }
        Drift { size, entries }
    }

    /// The drift with the lendings of a script more.
    fn plus_script(&self, script: &Script) -> Drift
        requires size { script.now.size ≡ self.now.size }
        requires limit { (v : ℕ) → v < self.now.size →
            unsigned_abs (at self.now v +ℤ at script.now v) ≤ MAX_DRIFT }
        ensures size { result.size ≡ self.now.size }
        ensures entries { (v : ℕ) → v < self.now.size →
            at result v ≡ at self.now v +ℤ at script.now v }
    {
        let size = self.size();
        let mut entries = [0; 16];
        for v in 0..size {
            entries[v] = self.get(v) + script.get(v);
        }
        Drift { size, entries }
    }

    /// What this drift lends more than an earlier one; `None` if some difference is not within 100,000,000,000,000.
    pub fn since(&self, earlier: &Drift) -> Option<Drift>
        requires { earlier.now.size ≡ self.now.size }
        ensures { MatchOption result
            (IsPastDrift self.now.size (at self.now) (at earlier.now))
            (λ d. (d.size ≡ self.now.size) ×
            ((v : ℕ) → v < self.now.size → at d v ≡ at self.now v -ℤ at earlier.now v)) }
    {
        let size = self.size();
        let mut entries = [0; 16];
        for v in 0..size {
            let more = self.get(v) - earlier.get(v);
            if more.unsigned_abs() > MAX_DRIFT {
                return None;
            }
            entries[v] = more;
        }
        Some(Drift { size, entries })
    }

    /// Whether firing by this drift leads from one divisor to another.
    pub fn leads(&self, graph: &Graph, from: &Divisor, to: &Divisor) -> bool
        requires size { self.now.size ≡ graph.now.size }
        requires from { from.now.size ≡ graph.now.size }
        requires to { to.now.size ≡ graph.now.size }
        ensures { MatchBool result
            (FiresTo graph.now (at self.now) (at from.now) (at to.now))
            (¬ FiresTo graph.now (at self.now) (at from.now) (at to.now)) }
    {
        leads(graph, &self.entries, from, &Wide::of(to))
    }

    /// The number of vertices.
    pub fn size(&self) -> usize
        ensures size { result ≡ self.now.size }
        ensures drift { IsDrift self.now }
    {
        self.size
    }

    /// How often a vertex has lent.
    pub fn get(&self, v: usize) -> i64
        requires { v < self.now.size }
        ensures entry { result ≡ at self.now v }
        ensures limit { unsigned_abs result ≤ MAX_DRIFT }
    {
        let _size = self.size;
        let entries = &self.entries;
        entries[v]
    }
}
