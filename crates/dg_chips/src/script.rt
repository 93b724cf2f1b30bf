//! Scripts: how often each vertex lends.

ghost use Rattle.std.specs.Prelude.{◌≡◌, ℕ, ◌<◌, ◌≤◌, pos, length, ◌+ℤ◌, ◌-ℤ◌, MatchResult, MatchBool};
ghost use Rattle.std.specs.List.{slice_index_or};
ghost use Rattle.std.specs.Int.RustNames.{unsigned_abs};
ghost use Rattle.dg_theory.specs.Firing.{FiresTo};
ghost use Rattle.dg_chips.specs.Vector.{at, HoldsNumbers, IsScriptVector};
ghost use Rattle.dg_chips.specs.Scripts.{IsScriptFault};

use crate::divisor::Divisor;
use crate::drift::Drift;
use crate::firing::leads;
use crate::vector::{first_past, to_i32s, to_i64s};
use crate::wide::Wide;
use dg_graph::{Graph, MAX_VERTICES};
use std::marker::Model;
use thiserror::Error;

/// The largest absolute value of an entry.
pub const MAX_ENTRY: u64 = 1_000_000_000;

/// Why numbers are refused as a script. Vertices are numbered from 0.
#[derive(Clone, Copy, Debug, PartialEq, Eq, Error)]
pub enum ScriptFault {
    /// There are not as many numbers as vertices.
    #[error("number of script entries")]
    Length,
    /// The number of the vertex is not within 1,000,000,000.
    #[error("script entry of vertex {0}")]
    Limit(usize),
}

/// How often each vertex lends, from -1,000,000,000 to 1,000,000,000; a negative number is so many borrowings.
#[derive(Clone, Copy, PartialEq, Eq)]
pub struct Script {
    size: u8,
    entries: [i32; 16],
}

impl Model for Script {
    ghost use Rattle.dg_chips.specs.Vector.{Vector, IsScriptVector};

    ghost Value = { Vector };

    ghost view = { λ a. record { size = a.size; numbers = a.entries } };

    ghost invariant = { λ a. IsScriptVector (record { size = a.size; numbers = a.entries }) };

    ghost inverse = { λ x. record { size = x.size; entries = x.numbers } };
}

impl Script {
    /// The script with these entries, in vertex order.
    ///
    /// Refused with `Length` if there are not as many as vertices, then with `Limit` for the first vertex whose
    /// entry is not within 1,000,000,000.
    pub fn new(graph: &Graph, entries: &[i64]) -> Result<Script, ScriptFault>
        ensures { MatchResult result
            (λ s. (s.size ≡ graph.now.size) × HoldsNumbers entries.now s × IsScriptVector s)
            (IsScriptFault graph.now.size entries.now) }
    {
        let size = graph.size();
        if entries.len() != size {
            return Err(ScriptFault::Length);
        }
        if let Some(v) = first_past(entries, MAX_ENTRY) {
            return Err(ScriptFault::Limit(v));
        }
        Ok(Script::sized(entries))
    }

    /// The script with these entries, in vertex order. The conditions are that there are at most 16, and that each is
    /// within 1,000,000,000.
    pub fn sized(entries: &[i64]) -> Script
        requires few { length entries.now ≤ MAX_VERTICES }
        requires limit { (v : ℕ) → v < length entries.now →
            unsigned_abs (slice_index_or entries.now v (pos 0)) ≤ MAX_ENTRY }
        ensures { HoldsNumbers entries.now result }
    {
        Script::from_array(entries.len(), to_i32s(entries))
    }

    /// The script with the first `size` of these entries. The conditions are that `size` is at most 16, and that each entry is
    /// within 1,000,000,000.
    pub fn from_prefix(size: usize, entries: &[i32; 16]) -> Script
        requires few { size ≤ MAX_VERTICES }
        requires limit { (v : ℕ) → unsigned_abs (slice_index_or entries.now v (pos 0)) ≤ MAX_ENTRY }
        ensures size { result.size ≡ size }
        ensures entries { (v : ℕ) → v < size → at result v ≡ slice_index_or entries.now v (pos 0) }
    {
        let mut first = [0; 16];
        for v in 0..16 {
            let entry = if v < size { entries[v] } else { 0 };
            first[v] = entry;
        }
        Script::from_array(size, first)
    }

    /// The script that is kept as this row.
    fn from_array(size: usize, entries: [i32; 16]) -> Script
        requires { IsScriptVector (record { size = size; numbers = entries }) }
        ensures { result ≡ record { size = size; numbers = entries } }
    {
        let size = size as u8;
        Script { size, entries }
    }

    /// The script by which each vertex lends as often as its amount exceeds that of q.
    pub fn relative_to(lendings: &Wide, q: usize) -> Script
        requires vertex { q < lendings.now.size }
        requires limit { (v : ℕ) → v < lendings.now.size →
            unsigned_abs (at lendings.now v -ℤ at lendings.now q) ≤ MAX_ENTRY }
        ensures size { result.size ≡ lendings.now.size }
        ensures entries { (v : ℕ) → v < lendings.now.size →
            at result v ≡ at lendings.now v -ℤ at lendings.now q }
    {
        let size = lendings.size();
        let mut entries = [0; 16];
        for v in 0..size {
            entries[v] = (lendings.get(v) - lendings.get(q)) as i32;
        }
        Script::from_array(size, entries)
    }

    /// The script by which each vertex lends as often as by this one and another together.
    pub fn plus(&self, other: &Script) -> Script
        requires size { other.now.size ≡ self.now.size }
        requires limit { (v : ℕ) → v < self.now.size →
            unsigned_abs (at self.now v +ℤ at other.now v) ≤ MAX_ENTRY }
        ensures size { result.size ≡ self.now.size }
        ensures entries { (v : ℕ) → v < self.now.size →
            at result v ≡ at self.now v +ℤ at other.now v }
    {
        let size = self.size();
        let mut entries = [0; 16];
        for v in 0..size {
            entries[v] = (self.get(v) + other.get(v)) as i32;
        }
        Script::from_array(size, entries)
    }

    /// What this script lends more than a drift, with the drift's number for q added at each vertex: so q lends as often
    /// as by this script.
    pub fn rebased(&self, drift: &Drift, q: usize) -> Script
        requires size { drift.now.size ≡ self.now.size }
        requires vertex { q < self.now.size }
        requires limit { (v : ℕ) → v < self.now.size →
            unsigned_abs (at self.now v -ℤ at drift.now v +ℤ at drift.now q) ≤ MAX_ENTRY }
        ensures size { result.size ≡ self.now.size }
        ensures entries { (v : ℕ) → v < self.now.size →
            at result v ≡ at self.now v -ℤ at drift.now v +ℤ at drift.now q }
    {
        let size = self.size();
        let mut entries = [0; 16];
        for v in 0..size {
            entries[v] = (self.get(v) - drift.get(v) + drift.get(q)) as i32;
        }
        Script::from_array(size, entries)
    }

    /// Whether firing by this script leads from a divisor to some amounts.
    pub fn leads(&self, graph: &Graph, from: &Divisor, to: &Wide) -> bool
        requires size { self.now.size ≡ graph.now.size }
        requires from { from.now.size ≡ graph.now.size }
        requires to { to.now.size ≡ graph.now.size }
        ensures { MatchBool result
            (FiresTo graph.now (at self.now) (at from.now) (at to.now))
            (¬ FiresTo graph.now (at self.now) (at from.now) (at to.now)) }
    {
        leads(graph, &self.entries(), from, to)
    }

    /// The number of vertices.
    pub fn size(&self) -> usize
        ensures size { result ≡ self.now.size }
        ensures script { IsScriptVector self.now }
    {
        usize::from(self.size)
    }

    /// How often each vertex lends, and 0 past the last one.
    pub fn entries(&self) -> [i64; 16]
        ensures entries { result ≡ self.now.numbers }
        ensures script { IsScriptVector self.now }
    {
        to_i64s(&self.entries)
    }

    /// The same in 32 bits.
    pub(crate) fn as_array(&self) -> &[i32; 16]
        ensures entries { result.now ≡ self.now.numbers }
        ensures script { IsScriptVector self.now }
    {
        &self.entries
    }

    /// How often a vertex lends.
    pub fn get(&self, v: usize) -> i64
        requires { v < self.now.size }
        ensures entry { result ≡ at self.now v }
        ensures limit { unsigned_abs result ≤ MAX_ENTRY }
    {
        let _size = self.size;
        let entries = &self.entries;
        i64::from(entries[v])
    }
}
