//! What is left of a table that was closed.
ghost use Rattle.std.specs.Prelude.{◌≡◌, ◌<◌, length, slice_get, Some, IfOk};

use crate::OutOfMemory;
use dg_chips::Divisor;
use dg_graph::Graph;
use dg_log::{Log, Name, Pen};
use dg_rules::Entry;
use std::alloc::Global;

/// The history of a table that was closed, and what was counted in it.
#[derive(Drop)]
pub struct Audit<N: Name> {
    /// How many entries there are.
    pub entries: u32,
    /// How many gifts, levies and joins were accepted.
    pub gifts: u32,
    /// The graph after all entries.
    pub graph: Graph,
    /// The amounts after all entries.
    pub position: Divisor,
    /// How many entries each seat has; that of seat 1 comes first.
    pub calls: [u64; 64],
    /// The cells of the history.
    pub log: Log<N>,
    pub(crate) pen: Pen<N>,
}

impl<N: Name> Audit<N> {
    /// How many entries the history has.
    pub fn len(&self) -> u32
        ensures { result ≡ length self.now.pen.entries }
    {
        self.pen.len()
    }

    /// Borrows entry `number`. The condition is that there is one.
    pub fn entry(&self, number: u32) -> &Entry
        requires { number < length self.now.pen.entries }
        ensures { slice_get self.now.pen.entries number ≡ Some result.now }
    {
        self.log.entry(&self.pen.receipt(number))
    }

    /// The history: all entries, in order.
    pub fn history(&self, alloc: Global) -> Result<Vec<Entry>, OutOfMemory>
        ensures { IfOk result (λ v. v.items ≡ self.now.pen.entries) }
    {
        let count = self.len();
        let mut entries = Vec::with_capacity(alloc, count as usize)?;
        for number in 0..count {
            entries.push(*self.entry(number))?;
        }
        Ok(entries)
    }
}
