//! Looks at a table.
ghost use Rattle.std.specs.Prelude.{◌≡◌};
ghost use Rattle.dg_analyst.specs.Views.{IsTakenLook};

use dg_chips::Divisor;
use dg_graph::Graph;
use dg_log::{Name, Receipt};
use dg_rules::LookData;
use std::marker::Model;

/// A look at the table N, with what is needed to compute on it while others play. A contract sees the look's entry, with
/// its number, and what is kept of it.
#[derive(Drop)]
pub struct Look<N: Name> {
    pub(crate) receipt: Receipt<N>,
    pub(crate) shown: LookData,
    pub(crate) q: usize,
}

impl<N: Name> Model for Look<N> {
    ghost use Rattle.std.specs.Prelude.{◌≡◌, ◌<◌};
    ghost use Rattle.dg_analyst.specs.Views.{LookView, IsTakenLook};

    ghost Value = { LookView };

    ghost view = { λ l. record { receipt = l.receipt; shown = l.shown } };

    ghost invariant = { λ l. IsTakenLook N.table.start (record { receipt = l.receipt; shown = l.shown }) ×
        (l.q ≡ N.table.start.q) × (l.q < l.shown.graph.size) };
}

impl<N: Name> Look<N> {
    /// The receipt of the look's entry.
    pub fn receipt(&self) -> &Receipt<N>
        ensures receipt { result.now ≡ self.now.receipt }
        ensures taken { IsTakenLook N.table.start self.now }
    {
        &self.receipt
    }

    /// How many gifts, levies and joins were accepted before the look.
    pub fn gifts(&self) -> u32
        ensures { result ≡ self.now.shown.gifts }
    {
        self.shown.gifts
    }

    /// The graph on which the look was taken.
    pub fn graph(&self) -> &Graph
        ensures { result.now ≡ self.now.shown.graph }
    {
        &self.shown.graph
    }

    /// The amounts that the look showed.
    pub fn position(&self) -> &Divisor
        ensures { result.now ≡ self.now.shown.position }
    {
        &self.shown.position
    }
}
