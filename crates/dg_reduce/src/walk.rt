//! A walk: amounts at the start, amounts now, and the script between them.

ghost use Rattle.std.specs.Prelude.{◌≡◌, ℕ, ◌<◌, ◌≤◌, ◌^◌, pos};
ghost use Rattle.std.specs.Int.RustNames.{unsigned_abs};
ghost use Rattle.dg_graph.specs.Sets.{in_set};
ghost use Rattle.dg_chips.specs.Vector.{at};
ghost use Rattle.dg_reduce.specs.States.{IsFiringTrace, IsTraceAfter};

use dg_chips::Wide;
use dg_graph::Graph;

/// Amounts at the start, amounts now, and how often each vertex has lent to come from the first to the second.
#[derive(Clone, Copy)]
pub struct FiringTrace {
    /// The amounts at the start.
    pub start: Wide,
    /// The amounts now.
    pub chips: Wide,
    /// How often each vertex has lent.
    pub script: Wide,
}

impl FiringTrace {
    /// The walk at its start: nobody has lent.
    pub fn new(graph: &Graph, chips: &Wide) -> FiringTrace
        requires { chips.now.size ≡ graph.now.size }
        ensures tied { IsFiringTrace graph.now result }
        ensures start { result.start ≡ chips.now }
        ensures chips { result.chips ≡ chips.now }
        ensures script { (v : ℕ) → at result.script v ≡ pos 0 }
    {
        FiringTrace {
            start: *chips,
            chips: *chips,
            script: Wide::zero(graph),
        }
    }

    /// The walk after each vertex of a set has lent `scaled` times more.
    pub fn fired(&self, graph: &Graph, set: u16, times: i128) -> FiringTrace
        requires tied { IsFiringTrace graph.now self.now }
        requires chips { (v : ℕ) → v < graph.now.size →
            unsigned_abs (at self.now.chips v) ≤ 2 ^ 120 }
        requires script { (v : ℕ) → v < graph.now.size →
            unsigned_abs (at self.now.script v) ≤ 2 ^ 126 }
        requires times { unsigned_abs times ≤ 2 ^ 120 }
        ensures { IsTraceAfter graph.now (in_set set) times self.now result }
    {
        FiringTrace {
            start: self.start,
            chips: self.chips.fired(graph, set, times),
            script: self.script.plus_at_set(set, times),
        }
    }
}
