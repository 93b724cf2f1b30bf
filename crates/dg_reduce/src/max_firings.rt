//! How often a set of vertices can fire at once.

ghost use Rattle.std.specs.Prelude.{◌≡◌, ℕ, ◌<◌, ◌≤◌, true, pos, ◌≤ℤ◌, ◌<ℤ◌, ◌*ℤ◌, ◌+ℤ◌};
ghost use Rattle.dg_theory.specs.Reduced.{edges_out};
ghost use Rattle.dg_theory.specs.Burning.{IsLegalSetFiring};
ghost use Rattle.dg_graph.specs.Sets.{in_set};
ghost use Rattle.dg_chips.specs.Vector.{at};
ghost use Rattle.dg_reduce.specs.Firings.{IsMaxFirings, LastsForFirings};

use dg_chips::Wide;
use dg_graph::{Graph, contains};

/// How often a set that has a member and fires freely can fire at once so that nobody off q comes into debt. It is the
/// same number for each q for which the set fires freely.
pub fn max_firings(graph: &Graph, chips: &Wide, set: u16) -> i128
    requires size { chips.now.size ≡ graph.now.size }
    requires free { (q : ℕ) × (q < graph.now.size)
        × IsLegalSetFiring graph.now q (at chips.now) (in_set set) }
    requires member { (v : ℕ) × (in_set set v ≡ true) }
    ensures { (q : ℕ) → q < graph.now.size → IsLegalSetFiring graph.now q (at chips.now) (in_set set) →
        IsMaxFirings graph.now q (at chips.now) (in_set set) result }
{
    let mut most = i128::MAX;
    for v in 0..graph.size() {
        let times = max_firings_at(graph, chips, set, v);
        if times < most {
            most = times;
        }
    }
    most
}

/// For how many firings of the set a vertex has dollars; `i128::MAX` if it sends none.
fn max_firings_at(graph: &Graph, chips: &Wide, set: u16, v: usize) -> i128
    requires size { chips.now.size ≡ graph.now.size }
    requires vertex { v < graph.now.size }
    requires once { in_set set v ≡ true →
        pos (edges_out graph.now (in_set set) v) ≤ℤ at chips.now v }
    ensures { LastsForFirings graph.now (at chips.now) (in_set set) v result }
{
    let _size = graph.size();
    if !contains(set, v) {
        return i128::MAX;
    }
    let edges = graph.edges_out(set, v);
    if edges == 0 {
        return i128::MAX;
    }
    max_firings_within(chips.get(v), edges)
}

/// How often some edges can carry a dollar each out of an amount.
fn max_firings_within(amount: i128, edges: u32) -> i128
    requires some { 0 < edges }
    requires once { pos edges ≤ℤ amount }
    ensures some { pos 1 ≤ℤ result }
    ensures enough { (pos edges *ℤ result) ≤ℤ amount }
    ensures last { amount <ℤ (pos edges *ℤ (result +ℤ pos 1)) }
{
    (amount.unsigned_abs() / u128::from(edges)) as i128
}
