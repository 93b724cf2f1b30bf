//! Whether amounts are reduced, and what shows it.

ghost use Rattle.std.specs.Prelude.{◌≡◌, ℕ, ◌<◌, ◌≤◌, MatchBool, MatchOption, IfSome};
ghost use Rattle.std.specs.Bool.{OnTrue};
ghost use Rattle.dg_theory.specs.Firing.{IsEffectiveOff};
ghost use Rattle.dg_theory.specs.Reduced.{IsReduced};
ghost use Rattle.dg_chips.specs.Vector.{at};
ghost use Rattle.dg_reduce.specs.Certificates.{IsFullOrder};
ghost use Rattle.dg_reduce.specs.Burnings.{CertifiesBurning, CoversOff};

use dg_burn::burn;
use dg_chips::Wide;
use dg_graph::Graph;

/// A burning from a vertex q in which all vertices burn.
#[derive(Clone, Copy)]
pub struct Burning {
    /// The amounts as far as burning looks at them: 0 for a debt, and 64 for more than 64. At q it does not look.
    pub held: [u8; 16],
    /// The order in which all vertices burn, the least first; zeros past the last.
    pub order: [u8; 16],
}

/// What `burning_order` answers, if a burning is at hand: one of the same amounts serves for another.
pub(crate) fn burning_order_by(
    graph: &Graph,
    q: usize,
    chips: &Wide,
    known: &Option<Burning>,
) -> Option<[u8; 16]>
    requires size { chips.now.size ≡ graph.now.size }
    requires vertex { q < graph.now.size }
    requires known { IfSome known.now (λ x. CertifiesBurning graph.now q x) }
    ensures { MatchOption result
        (¬ IsReduced graph.now q (at chips.now))
        (λ order. IsReduced graph.now q (at chips.now) ×
        IsFullOrder graph.now q (at chips.now) order) }
{
    let _size = graph.size();
    if let Some(burning) = known {
        if certifies(q, chips, &burning.held) {
            return Some(burning.order);
        }
    }
    burning_order(graph, q, chips)
}

/// Whether each vertex but q has as many dollars as it is held to have.
fn certifies(q: usize, chips: &Wide, held: &[u8; 16]) -> bool
    ensures { OnTrue result (CoversOff chips.now.size q (at chips.now) held.now) }
{
    for v in 0..chips.size() {
        if v != q && chips.get(v) != i128::from(held[v]) {
            return false;
        }
    }
    true
}

/// The order in which all vertices burn from q, the least first, which shows that the amounts are reduced; `None` if
/// they are not.
pub fn burning_order(graph: &Graph, q: usize, chips: &Wide) -> Option<[u8; 16]>
    requires size { chips.now.size ≡ graph.now.size }
    requires vertex { q < graph.now.size }
    ensures { MatchOption result
        (¬ IsReduced graph.now q (at chips.now))
        (λ order. IsReduced graph.now q (at chips.now) ×
        IsFullOrder graph.now q (at chips.now) order) }
{
    if !is_effective_off(graph, q, chips) {
        return None;
    }
    let burnt = burn(graph, q, chips);
    if burnt.unburnt != 0 {
        return None;
    }
    Some(burnt.order)
}

/// Whether nobody off q is in debt.
pub fn is_effective_off(graph: &Graph, q: usize, chips: &Wide) -> bool
    requires { chips.now.size ≡ graph.now.size }
    ensures { MatchBool result
        (IsEffectiveOff graph.now q (at chips.now))
        (¬ IsEffectiveOff graph.now q (at chips.now)) }
{
    for v in 0..graph.size() {
        if v != q && chips.get(v) < 0 {
            return false;
        }
    }
    true
}
