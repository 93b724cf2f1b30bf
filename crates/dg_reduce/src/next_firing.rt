//! Which vertices lend next if nobody off q is in debt, and how often.

ghost use Rattle.std.specs.Prelude.{◌≡◌, ℕ, ◌<◌, ◌≤◌, ◌^◌, true, MatchOption};
ghost use Rattle.std.specs.Int.RustNames.{unsigned_abs};
ghost use Rattle.dg_theory.specs.Firing.{IsEffectiveOff};
ghost use Rattle.dg_theory.specs.Reduced.{IsReduced};
ghost use Rattle.dg_theory.specs.Burning.{IsLegalSetFiring};
ghost use Rattle.dg_graph.specs.Sets.{in_set};
ghost use Rattle.dg_chips.specs.Vector.{at};
ghost use Rattle.dg_reduce.specs.Firings.{IsNextFiring};

use crate::max_firings::max_firings;
use dg_burn::burn;
use dg_chips::Wide;
use dg_graph::Graph;

/// The set that burning from q leaves, and how often it can fire at once so that nobody off q comes into debt; `None`
/// if all vertices burn. The number is within 2^120, as the amounts are.
pub fn next_firing(graph: &Graph, q: usize, chips: &Wide) -> Option<(u16, i128)>
    requires size { chips.now.size ≡ graph.now.size }
    requires vertex { q < graph.now.size }
    requires no_debt { IsEffectiveOff graph.now q (at chips.now) }
    requires range { (v : ℕ) → v < graph.now.size → unsigned_abs (at chips.now v) ≤ 2 ^ 120 }
    ensures { MatchOption result
        (IsReduced graph.now q (at chips.now))
        (λ next. IsNextFiring graph.now q (at chips.now) (in_set next.0) next.1) }
{
    let set = unburnt(graph, q, chips)?;
    Some((set, max_firings(graph, chips, set)))
}

/// The set of the vertices that do not burn, if there are any.
fn unburnt(graph: &Graph, q: usize, chips: &Wide) -> Option<u16>
    requires size { chips.now.size ≡ graph.now.size }
    requires vertex { q < graph.now.size }
    requires no_debt { IsEffectiveOff graph.now q (at chips.now) }
    ensures { MatchOption result
        (IsReduced graph.now q (at chips.now))
        (λ set. IsLegalSetFiring graph.now q (at chips.now) (in_set set)
        × ((v : ℕ) × (in_set set v ≡ true))) }
{
    let burnt = burn(graph, q, chips);
    if burnt.unburnt == 0 {
        return None;
    }
    Some(burnt.unburnt)
}
