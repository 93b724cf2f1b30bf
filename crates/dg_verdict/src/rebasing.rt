//! Verdicts that are carried along a drift.

ghost use Rattle.std.specs.Prelude.{◌≡◌, ℕ, ◌<◌, ◌+ℤ◌, ◌-ℤ◌};
ghost use Rattle.dg_theory.specs.Multigraph.{Multigraph, IsMultigraph};
ghost use Rattle.dg_theory.specs.Firing.{Amounts, fired};
ghost use Rattle.dg_chips.specs.Vector.{at};
ghost use Rattle.dg_verdict.specs.Right.{IsRightVerdict};
ghost use Rattle.dg_verdict.specs.Rebasing.{IsRebasable};

use crate::verdict::Verdict;
use dg_chips::Drift;

/// The verdict for the position to which a drift leads from that of a right verdict. Only the script is another: firing
/// changes neither whether a divisor is winnable nor which reduced divisor it leads to. It takes no memory.
pub fn rebase(q: usize, verdict: &Verdict, drift: &Drift) -> Verdict
    requires { IsRebasable q verdict.now drift.now }
    ensures winnable { result.winnable ≡ verdict.now.winnable }
    ensures reduced { result.reduced ≡ verdict.now.reduced }
    ensures order { result.order ≡ verdict.now.order }
    ensures right { (g : Multigraph) (D : Amounts) → IsMultigraph g → q < g.size →
        IsRightVerdict g q D verdict.now →
        drift.now.size ≡ g.size → IsRightVerdict g q (fired g D (at drift.now)) result }
    ensures size { result.script.size ≡ verdict.now.script.size }
    ensures entries { (v : ℕ) → v < result.script.size →
        at result.script v ≡ at verdict.now.script v -ℤ at drift.now v +ℤ at drift.now q }
{
    Verdict {
        winnable: verdict.winnable,
        script: verdict.script.rebased(drift, q),
        reduced: verdict.reduced,
        order: verdict.order,
    }
}
