//! Verdicts, and how they are made.

ghost use Rattle.std.specs.Prelude.{◌≡◌, ◌<◌};
ghost use Rattle.dg_chips.specs.Vector.{at};
ghost use Rattle.dg_verdict.specs.Right.{IsVerdictOn};

use dg_chips::{Divisor, Script, Wide};
use dg_graph::Graph;
use dg_reduce::{InverseLaplacian, certified_by, guess};

/// Whether a divisor is winnable, with what shows it.
#[derive(Clone, Copy, PartialEq, Eq)]
pub struct Verdict {
    /// Whether some list of lendings and borrowings clears all debts.
    pub winnable: bool,
    /// The script that leads to the reduced divisor: 0 at q.
    pub script: Script,
    /// The divisor that is reduced for q.
    pub reduced: Wide,
    /// An order in which all vertices burn: it shows that the divisor is reduced.
    pub order: [u8; 16],
}

/// The verdict on a divisor, computed from vertex q. The order is that in which the least vertex burns first; past the
/// last vertex it holds zeros. It takes no memory.
pub fn judge(graph: &Graph, q: usize, divisor: &Divisor) -> Verdict
    requires size { divisor.now.size ≡ graph.now.size }
    requires vertex { q < graph.now.size }
    ensures { IsVerdictOn graph.now q (at divisor.now) result }
{
    judge_with_inverse(graph, None, q, divisor)
}

/// The verdict as `judge` gives it, whatever inverse it is given, or none. One that was made for the graph and q saves the time
/// to solve their equations again.
pub fn judge_with_inverse(
    graph: &Graph,
    inverse: Option<&InverseLaplacian>,
    q: usize,
    divisor: &Divisor,
) -> Verdict
    requires size { divisor.now.size ≡ graph.now.size }
    requires vertex { q < graph.now.size }
    ensures { IsVerdictOn graph.now q (at divisor.now) result }
{
    // The clauses of `size` say that graph and divisor are within their limits.
    let _size = graph.size();
    let _amounts = divisor.size();
    let serving = match inverse {
        Some(inverse) if inverse.serves(graph, q) => Some(inverse),
        _ => None,
    };
    let guess = guess(graph, serving, q, divisor.amounts());
    let found = certified_by(graph, q, &Wide::of(divisor), &guess.script, &guess.burning);
    Verdict {
        winnable: found.reduced.divisor.get(q) >= 0,
        script: found.reduced.script,
        reduced: found.reduced.divisor,
        order: found.order,
    }
}
