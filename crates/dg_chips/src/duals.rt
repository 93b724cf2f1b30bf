//! The residual of a divisor: the canonical divisor of the graph less it.
ghost use Rattle.std.specs.Prelude.{◌≡◌, MatchResult};
ghost use Rattle.dg_chips.specs.Divisors.{IsDualOf, IsDualFault};
ghost use Rattle.dg_chips.specs.Vector.{at, IsInRange};

use crate::divisor::{ChipFault, Divisor};
use dg_graph::Graph;

/// The residual of a divisor: the canonical divisor of the graph less it. The condition is that the divisor has an amount for
/// each vertex of the graph.
///
/// Refused with `Range` alone, for the first vertex at which the residual is not within 1,000,000.
pub fn dual(graph: &Graph, divisor: &Divisor) -> Result<Divisor, ChipFault>
    requires { divisor.now.size ≡ graph.now.size }
    ensures { MatchResult result
        (λ d. (d.size ≡ graph.now.size) × IsDualOf graph.now (at divisor.now) (at d) ×
        IsInRange graph.now.size (at d))
        (IsDualFault graph.now (at divisor.now)) }
{
    let dual = Divisor::canonical(graph).minus(divisor)?;
    // The clause of `size` tells that the amounts are in range.
    let _size = dual.size();
    Ok(dual)
}
