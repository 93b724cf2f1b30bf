//! Rank tests that are computed on a look.
ghost use Rattle.std.specs.Prelude.{◌≡◌, ℕ, ◌<◌, MatchResult};
ghost use Rattle.dg_rank.specs.Limits.{IsPastLimits};
ghost use Rattle.dg_rank.specs.Ranks.{IsTestable};
ghost use Rattle.dg_rank.specs.declared.rank_fault.RankFault.TheVariants.{TooMany};
ghost use Rattle.dg_rules.specs.Look.{IsRightFinding, request_for_finding};
ghost use Rattle.dg_rules.specs.declared.entry.Request.TheVariants.{Rank as RankRequest};

use dg_rank::{RankFault, rank_at_least};
use dg_rules::{Finding, LookData};

/// The rank test of degree k for the amounts that a look showed. The conditions are those of `judge_look` of
/// `dg_rules`.
///
/// Refused with `TooMany` alone, if k is above 1,000 or there are more than 200,000 trials.
pub(crate) fn rank_look(q: usize, look: &LookData, k: u32) -> Result<Finding, RankFault>
    requires size { look.now.position.size ≡ look.now.graph.size }
    requires vertex { q < look.now.graph.size }
    ensures { MatchResult result
        (λ f. IsTestable look.now.graph.size k × IsRightFinding q look.now f ×
        ((i : ℕ) → request_for_finding i f ≡ RankRequest i k))
        (λ e. (e ≡ TooMany) × IsPastLimits look.now.graph.size k) }
{
    let verdict = rank_at_least(&look.graph, q, &look.position, k)?;
    Ok(Finding::Ranked(verdict))
}
