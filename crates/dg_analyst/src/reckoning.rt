//! What is computed on looks, with no table at hand.
ghost use Rattle.std.specs.Prelude.{◌≡◌, ◌≤◌, MatchResult, IfErr};
ghost use Rattle.dg_analyst.specs.Commits.{IsReckoned};
ghost use Rattle.dg_analyst.specs.Views.{IsTried};
ghost use Rattle.dg_rank.specs.Ranks.{IsRankFault};
ghost use Rattle.dg_rules.specs.Look.{IsRightFinding};

use crate::looks::Look;
use dg_log::Name;
use dg_rank::{Gate, OpenGate, RankFault, rank_at_least, rank_with};
use dg_rules::Finding;
use dg_verdict::{RankVerdict, Verdict, judge};
use std::marker::Model;
use std::sync::Wait;
use std::thread::Threads;

/// A look at the table N, and the verdict on the amounts that it showed. A contract sees both.
#[derive(Drop)]
pub struct Reckoned<N: Name> {
    pub(crate) look: Look<N>,
    pub(crate) verdict: Verdict,
}

impl<N: Name> Model for Reckoned<N> {
    ghost use Rattle.dg_analyst.specs.Views.{LookWithFinding};
    ghost use Rattle.dg_rules.specs.declared.finding.Finding.TheVariants.{Judged};
    ghost use Rattle.dg_rules.specs.Look.{IsRightFinding};
    ghost use Rattle.dg_verdict.specs.declared.verdict.Verdict.{Verdict as VerdictData};

    ghost Value = { LookWithFinding VerdictData };

    ghost view = { λ r. record { look = r.look; verdict = r.verdict } };

    ghost invariant = { λ r. IsRightFinding N.table.start.q r.look.shown (Judged r.verdict) };
}

impl<N: Name> Reckoned<N> {
    /// The look.
    pub fn look(&self) -> &Look<N>
        ensures { result.now ≡ self.now.look }
    {
        &self.look
    }

    /// The verdict.
    pub fn verdict(&self) -> &Verdict
        ensures verdict { result.now ≡ self.now.verdict }
        ensures right { IsRightFinding N.table.start.q self.now.look.shown (Finding.Judged self.now.verdict) }
    {
        &self.verdict
    }
}

/// A look at the table N, and the answer of a rank test for the amounts that it showed. A contract sees both.
#[derive(Drop)]
pub struct Tried<N: Name> {
    pub(crate) look: Look<N>,
    pub(crate) verdict: RankVerdict,
}

impl<N: Name> Model for Tried<N> {
    ghost use Rattle.dg_analyst.specs.Views.{LookWithFinding};
    ghost use Rattle.dg_rules.specs.declared.finding.Finding.TheVariants.{Ranked};
    ghost use Rattle.dg_verdict.specs.declared.rank_verdict.RankVerdict.{RankVerdict as RankData};
    ghost use Rattle.dg_rules.specs.Look.{IsRightFinding};

    ghost Value = { LookWithFinding RankData };

    ghost view = { λ t. record { look = t.look; verdict = t.verdict } };

    ghost invariant = { λ t. IsRightFinding N.table.start.q t.look.shown (Ranked t.verdict) };
}

impl<N: Name> Tried<N> {
    /// The look.
    pub fn look(&self) -> &Look<N>
        ensures { result.now ≡ self.now.look }
    {
        &self.look
    }

    /// The answer of the rank test, with its degree.
    pub fn verdict(&self) -> &RankVerdict
        ensures verdict { result.now ≡ self.now.verdict }
        ensures right { IsRightFinding N.table.start.q self.now.look.shown (Finding.Ranked self.now.verdict) }
    {
        &self.verdict
    }
}

/// The verdict on the amounts that a look showed, on its graph, computed from the vertex of the start. It takes no lock,
/// and needs no memory.
pub fn reckon<N: Name>(look: Look<N>) -> Reckoned<N>
    ensures { IsReckoned N.table.start.q look result }
{
    let verdict = judge(&look.shown.graph, look.q, &look.shown.position);
    Reckoned { look, verdict }
}

/// The rank test of degree k for the amounts that a look showed, on its graph, as `rank_with` makes it from the vertex of
/// the start, with so many workers and this gate. It takes no lock of a table.
///
/// Refused with `TooMany` if the degree is above 1,000 or there are more than 200,000 trials; then with `Workers`
/// if their number is not 1 to 16; and with `Spawn` if a thread could not be started. The look comes back.
pub fn try_rank<N: Name, R: Threads + Wait, G: Gate>(
    rt: &R,
    look: Look<N>,
    k: u32,
    workers: u32,
    gate: &G,
) -> Result<Tried<N>, (Look<N>, RankFault)>
    ensures { MatchResult result
        (λ t. (t.look ≡ look) × IsTried look k workers t.verdict)
        (λ e. (e.0 ≡ look) × IsRankFault look.shown.graph.size k workers e.1) }
{
    let position = &look.shown.position;
    match rank_with(rt, &look.shown.graph, look.q, position, k, workers, gate) {
        Ok(verdict) => Ok(Tried { look, verdict }),
        Err(fault) => Err((look, fault)),
    }
}

/// The rank test of degree k as `try_rank` makes it with so many workers and no gate. One worker is the thread that calls: it
/// waits for nothing, and needs no memory.
///
/// Refused as `try_rank`, but by one worker with `TooMany` alone. The look comes back.
pub fn try_rank_ungated<N: Name, R: Threads + Wait>(
    rt: &R,
    look: Look<N>,
    k: u32,
    workers: u32,
) -> Result<Tried<N>, (Look<N>, RankFault)>
    ensures tried { MatchResult result
        (λ t. (t.look ≡ look) × IsTried look k workers t.verdict)
        (λ e. (e.0 ≡ look) × IsRankFault look.shown.graph.size k workers e.1) }
    ensures alone { workers ≡ 1 → IfErr result (λ e. e.1 ≡ RankFault.TooMany) }
    ensures spawn { IfErr result (λ e. e.1 ≡ RankFault.Spawn → 2 ≤ workers) }
{
    if workers != 1 {
        return try_rank(rt, look, k, workers, &OpenGate);
    }
    match rank_at_least(&look.shown.graph, look.q, &look.shown.position, k) {
        Ok(verdict) => Ok(Tried { look, verdict }),
        Err(_) => Err((look, RankFault::TooMany)),
    }
}
