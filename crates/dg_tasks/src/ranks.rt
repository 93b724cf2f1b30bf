//! Rank tests that are printed, and both sides of Riemann-Roch.
ghost use Rattle.std.specs.Prelude.{◌≡◌, ◌≤◌, ℤ, [], ◌++◌, codes, IfOk, IfErr, OnOk};
ghost use Rattle.dg_rank.specs.Ranks.{IsWorkerCount};
ghost use Rattle.dg_lines.specs.Texts.{HasNames, text_of};
ghost use Rattle.dg_rules.specs.declared.entry.Reply.TheVariants.{Rank};
ghost use Rattle.dg_tasks.specs.RankTests.{IsRankAnswer, RefusesRank, labelled_line, riemann_roch_text, IsRiemannRochAnswer, RefusesRiemannRoch};

use crate::fault::TaskFault;
use dg_chips::{Start, dual};
use dg_file::TableFile;
use dg_lines::reply_text;
use dg_rank::{OpenGate, RankFault, RankVerdict, both_ranks_in_limits, rank_at_least, rank_with};
use dg_rules::Reply;
use dg_system::Shortage;
use dg_tokens::Names;
use itoa::Buffer;
use std::alloc::{AllocError, Global};
use std::sync::Wait;
use std::thread::Threads;

/// Whether the rank of a table's amounts is at least k, as text: the text of a reply, and a newline. The trials are shared
/// among so many workers, 2 to 16.
pub(crate) fn rank_answer<R: Threads + Wait>(
    rt: &R,
    alloc: Global,
    table: &TableFile,
    k: u32,
    workers: u32,
) -> Result<Vec<u8>, TaskFault>
    requires some { 2 ≤ workers }
    requires workers { IsWorkerCount workers }
    ensures ranked { IfOk result
        (λ text. IsRankAnswer table.now.start k table.now.names text.items) }
    ensures refused { IfErr result (RefusesRank table.now.start.graph.size k workers) }
{
    let start = table.start();
    let (graph, q, divisor) = (start.graph(), start.q(), start.divisor());
    match rank_with(rt, graph, q, divisor, k, workers, &OpenGate) {
        Ok(verdict) => rank_line(alloc, verdict, table.names()),
        Err(RankFault::TooMany) => Err(TaskFault::TooMany),
        Err(RankFault::Workers) => unreachable!(),
        Err(RankFault::OutOfMemory) => unreachable!(),
        Err(RankFault::Spawn) => Err(TaskFault::Shortage(Shortage::Spawn)),
    }
}

/// The rank test of `rank_answer` by the thread that calls alone.
pub(crate) fn rank_answer_alone(
    alloc: Global,
    table: &TableFile,
    k: u32,
) -> Result<Vec<u8>, TaskFault>
    ensures ranked { IfOk result
        (λ text. IsRankAnswer table.now.start k table.now.names text.items) }
    ensures refused { IfErr result (RefusesRank table.now.start.graph.size k 1) }
{
    let start = table.start();
    let (graph, q, divisor) = (start.graph(), start.q(), start.divisor());
    match rank_at_least(graph, q, divisor, k) {
        Ok(verdict) => rank_line(alloc, verdict, table.names()),
        Err(_) => Err(TaskFault::TooMany),
    }
}

/// The line of a rank verdict.
fn rank_line(alloc: Global, verdict: RankVerdict, names: &Names) -> Result<Vec<u8>, TaskFault>
    requires { HasNames names.now (Rank verdict) }
    ensures printed { IfOk result
        (λ text. text.items ≡ text_of names.now (Rank verdict) ++ codes "\n") }
    ensures refused { IfErr result (λ fault. fault ≡ TaskFault.Shortage Shortage.OutOfMemory) }
{
    let mut line = reply_text(alloc, &Reply::Rank(verdict), names)?;
    line.extend_from_slice(b"\n")?;
    Ok(line)
}

/// Both sides of Riemann-Roch for a table's amounts, as text: the degree, the genus of the graph, the rank, and the rank
/// of the canonical divisor less these amounts, each on a line. The rank is -1 if the amounts can't be won.
pub(crate) fn riemann_roch_answer(alloc: Global, table: &TableFile) -> Result<Vec<u8>, TaskFault>
    ensures told { IfOk result (λ text. IsRiemannRochAnswer table.now.start text.items) }
    ensures refused { IfErr result (RefusesRiemannRoch table.now.start) }
{
    let start = table.start();
    let graph = start.graph();
    let divisor = start.divisor();
    if let Err(fault) = dual(graph, divisor) {
        return Err(TaskFault::Chip(fault));
    }
    let Some((rank, dual_rank)) = both_ranks_in_limits(graph, divisor) else {
        return Err(TaskFault::TooMany);
    };
    let mut text = Vec::new(alloc);
    push_riemann_roch(&mut text, start, rank, dual_rank)?;
    Ok(text)
}

/// The four lines of a start with these two ranks, into an empty text.
fn push_riemann_roch(
    text: &mut Vec<u8>,
    start: &Start,
    rank: i64,
    dual_rank: i64,
) -> Result<(), AllocError>
    requires { text.old.items ≡ [] }
    ensures { OnOk result (text.new.items ≡ riemann_roch_text start.now rank dual_rank) }
{
    push_labelled(text, "degree ", start.divisor().degree())?;
    push_labelled(text, "genus ", i64::from(start.graph().genus()))?;
    push_labelled(text, "rank ", rank)?;
    push_labelled(text, "dual ", dual_rank)
}

/// A label, a number and a newline.
fn push_labelled(text: &mut Vec<u8>, label: &str, number: i64) -> Result<(), AllocError>
    ensures { OnOk result (text.new.items ≡ text.old.items ++ labelled_line label.now number) }
{
    text.extend_from_slice(label.as_bytes())?;
    text.extend_from_slice(Buffer::new().format(number).as_bytes())?;
    text.extend_from_slice(b"\n")
}
