//! Tables that are judged.
ghost use Rattle.std.specs.Prelude.{IfOk, IfErr, ◌≡◌};
ghost use Rattle.dg_lines.specs.Judgements.{IsJudgementText};

use crate::fault::TaskFault;
use dg_file::TableFile;
use dg_lines::push_judgement;
use dg_system::Shortage;
use dg_verdict::judge;
use std::alloc::Global;

/// The verdict on a table's amounts as text, computed from its vertex q: the text of a reply; if it is `ordered`, the order in
/// which the vertices burn; and a newline.
pub(crate) fn verdict_answer(
    alloc: Global,
    table: &TableFile,
    ordered: bool,
) -> Result<Vec<u8>, TaskFault>
    ensures judged { IfOk result
        (λ text. IsJudgementText table.now.start table.now.names ordered text.items) }
    ensures refused { IfErr result (λ fault. fault ≡ TaskFault.Shortage Shortage.OutOfMemory) }
{
    let start = table.start();
    let verdict = judge(start.graph(), start.q(), start.divisor());
    let mut text = Vec::new(alloc);
    push_judgement(&mut text, table.names(), &verdict, ordered)?;
    Ok(text)
}
