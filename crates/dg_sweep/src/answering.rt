//! Answering one line.
ghost use Rattle.std.specs.Prelude.{◌≡◌, ◌≢◌, ◌++◌, [], length, codes, OnOk};
ghost use Rattle.dg_chips.specs.Starts.{IsStart};
ghost use Rattle.dg_chips.specs.Vector.{at};
ghost use Rattle.dg_verdict.specs.Right.{IsVerdictOn};
ghost use Rattle.dg_lines.specs.Judgements.{IsJudgementText};
ghost use Rattle.dg_lines.specs.Texts.{HasNames, text_of};
ghost use Rattle.dg_sweep.specs.FaultTexts.{file_fault_words};
ghost use Rattle.dg_sweep.specs.Subjects.{subject_start};
ghost use Rattle.dg_sweep.specs.Answers.{AnswersLine, AnswersTable, IsVerdictRow, missing, refusal_line};
ghost use Rattle.dg_sweep.specs.Kinds.{answers_of};

use crate::ends::MAX_LINE;
use crate::fault_words::push_fault;
use crate::kinds::LineKind;
use crate::ranking::{push_rank, push_ranks};
use dg_chips::Divisor;
use dg_file::FileFault;
use dg_graph::Graph;
use dg_invocation::{Question, VerdictForm};
use dg_lines::{push_judgement, push_marks, push_reply, push_verdict_row};
use dg_reduce::InverseLaplacian;
use dg_rules::Reply;
use dg_tokens::Names;
use dg_verdict::{Verdict, judge_with_inverse};
use std::alloc::{AllocError, Global};

/// The answer to a line, with its newline, in place of what the buffer holds: for a table, or a table with these amounts, the
/// answer to the question on one line; or `refused` and the text of the fault that it would have as a table file. If answers are
/// numbers, `NA` stands before that in each column, and ` # ` after these. A line of more than 1,048,576 bytes has such a fault
/// too.
///
/// Refused if a growth is refused; nothing is said of what the buffer then holds.
pub fn answer_line(
    alloc: Global,
    kind: &LineKind<'_>,
    line: &[u8],
    answer: &mut Vec<u8>,
) -> Result<(), AllocError>
    ensures { OnOk result (AnswersLine (answers_of kind.now) line.now answer.new.items) }
{
    answer.clear();
    if line.len() > MAX_LINE {
        push_missing(answer, kind.columns())?;
        return answer.extend_from_slice(b"refused file too long\n");
    }
    kind.answer(alloc, line, answer)
}

/// So many columns without a number, `refused`, the text of the fault and a newline, into an empty buffer. Want of memory is no
/// fault of a line.
pub(crate) fn push_refusal(
    fault: &FileFault,
    columns: usize,
    answer: &mut Vec<u8>,
) -> Result<(), AllocError>
    requires { answer.old.items ≡ [] }
    ensures { OnOk result ((fault.now ≢ FileFault.OutOfMemory)
        × (answer.new.items ≡ refusal_line columns (file_fault_words fault.now))) }
{
    if let FileFault::OutOfMemory = fault {
        return Err(AllocError);
    }
    push_missing(answer, columns)?;
    answer.extend_from_slice(b"refused ")?;
    push_fault(answer, fault)?;
    answer.extend_from_slice(b"\n")
}

/// `NA` in so many columns and the mark before what is no number, into an empty buffer; nothing if answers are in words.
fn push_missing(answer: &mut Vec<u8>, columns: usize) -> Result<(), AllocError>
    requires { answer.old.items ≡ [] }
    ensures { OnOk result (answer.new.items ≡ missing columns) }
{
    if columns == 0 {
        return Ok(());
    }
    answer.extend_from_slice(b"NA")?;
    push_marks(answer, columns - 1)?;
    answer.extend_from_slice(b" # ")
}

/// What a question is about: amounts for the vertices of a graph, and the vertex q.
#[derive(Clone, Copy)]
pub(crate) struct Subject<'a> {
    pub(crate) graph: &'a Graph,
    pub(crate) divisor: &'a Divisor,
    pub(crate) q: usize,
    /// What serves the answers for the graph, if it was made for more than one.
    pub(crate) inverse: Option<&'a InverseLaplacian>,
}

/// The answer for a subject whose vertices have these names, into an empty buffer.
pub(crate) fn push_answer(
    question: Question,
    subject: &Subject<'_>,
    names: &Names,
    answer: &mut Vec<u8>,
) -> Result<(), AllocError>
    requires start { IsStart (subject_start subject.now) }
    requires names { length names.now ≡ subject.now.graph.now.size }
    requires empty { answer.old.items ≡ [] }
    ensures { OnOk result (AnswersTable question (subject_start subject.now) names.now answer.new.items) }
{
    match question {
        Question::Judge(VerdictForm::Words { ordered }) => {
            push_verdict(subject, names, ordered, answer)
        }
        Question::Judge(VerdictForm::Numbers) => push_columns(subject, answer),
        Question::Rank(k, form) => push_rank(subject, names, k, form, answer),
        Question::RiemannRoch(form) => push_ranks(subject, form, answer),
    }
}

/// The verdict on a subject, into an empty buffer; if it is `ordered`, with the order in which the vertices burn.
fn push_verdict(
    subject: &Subject<'_>,
    names: &Names,
    ordered: bool,
    answer: &mut Vec<u8>,
) -> Result<(), AllocError>
    requires start { IsStart (subject_start subject.now) }
    requires names { length names.now ≡ subject.now.graph.now.size }
    requires empty { answer.old.items ≡ [] }
    ensures { OnOk result (IsJudgementText (subject_start subject.now) names.now ordered answer.new.items) }
{
    let verdict = judge_subject(subject);
    push_judgement(answer, names, &verdict, ordered)
}

/// The verdict on a subject in columns of numbers, into an empty buffer.
fn push_columns(subject: &Subject<'_>, answer: &mut Vec<u8>) -> Result<(), AllocError>
    requires start { IsStart (subject_start subject.now) }
    requires empty { answer.old.items ≡ [] }
    ensures { OnOk result (IsVerdictRow (subject_start subject.now) answer.new.items) }
{
    let verdict = judge_subject(subject);
    push_verdict_row(answer, &verdict)
}

/// The verdict on a subject.
fn judge_subject(subject: &Subject<'_>) -> Verdict
    requires { IsStart (subject_start subject.now) }
    ensures { IsVerdictOn subject.now.graph.now subject.now.q (at subject.now.divisor.now) result }
{
    judge_with_inverse(subject.graph, subject.inverse, subject.q, subject.divisor)
}

/// The text of a reply and a newline, into an empty buffer.
pub(crate) fn push_reply_line(
    answer: &mut Vec<u8>,
    reply: &Reply,
    names: &Names,
) -> Result<(), AllocError>
    requires names { HasNames names.now reply.now }
    requires empty { answer.old.items ≡ [] }
    ensures { OnOk result (answer.new.items ≡ text_of names.now reply.now ++ codes "\n") }
{
    push_reply(answer, reply, names)?;
    answer.extend_from_slice(b"\n")
}
