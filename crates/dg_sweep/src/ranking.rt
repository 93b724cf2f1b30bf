//! Rank tests, and the four numbers of Riemann-Roch.
ghost use Rattle.std.specs.Prelude.{◌≡◌, ◌<◌, ◌++◌, [], length, codes, decimal, OnOk};
ghost use Rattle.std.specs.Fmt.{signed_decimal};
ghost use Rattle.dg_chips.specs.Starts.{IsStart};
ghost use Rattle.dg_chips.specs.Vector.{at};
ghost use Rattle.dg_lines.specs.Texts.{HasNames};
ghost use Rattle.dg_rank.specs.Ladders.{AnswersRankTest};
ghost use Rattle.dg_rank.specs.Ranks.{AreBothRanks};
ghost use Rattle.dg_sweep.specs.Answers.{AnswersRankLine, AreRanks, degree_genus_text, label, rank_line, ranks_line, unnamed_loss_line};
ghost use Rattle.dg_sweep.specs.Subjects.{subject_start};
ghost use Rattle.dg_rules.specs.declared.entry.Reply.TheVariants.{Rank};

use crate::answering::{Subject, push_reply_line};
use dg_invocation::Form;
use dg_lines::push_rank_row;
use dg_rank::{RankFault, both_ranks, has_rank_at_least, rank_at_least_by};
use dg_rules::Reply;
use dg_tokens::Names;
use dg_verdict::RankVerdict;
use itoa::Buffer;
use std::alloc::AllocError;

/// Whether the rank of a subject's amounts is at least k, into an empty buffer. If there are too many trials to name the first
/// loss, it is told without.
pub(crate) fn push_rank(
    subject: &Subject<'_>,
    names: &Names,
    k: u32,
    form: Form,
    answer: &mut Vec<u8>,
) -> Result<(), AllocError>
    requires start { IsStart (subject_start subject.now) }
    requires names { length names.now ≡ subject.now.graph.now.size }
    requires empty { answer.old.items ≡ [] }
    ensures { OnOk result
        (AnswersRankLine (subject_start subject.now) k form names.now answer.new.items) }
{
    if let Ok(verdict) = test_rank(subject, k) {
        return push_rank_test(answer, form, &verdict, names);
    }
    if has_rank_at_least(subject.graph, subject.divisor, k) {
        return push_rank_test(answer, form, &RankVerdict::AtLeast(k), names);
    }
    push_below(k, form, names.len(), answer)
}

/// The answer that is a rank test, into an empty buffer.
fn push_rank_test(
    answer: &mut Vec<u8>,
    form: Form,
    verdict: &RankVerdict,
    names: &Names,
) -> Result<(), AllocError>
    requires names { HasNames names.now (Rank verdict.now) }
    requires empty { answer.old.items ≡ [] }
    ensures { OnOk result (answer.new.items ≡ rank_line form names.now verdict.now) }
{
    match form {
        Form::Words => push_reply_line(answer, &Reply::Rank(*verdict), names),
        Form::Numbers => push_test_row(answer, verdict, names),
    }
}

/// The rank test in columns of numbers, into an empty buffer.
fn push_test_row(
    answer: &mut Vec<u8>,
    verdict: &RankVerdict,
    names: &Names,
) -> Result<(), AllocError>
    requires { answer.old.items ≡ [] }
    ensures { OnOk result (answer.new.items ≡ rank_line Form.Numbers names.now verdict.now) }
{
    match verdict {
        RankVerdict::AtLeast(_) => push_rank_row(answer, names.len(), true, None),
        RankVerdict::Below(_, loss) => push_rank_row(answer, names.len(), false, Some(loss)),
    }
}

/// The rank test of a subject.
fn test_rank(subject: &Subject<'_>, k: u32) -> Result<RankVerdict, RankFault>
    requires { IsStart (subject_start subject.now) }
    ensures { AnswersRankTest subject.now.graph.now (at subject.now.divisor.now) k result }
{
    rank_at_least_by(subject.graph, subject.inverse, subject.divisor, k)
}

/// Both ranks of a subject.
fn both_ranks_of(subject: &Subject<'_>) -> (i64, i64)
    requires { IsStart (subject_start subject.now) }
    ensures { AreBothRanks subject.now.graph.now (at subject.now.divisor.now) result }
{
    both_ranks(subject.graph, subject.inverse, subject.divisor)
}

/// That the rank is below k, with marks in place of the first loss, into an empty buffer.
fn push_below(k: u32, form: Form, size: usize, answer: &mut Vec<u8>) -> Result<(), AllocError>
    requires { answer.old.items ≡ [] }
    ensures { OnOk result (answer.new.items ≡ unnamed_loss_line form size k) }
{
    match form {
        Form::Words => push_below_words(k, answer),
        Form::Numbers => push_rank_row(answer, size, false, None),
    }
}

/// `rank below K at ?`, into an empty buffer.
fn push_below_words(k: u32, answer: &mut Vec<u8>) -> Result<(), AllocError>
    requires { answer.old.items ≡ [] }
    ensures { OnOk result (answer.new.items ≡ codes "rank below " ++ decimal k ++ codes " at ?\n") }
{
    answer.extend_from_slice(b"rank below ")?;
    answer.extend_from_slice(Buffer::new().format(k).as_bytes())?;
    answer.extend_from_slice(b" at ?\n")
}

/// The degree, the genus and the two ranks of a subject, into an empty buffer.
pub(crate) fn push_ranks(
    subject: &Subject<'_>,
    form: Form,
    answer: &mut Vec<u8>,
) -> Result<(), AllocError>
    requires start { IsStart (subject_start subject.now) }
    requires empty { answer.old.items ≡ [] }
    ensures { OnOk result (AreRanks (subject_start subject.now) form answer.new.items) }
{
    let (rank, dual_rank) = both_ranks_of(subject);
    push_ranks_line(subject, form, rank, dual_rank, answer)
}

/// The degree and the genus of a subject and these two ranks, into an empty buffer.
fn push_ranks_line(
    subject: &Subject<'_>,
    form: Form,
    rank: i64,
    dual_rank: i64,
    answer: &mut Vec<u8>,
) -> Result<(), AllocError>
    requires start { IsStart (subject_start subject.now) }
    requires empty { answer.old.items ≡ [] }
    ensures { OnOk result
        (answer.new.items ≡ ranks_line form (subject_start subject.now) rank dual_rank) }
{
    push_degree_genus(subject, form, answer)?;
    push_number(answer, form, "rank ", rank, b" ")?;
    push_number(answer, form, "dual ", dual_rank, b"\n")
}

/// The front of a line, `degree D genus G ` or these two numbers, into an empty buffer.
fn push_degree_genus(
    subject: &Subject<'_>,
    form: Form,
    answer: &mut Vec<u8>,
) -> Result<(), AllocError>
    requires start { IsStart (subject_start subject.now) }
    requires empty { answer.old.items ≡ [] }
    ensures { OnOk result (answer.new.items ≡ degree_genus_text form (subject_start subject.now)) }
{
    push_number(answer, form, "degree ", subject.divisor.degree(), b" ")?;
    push_number(
        answer,
        form,
        "genus ",
        i64::from(subject.graph.genus()),
        b" ",
    )
}

/// A number after its label, which stands in words alone, and what follows it.
fn push_number(
    answer: &mut Vec<u8>,
    form: Form,
    words: &str,
    number: i64,
    after: &[u8],
) -> Result<(), AllocError>
    ensures { OnOk result
        (answer.new.items ≡ answer.old.items ++ (label form words.now ++ signed_decimal number ++ after.now)) }
{
    push_label(answer, form, words)?;
    answer.extend_from_slice(Buffer::new().format(number).as_bytes())?;
    answer.extend_from_slice(after)
}

/// The label of a number, in words alone.
fn push_label(answer: &mut Vec<u8>, form: Form, words: &str) -> Result<(), AllocError>
    ensures { OnOk result (answer.new.items ≡ answer.old.items ++ label form words.now) }
{
    match form {
        Form::Words => answer.extend_from_slice(words.as_bytes()),
        Form::Numbers => Ok(()),
    }
}
