//! Answers in columns of bare numbers, with one space between two.
ghost use Rattle.std.specs.Prelude.{◌≡◌, ◌++◌, OnOk, option_map};
ghost use Rattle.dg_lines.specs.Columns.{loss_columns, marks, rank_row, bool_text, vector_columns, verdict_row};

use crate::amounts::Amounts;
use crate::digits::MAX_DIGITS;
use dg_chips::Divisor;
use dg_graph::MAX_VERTICES;
use dg_verdict::Verdict;
use std::alloc::{AllocError, Allocator};

/// The row of a verdict, after the text: 1 if the table is winnable, else 0; the script; the reduced divisor; and a newline.
#[inline(always)]
pub fn push_verdict_row<A: Allocator>(
    text: &mut Vec<u8, A>,
    verdict: &Verdict,
) -> Result<(), AllocError>
    ensures { OnOk result (text.new.items ≡ text.old.items ++ verdict_row verdict.now) }
{
    push_bool(text, verdict.winnable)?;
    push_columns(text, &verdict.script)?;
    push_columns(text, &verdict.reduced)?;
    text.push(b'\n')?;
    Ok(())
}

/// The row of a rank test on so many vertices, after the text: 1 if the rank is at least the degree, else 0; the first loss,
/// or `NA` for each vertex if none is named; and a newline.
pub fn push_rank_row<A: Allocator>(
    text: &mut Vec<u8, A>,
    size: usize,
    holds: bool,
    loss: Option<&Divisor>,
) -> Result<(), AllocError>
    ensures { OnOk result (text.new.items
        ≡ text.old.items ++ rank_row size holds (option_map (λ d. d.now) loss.entry)) }
{
    push_bool(text, holds)?;
    push_loss(text, size, loss)?;
    text.push(b'\n')?;
    Ok(())
}

/// What the loss takes at each vertex; `NA` for each of so many vertices, if there is none.
fn push_loss<A: Allocator>(
    text: &mut Vec<u8, A>,
    size: usize,
    loss: Option<&Divisor>,
) -> Result<(), AllocError>
    ensures { OnOk result (text.new.items
        ≡ text.old.items ++ loss_columns size (option_map (λ d. d.now) loss.entry)) }
{
    match loss {
        Some(loss) => push_columns(text, loss),
        None => push_marks(text, size),
    }
}

/// 1 for yes, 0 for no.
fn push_bool<A: Allocator>(text: &mut Vec<u8, A>, holds: bool) -> Result<(), AllocError>
    ensures { OnOk result (text.new.items ≡ text.old.items ++ bool_text holds) }
{
    if holds {
        text.extend_from_slice(b"1")
    } else {
        text.extend_from_slice(b"0")
    }
}

/// So many times ` NA`, the mark for a number that there is not.
pub fn push_marks<A: Allocator>(text: &mut Vec<u8, A>, count: usize) -> Result<(), AllocError>
    ensures { OnOk result (text.new.items ≡ text.old.items ++ marks count) }
{
    'marks: for _ in 0..count {
        text.extend_from_slice(b" NA")?;
    }
    Ok(())
}

/// The most bytes of all numbers, and of the space before each.
const MAX_COLUMNS: usize = MAX_VERTICES * (1 + MAX_DIGITS);

/// The numbers of all vertices, each after a space.
fn push_columns<A: Allocator, N: Amounts>(
    text: &mut Vec<u8, A>,
    amounts: &N,
) -> Result<(), AllocError>
    ensures { OnOk result
        (text.new.items ≡ text.old.items ++ vector_columns (N.numbers amounts.now)) }
{
    // The numbers are written from the last to the first, so that each ends where it must.
    let mut line = [0; MAX_COLUMNS];
    let mut start = MAX_COLUMNS;
    for v in (0..amounts.size()).rev() {
        start = amounts.write_amount(v, &mut line, start) - 1;
        line[start] = b' ';
    }
    text.extend_from_slice(&line[start..])?;
    Ok(())
}
