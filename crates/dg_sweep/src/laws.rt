//! Laws of the lines of a sweep, each the contract of a function that no other needs.
ghost use Rattle.std.specs.Prelude.{ℕ, List, OnOk};
ghost use Rattle.dg_sweep.specs.AnswerLaws.{AmountsHaveOneAnswer, AmountsMeaningIsUnique, TablesHaveOneAnswer};
ghost use Rattle.dg_sweep.specs.Answers.{AnswersTableLine};
ghost use Rattle.dg_sweep.specs.DivisorLaws.{LinesStandForTables};

use crate::answering::answer_line;
use crate::kinds::LineKind;
use dg_file::file_meaning_is_unique;
use dg_invocation::Question;
use std::alloc::{AllocError, Global};

/// No two texts answer a line of a table. So the number of workers changes no answer, and no line is both answered and refused.
/// That the line has an answer is shown by `answer_line`, which gives it.
///
/// Refused if there is not enough memory to answer it; no two texts answer it all the same.
pub fn table_answer_is_unique(
    alloc: Global,
    question: Question,
    line: &[u8],
) -> Result<(), AllocError>
    ensures some { OnOk result ((text : List ℕ) × AnswersTableLine question line.now text) }
    ensures one { TablesHaveOneAnswer }
{
    file_meaning_is_unique(alloc, line)?;
    let mut answer = Vec::new(alloc);
    answer_line(alloc, &LineKind::Tables(question), line, &mut answer)?;
    Ok(())
}

/// No two texts answer a line of amounts, either. The one that a sweep gives is its answer.
pub fn amounts_answer_is_unique()
    ensures { AmountsHaveOneAnswer }
{}

/// A line of amounts stands for no two starts, has no two faults for which it is refused, and never both; want of memory aside.
pub fn amounts_meaning_is_unique()
    ensures { AmountsMeaningIsUnique }
{}

/// A line of amounts for the table of a file stands for the table that the file would describe with these amounts, and is
/// refused as that file would be.
pub fn lines_stand_for_tables()
    ensures { LinesStandForTables }
{}
