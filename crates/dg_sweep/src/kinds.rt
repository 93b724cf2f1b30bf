//! What the lines of a sweep are, and how each is answered.
ghost use Rattle.std.specs.Prelude.{◌≡◌, ◌≤◌, [], OnOk};
ghost use Rattle.dg_graph.specs.declared.graph.TheConstants.{MAX_VERTICES};
ghost use Rattle.dg_sweep.specs.Answers.{columns, of_tables};
ghost use Rattle.dg_sweep.specs.Kinds.{answers_of};

use crate::answering::{Subject, push_answer, push_refusal};
use crate::divisors::parse_divisor;
use dg_chips::Start;
use dg_file::{TableFile, read_table};
use dg_invocation::{Form, Question, VerdictForm};
use dg_reduce::InverseLaplacian;
use std::alloc::{AllocError, Global};

/// What each line of a sweep is, and what is asked of it.
#[derive(Drop)]
pub enum LineKind<'a> {
    /// A table, with the question.
    Tables(Question),
    /// Amounts for the vertices of one table, as numbers with one space between two, in the order of its vertices.
    Divisors {
        /// What is asked of the table with these amounts.
        question: Question,
        /// The table.
        table: &'a TableFile,
        /// What the answers for the table's graph share. They are the same with any inverse.
        inverse: InverseLaplacian,
    },
}

impl<'a> LineKind<'a> {
    /// Amounts for the vertices of a table, with the inverse by which they are answered soonest.
    pub fn divisors(question: Question, table: &'a TableFile) -> LineKind<'a>
        ensures { (inverse : InverseLaplacian) × (result ≡ LineKind.Divisors question table.entry inverse) }
    {
        let inverse = inverse_for(question, table.start());
        LineKind::Divisors {
            question,
            table,
            inverse,
        }
    }

    /// In how many columns of numbers a line is refused: those of an answer for the vertices that are known, which are none for a
    /// table; and 0 if answers are in words.
    pub(crate) fn columns(&self) -> usize
        ensures { result ≡ (answers_of self.now).columns }
    {
        match self {
            LineKind::Tables(question) => columns(*question, 0),
            LineKind::Divisors {
                question,
                table,
                ..
            } => columns(*question, table.start().graph().size()),
        }
    }

    /// The answer to a line that is no longer than a line may be, with its newline, into an empty buffer.
    ///
    /// Refused if a growth is refused; nothing is said of what the buffer then holds.
    pub(crate) fn answer(
        &self,
        alloc: Global,
        line: &[u8],
        answer: &mut Vec<u8>,
    ) -> Result<(), AllocError>
        requires { answer.old.items ≡ [] }
        ensures { OnOk result ((answers_of self.now).answers line.now answer.new.items) }
    {
        match self {
            LineKind::Tables(question) => answer_table(alloc, *question, line, answer),
            LineKind::Divisors {
                question,
                table,
                inverse,
            } => {
                let start = table.start();
                match parse_divisor(alloc, start.graph(), line) {
                    Ok(divisor) => {
                        let subject = Subject {
                            graph: start.graph(),
                            divisor: &divisor,
                            q: start.q(),
                            inverse: Some(inverse),
                        };
                        push_answer(*question, &subject, table.names(), answer)
                    }
                    Err(fault) => push_refusal(&fault, self.columns(), answer),
                }
            }
        }
    }
}

/// The answer to the line of a table, into an empty buffer. It stands apart, so that no room is cleared for a table where a line
/// has only amounts.
#[inline(never)]
fn answer_table(
    alloc: Global,
    question: Question,
    line: &[u8],
    answer: &mut Vec<u8>,
) -> Result<(), AllocError>
    requires { answer.old.items ≡ [] }
    ensures { OnOk result ((of_tables question).answers line.now answer.new.items) }
{
    match read_table(alloc, line) {
        Ok(table) => {
            let start = table.start();
            let subject = Subject {
                graph: start.graph(),
                divisor: start.divisor(),
                q: start.q(),
                inverse: None,
            };
            push_answer(question, &subject, table.names(), answer)
        }
        Err(fault) => push_refusal(&fault, columns(question, 0), answer),
    }
}

/// How many columns of numbers an answer for so many vertices has, and 0 if it is in words.
fn columns(question: Question, size: usize) -> usize
    requires { size ≤ MAX_VERTICES }
    ensures { result ≡ columns question size }
{
    match question {
        Question::Judge(VerdictForm::Numbers) => 1 + (size + size),
        Question::Rank(_, Form::Numbers) => 1 + size,
        Question::RiemannRoch(Form::Numbers) => 4,
        Question::Judge(VerdictForm::Words { .. })
        | Question::Rank(_, Form::Words)
        | Question::RiemannRoch(Form::Words) => 0,
    }
}

/// The inverse by which a question for a start is answered soonest: verdicts are computed from q, ranks from the first vertex.
fn inverse_for(question: Question, start: &Start) -> InverseLaplacian {
    let vertex = match question {
        Question::Judge(_) => start.q(),
        Question::Rank(_, _) | Question::RiemannRoch(_) => 0,
    };
    InverseLaplacian::new(start.graph(), vertex)
}
