//! What is asked of many tables.
ghost use Rattle.std.specs.Prelude.{◌≤◌};
ghost use Rattle.dg_invocation.specs.declared.limits.TheConstants.{MAX_WORKERS};

/// How the answers of a sweep are printed; a line that is refused is answered in words.
#[derive(Clone, Copy)]
pub enum Form {
    /// In words, as the answer for one table is.
    Words,
    /// In columns of bare numbers.
    Numbers,
}

/// How the verdicts of a sweep are printed; a line that is refused is answered in words.
#[derive(Clone, Copy)]
pub enum VerdictForm {
    /// In words, as the verdict on one table is.
    Words {
        /// Whether the order in which the vertices burn is printed too.
        ordered: bool,
    },
    /// In columns of bare numbers, without that order.
    Numbers,
}

/// What is asked of each table of a sweep.
#[derive(Clone, Copy)]
pub enum Question {
    /// Whether its position can be won, and how.
    Judge(VerdictForm),
    /// Whether the rank of its position is at least this degree.
    Rank(u32, Form),
    /// The four numbers of Riemann-Roch for its position.
    RiemannRoch(Form),
}

/// A sweep over lines, each of which is a table, or has amounts for the vertices of one table.
#[derive(Drop)]
pub struct SweepTask<'a> {
    /// The name of the file of lines that are tables; or, if there are lines of amounts, of the table file.
    pub file: &'a str,
    /// The name of the file of lines of amounts, if there is one.
    pub divisors: Option<&'a str>,
    /// What is asked of each table.
    pub question: Question,
    /// How many workers share the lines, 1 to 16.
    pub workers: u32,
    ghost helped: { (1 ≤ workers) × (workers ≤ MAX_WORKERS) },
}
