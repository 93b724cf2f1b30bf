//! What may be asked for.
ghost use Rattle.std.specs.Prelude.{◌≡◌, ◌≤◌};
ghost use Rattle.std.specs.Vec.{vec_len};
ghost use Rattle.dg_invocation.specs.declared.limits.TheConstants.{MAX_CAPACITY, MAX_SEATS, MAX_WORKERS};
ghost use Rattle.dg_invocation.specs.Invocation.{file_of, seat_count};

use crate::numbered::{GreedyTask, RankTask};
use crate::question::SweepTask;

/// What is answered by one text on one table.
#[derive(Drop)]
pub enum Task<'a> {
    /// Play the steps of one file on the table of another, and print the history.
    Rehearse {
        /// The name of the table file.
        file: &'a str,
        /// The name of the file of steps.
        steps: &'a str,
    },
    /// Tell whether the position of a table is winnable, and print the verdict.
    Judge {
        /// The name of the table file.
        file: &'a str,
        /// Whether the order in which the vertices burn is printed too.
        ordered: bool,
    },
    /// Test whether the rank of a table's position is at least a degree, and print the answer.
    Rank(RankTask<'a>),
    /// Print the four numbers of Riemann-Roch for the position of a table.
    RiemannRoch {
        /// The name of the table file.
        file: &'a str,
    },
    /// Play the greedy strategy on a table, and print the history.
    Greedy(GreedyTask<'a>),
}

impl Task<'_> {
    /// The name of the table file.
    pub fn file(&self) -> &str
        ensures { result.now ≡ file_of self.now }
    {
        match self {
            Task::Rehearse { file, steps: _ } => file,
            Task::Judge { file, ordered: _ } => file,
            Task::Rank(test) => test.file,
            Task::RiemannRoch { file } => file,
            Task::Greedy(play) => play.file,
        }
    }
}

/// A session over the input, on a table with one seat or some.
#[derive(Drop)]
pub struct ServeTask<'a> {
    /// The name of the table file.
    pub file: &'a str,
    /// How many seats there are, 1 to 64, if each line names the seat that it is for; `None` for one seat, which no line
    /// names.
    pub seats: Option<u8>,
    /// How many entries the history may have, 1 to 65,536.
    pub capacity: u32,
    /// How many workers a rank test has, 1 to 16.
    pub workers: u32,
    ghost seated: { (1 ≤ seat_count seats) × (seat_count seats ≤ MAX_SEATS) },
    ghost room: { (1 ≤ capacity) × (capacity ≤ MAX_CAPACITY) },
    ghost helped: { (1 ≤ workers) × (workers ≤ MAX_WORKERS) },
}

/// A session over each of some scripts, each with a seat and a thread of its own, on one table.
#[derive(Drop)]
pub struct PartyTask<'a> {
    /// The name of the table file.
    pub file: &'a str,
    /// The names of the scripts, one or more.
    pub scripts: Vec<&'a str>,
    /// How many entries the history may have, 1 to 65,536.
    pub capacity: u32,
    ghost played: { 1 ≤ vec_len scripts },
    ghost room: { (1 ≤ capacity) × (capacity ≤ MAX_CAPACITY) },
}

/// What the words of a command line ask for.
#[derive(Drop)]
pub enum Invocation<'a> {
    /// An answer to print.
    Task(Task<'a>),
    /// The lines of the input to answer.
    Serve(ServeTask<'a>),
    /// Scripts to play, and the history that they make to print.
    Party(PartyTask<'a>),
    /// The lines of a file to answer, each of which is a table or has amounts for one.
    Sweep(SweepTask<'a>),
    /// The help or the version, to print.
    Text(String),
}
