//! What the library's account of a command's arguments asks for. Numbers are judged here: the library takes `+1` and `01`.
ghost use Rattle.std.specs.Prelude.{◌≡◌, ◌≤◌, ◌↔◌, ◌≢◌, IsTrue, Some, None, IsSomeAnd, map, codes, option_map};
ghost use Rattle.std.specs.Vec.{vec_len};
ghost use Rattle.dg_invocation.specs.declared.limits.TheConstants.{MAX_SEATS};
ghost use Rattle.clap.specs.Words.{subcommand_rows_of};
ghost use Rattle.dg_cli.specs.Asks.{
  AsksFor,
  AsksGreedy,
  AsksParty,
  AsksQuestion,
  AsksRank,
  AsksServe,
  AsksSweep,
  AsksTask,
  HasLinesFlag,
  HasNumbersFlag,
  HasOrderFlag,
  HasOneTable,
  HasFormFlag,
  HasVerdictFlags,
  word_of,
  words_of,
  HasNumberArgument,
};
ghost use Rattle.dg_cli.specs.Numbers.{IsGiven, IsGivenOr, IsNumberIn};
ghost use Rattle.dg_cli.specs.Telling.{TellsInvocation, least_of_argument, most_of_argument, argument_name, argument_rows};

use clap::ArgMatches;
use dg_invocation::{
    ArgsFault, Form, GreedyTask, Invocation, MAX_CAPACITY, MAX_SEATS, MAX_TURNS, MAX_WORKERS,
    PartyTask, Question, RankTask, ServeTask, SweepTask, Task, VerdictForm,
};
use dg_tokens::parse_natural;
use std::alloc::Global;
use std::fmt;
use thiserror::Error;

/// An argument that is a whole number of some range.
#[derive(Clone, Copy, Debug)]
pub(crate) enum NumberArgument {
    /// How many entries there may be.
    Capacity,
    /// How many workers there are.
    Workers,
    /// How many seats there are.
    Seats,
    /// The degree of a rank test.
    Degree,
    /// How many turns there may be.
    Turns,
}

impl NumberArgument {
    /// Its name among the arguments of a command.
    fn name(self) -> &'static str
        ensures { result.now ≡ argument_name self }
    {
        match self {
            NumberArgument::Capacity => "cap",
            NumberArgument::Workers => "workers",
            NumberArgument::Seats => "seats",
            NumberArgument::Degree => "degree",
            NumberArgument::Turns => "turns",
        }
    }

    /// How the usage shows it.
    fn value_name(self) -> &'static str {
        match self {
            NumberArgument::Capacity => "--cap <N>",
            NumberArgument::Workers => "--workers <N>",
            NumberArgument::Seats => "--seats <N>",
            NumberArgument::Degree => "<K>",
            NumberArgument::Turns => "<TURNS>",
        }
    }

    /// The least number that it takes, and the greatest.
    fn range(self) -> (u64, u64)
        ensures { (result.0 ≡ least_of_argument self) × (result.1 ≡ most_of_argument self) }
    {
        match self {
            NumberArgument::Capacity => (1, u64::from(MAX_CAPACITY)),
            NumberArgument::Workers => (1, u64::from(MAX_WORKERS)),
            NumberArgument::Seats => (1, u64::from(MAX_SEATS)),
            NumberArgument::Degree => (0, u64::from(u32::MAX)),
            NumberArgument::Turns => (0, u64::from(MAX_TURNS)),
        }
    }
}

/// How the usage shows it, and the numbers that it takes.
impl fmt::Display for NumberArgument {
    fn fmt<W: fmt::Write>(&self, f: &mut fmt::Formatter<W>) -> fmt::Result {
        let (least, most) = self.range();
        write!(
            f,
            "'{}': a whole number from {least} to {most}",
            self.value_name()
        )
    }
}

/// Why words that the library takes are refused.
#[derive(Clone, Copy, Debug, Error)]
pub(crate) enum Refusal<'a> {
    /// There is no command of that name with these arguments.
    #[error("a command is missing")]
    Command,
    /// Memory is refused.
    #[error("{}", ArgsFault::OutOfMemory)]
    Memory,
    /// The word is no number of the argument.
    #[error("invalid value '{1}' for {0}")]
    Number(NumberArgument, &'a str),
    /// There are workers or numbers, but no lines.
    #[error("the following required arguments were not provided:\n  <--lines|--divisors <LINES>>")]
    Lines,
    /// Lines are both tables and amounts.
    #[error("the argument '--lines' cannot be used with '--divisors <LINES>'")]
    Both,
    /// Numbers have no order of burning.
    #[error("the argument '--order' cannot be used with '--numbers'")]
    OrderedNumbers,
}

/// What the words ask for, by the command that they name.
pub(crate) fn invocation_in<'a>(
    alloc: Global,
    matches: &ArgMatches<'a>,
) -> Result<Invocation<'a>, Refusal<'a>>
    ensures { TellsInvocation
        (λ asked. IsSomeAnd (subcommand_rows_of matches.now) (λ entered. AsksFor entered.0 entered.1 asked)) result }
{
    match matches.subcommand() {
        Some((name, inner)) => subcommand_in(alloc, name, inner),
        None => Err(Refusal::Command),
    }
}

/// What a command with its arguments asks for.
fn subcommand_in<'a>(
    alloc: Global,
    name: &str,
    inner: &ArgMatches<'a>,
) -> Result<Invocation<'a>, Refusal<'a>>
    ensures { TellsInvocation (AsksFor name.now (argument_rows inner.now)) result }
{
    match name {
        "serve" => serve_in(inner).map(Invocation::Serve),
        "party" => party_in(alloc, inner).map(Invocation::Party),
        "greedy" => greedy_in(inner).map(|task| Invocation::Task(Task::Greedy(task))),
        "rehearse" => rehearsal_in(inner).map(Invocation::Task),
        _ if has_lines_flag(inner) || divisors_in(inner).is_some() => {
            sweep_in(name, inner).map(Invocation::Sweep)
        }
        _ => task_in(name, inner).map(Invocation::Task),
    }
}

/// A session over the input.
///
/// Refused for the number of entries, then of workers, then of seats.
fn serve_in<'a>(inner: &ArgMatches<'a>) -> Result<ServeTask<'a>, Refusal<'a>>
    ensures { TellsInvocation (AsksServe (argument_rows inner.now)) result }
{
    let file = word_in(inner, "file")?;
    let capacity = number_or(inner, NumberArgument::Capacity, MAX_CAPACITY)?;
    let workers = number_or(inner, NumberArgument::Workers, 1)?;
    let seats = seats_in(inner)?;
    Ok(ServeTask {
        file,
        seats,
        capacity,
        workers,
    })
}

/// Scripts that are played side by side.
fn party_in<'a>(alloc: Global, inner: &ArgMatches<'a>) -> Result<PartyTask<'a>, Refusal<'a>>
    ensures { TellsInvocation (AsksParty (argument_rows inner.now)) result }
{
    let file = word_in(inner, "file")?;
    let capacity = number_or(inner, NumberArgument::Capacity, MAX_CAPACITY)?;
    let scripts = scripts_in(alloc, inner)?;
    Ok(PartyTask {
        file,
        scripts,
        capacity,
    })
}

/// The lines of a file, if the flag for lines or the option for amounts is there.
///
/// Refused if both are there, then for the number of workers, then for the degree.
fn sweep_in<'a>(name: &str, inner: &ArgMatches<'a>) -> Result<SweepTask<'a>, Refusal<'a>>
    requires { (word_of (codes "divisors") (argument_rows inner.now) ≡ None) → HasLinesFlag (argument_rows inner.now) }
    ensures { TellsInvocation (AsksSweep name.now (argument_rows inner.now)) result }
{
    let file = word_in(inner, "file")?;
    let divisors = divisors_in(inner);
    if divisors.is_some() && has_lines_flag(inner) {
        return Err(Refusal::Both);
    }
    let workers = number_or(inner, NumberArgument::Workers, 1)?;
    let question = question_in(name, inner)?;
    Ok(SweepTask {
        file,
        divisors,
        question,
        workers,
    })
}

/// What a command asks of each line.
fn question_in<'a>(name: &str, inner: &ArgMatches<'a>) -> Result<Question, Refusal<'a>>
    ensures { TellsInvocation (AsksQuestion name.now (argument_rows inner.now)) result }
{
    match name {
        "judge" => verdict_form_in(inner).map(Question::Judge),
        "rank" => {
            let degree = number_in(inner, NumberArgument::Degree)?;
            Ok(Question::Rank(degree, form_in(inner)))
        }
        "rr" => Ok(Question::RiemannRoch(form_in(inner))),
        _ => Err(Refusal::Command),
    }
}

/// How verdicts are printed.
///
/// Refused if both numbers and the order of burning are asked for.
fn verdict_form_in<'a>(inner: &ArgMatches<'a>) -> Result<VerdictForm, Refusal<'a>>
    ensures { TellsInvocation (HasVerdictFlags (argument_rows inner.now)) result }
{
    let ordered = has_order_flag(inner);
    match form_in(inner) {
        Form::Words => Ok(VerdictForm::Words { ordered }),
        Form::Numbers if ordered => Err(Refusal::OrderedNumbers),
        Form::Numbers => Ok(VerdictForm::Numbers),
    }
}

/// How other answers are printed.
fn form_in(inner: &ArgMatches<'_>) -> Form
    ensures { HasFormFlag (argument_rows inner.now) result }
{
    if has_numbers_flag(inner) {
        Form::Numbers
    } else {
        Form::Words
    }
}

/// The task of a command that may have lines, if it has none.
///
/// Refused if there are numbers, which are for lines.
fn task_in<'a>(name: &str, inner: &ArgMatches<'a>) -> Result<Task<'a>, Refusal<'a>>
    requires lines { HasOneTable (argument_rows inner.now) }
    requires others { (name.now ≢ codes "greedy") × (name.now ≢ codes "rehearse") }
    ensures { TellsInvocation (AsksTask name.now (argument_rows inner.now)) result }
{
    if has_numbers_flag(inner) {
        return Err(Refusal::Lines);
    }
    match name {
        "judge" => Ok(Task::Judge {
            file: file_alone_in(inner)?,
            ordered: has_order_flag(inner),
        }),
        "rr" => Ok(Task::RiemannRoch {
            file: file_alone_in(inner)?,
        }),
        "rank" => Ok(Task::Rank(rank_in(inner)?)),
        _ => Err(Refusal::Command),
    }
}

/// Steps that are played on a table.
fn rehearsal_in<'a>(inner: &ArgMatches<'a>) -> Result<Task<'a>, Refusal<'a>>
    ensures { TellsInvocation (AsksTask (codes "rehearse") (argument_rows inner.now)) result }
{
    let file = word_in(inner, "file")?;
    let steps = word_in(inner, "steps")?;
    Ok(Task::Rehearse { file, steps })
}

/// The table file of a command that has workers for lines alone.
fn file_alone_in<'a>(inner: &ArgMatches<'a>) -> Result<&'a str, Refusal<'a>>
    ensures { TellsInvocation
        (λ file. (word_of (codes "file") (argument_rows inner.now) ≡ Some file.now)
        × (word_of (codes "workers") (argument_rows inner.now) ≡ None))
        result }
{
    let file = word_in(inner, "file")?;
    match text_in(inner, "workers") {
        Some(_) => Err(Refusal::Lines),
        None => Ok(file),
    }
}

/// A rank test.
///
/// Refused for the number of workers, then for the degree.
fn rank_in<'a>(inner: &ArgMatches<'a>) -> Result<RankTask<'a>, Refusal<'a>>
    ensures { TellsInvocation (AsksRank (argument_rows inner.now)) result }
{
    let file = word_in(inner, "file")?;
    let workers = number_or(inner, NumberArgument::Workers, 1)?;
    let degree = number_in(inner, NumberArgument::Degree)?;
    Ok(RankTask {
        file,
        degree,
        workers,
    })
}

/// The greedy strategy.
fn greedy_in<'a>(inner: &ArgMatches<'a>) -> Result<GreedyTask<'a>, Refusal<'a>>
    ensures { TellsInvocation (AsksGreedy (argument_rows inner.now)) result }
{
    let file = word_in(inner, "file")?;
    let turns = number_in(inner, NumberArgument::Turns)?;
    Ok(GreedyTask { file, turns })
}

/// Whether the flag for lines is there.
fn has_lines_flag(inner: &ArgMatches<'_>) -> bool
    ensures { IsTrue result ↔ HasLinesFlag (argument_rows inner.now) }
{
    matches!(text_in(inner, "lines"), Some("true"))
}

/// Whether the flag for the order of burning is there.
fn has_order_flag(inner: &ArgMatches<'_>) -> bool
    ensures { IsTrue result ↔ HasOrderFlag (argument_rows inner.now) }
{
    matches!(text_in(inner, "order"), Some("true"))
}

/// Whether the flag for bare numbers is there.
fn has_numbers_flag(inner: &ArgMatches<'_>) -> bool
    ensures { IsTrue result ↔ HasNumbersFlag (argument_rows inner.now) }
{
    matches!(text_in(inner, "numbers"), Some("true"))
}

/// The name of the file of amounts, if there is one.
fn divisors_in<'a>(inner: &ArgMatches<'a>) -> Option<&'a str>
    ensures { option_map (λ text. text.now) result ≡ word_of (codes "divisors") (argument_rows inner.now) }
{
    text_in(inner, "divisors")
}

/// The word of an argument, if it has one.
fn text_in<'a>(inner: &ArgMatches<'a>, name: &str) -> Option<&'a str>
    ensures { option_map (λ text. text.now) result ≡ word_of name.now (argument_rows inner.now) }
{
    inner.get_str(name)
}

/// The words of an argument, if it has any.
fn texts_in<'a, 'm>(inner: &'m ArgMatches<'a>, name: &str) -> Option<&'m [&'a str]>
    ensures { option_map (λ texts. map (λ text. text.now) texts.now) result ≡ words_of name.now (argument_rows inner.now) }
{
    inner.get_strs(name)
}

/// The word of an argument that has to be there.
fn word_in<'a>(inner: &ArgMatches<'a>, name: &str) -> Result<&'a str, Refusal<'a>>
    ensures { TellsInvocation (λ word. word_of name.now (argument_rows inner.now) ≡ Some word.now) result }
{
    text_in(inner, name).ok_or(Refusal::Command)
}

/// The number of an argument, or a default if it is not given.
fn number_or<'a>(
    inner: &ArgMatches<'a>,
    argument: NumberArgument,
    default: u32,
) -> Result<u32, Refusal<'a>>
    ensures { TellsInvocation
        (IsGivenOr default (least_of_argument argument) (most_of_argument argument)
        (word_of (argument_name argument) (argument_rows inner.now))) result }
{
    match number_if_given(inner, argument)? {
        Some(number) => Ok(number),
        None => Ok(default),
    }
}

/// The number of seats, if one is given.
fn seats_in<'a>(inner: &ArgMatches<'a>) -> Result<Option<u8>, Refusal<'a>>
    ensures { TellsInvocation (IsGiven 1 MAX_SEATS (word_of (codes "seats") (argument_rows inner.now))) result }
{
    match number_if_given(inner, NumberArgument::Seats)? {
        Some(seats) => Ok(Some(seats as u8)),
        None => Ok(None),
    }
}

/// The number of an argument that has to be there.
fn number_in<'a>(inner: &ArgMatches<'a>, argument: NumberArgument) -> Result<u32, Refusal<'a>>
    ensures { TellsInvocation (HasNumberArgument (argument_name argument)
        (least_of_argument argument) (most_of_argument argument) (argument_rows
        inner.now)) result }
{
    match text_in(inner, argument.name()) {
        Some(word) => parse_number(argument, word),
        None => Err(Refusal::Command),
    }
}

/// The number of an argument, if it is given.
fn number_if_given<'a>(
    inner: &ArgMatches<'a>,
    argument: NumberArgument,
) -> Result<Option<u32>, Refusal<'a>>
    ensures { TellsInvocation
        (IsGiven (least_of_argument argument) (most_of_argument argument)
        (word_of (argument_name argument) (argument_rows inner.now))) result }
{
    match text_in(inner, argument.name()) {
        Some(word) => Ok(Some(parse_number(argument, word)?)),
        None => Ok(None),
    }
}

/// The number that the word of an argument is.
fn parse_number(argument: NumberArgument, word: &str) -> Result<u32, Refusal<'_>>
    ensures { TellsInvocation (IsNumberIn (least_of_argument argument) (most_of_argument argument) word.entry.now) result }
{
    let (least, most) = argument.range();
    match parse_natural(word.as_bytes()) {
        Some(number) if least <= number && number <= most => Ok(number as u32),
        _ => Err(Refusal::Number(argument, word)),
    }
}

/// The names of the scripts.
fn scripts_in<'a>(alloc: Global, inner: &ArgMatches<'a>) -> Result<Vec<&'a str>, Refusal<'a>>
    ensures { TellsInvocation
        (λ scripts. (words_of (codes "script") (argument_rows inner.now)
        ≡ Some (map (λ script. script.now) scripts.items)) × (1 ≤ vec_len scripts))
        result }
{
    let Some(names) = texts_in(inner, "script") else {
        return Err(Refusal::Command);
    };
    let mut scripts = Vec::new(alloc);
    match scripts.extend_from_slice(names) {
        Ok(()) if scripts.is_empty() => Err(Refusal::Command),
        Ok(()) => Ok(scripts),
        Err(_) => Err(Refusal::Memory),
    }
}
