//! The commands of the program, as the library of command lines is told of them.
ghost use Rattle.std.specs.Prelude.{◌≡◌, IfOk, map};
ghost use Rattle.clap.specs.Words.{app_of};
ghost use Rattle.dg_cli.specs.Building.{HasShape, clap_rule_for, shape_for};
ghost use Rattle.dg_cli.specs.Commands.{bare_program, dollar};

use crate::arguments::Argument;
use crate::help_texts::{
    GREEDY_MORE, JUDGE_MORE, MORE, PARTY_MORE, RANK_MORE, REHEARSE_MORE, RIEMANN_ROCH_MORE,
    SERVE_MORE, VERSION,
};
use clap::Command;
use std::alloc::{AllocError, Global};

/// A command of the program.
#[derive(Clone, Copy)]
pub(crate) enum Subcommand {
    /// Judge a table, or each of some.
    Judge,
    /// Test the rank of a table, or of each of some.
    Rank,
    /// Print the numbers of Riemann-Roch for a table, or for each of some.
    RiemannRoch,
    /// Play the greedy strategy.
    Greedy,
    /// Play a list of steps.
    Rehearse,
    /// Answer the lines of the input.
    Serve,
    /// Play scripts side by side.
    Party,
}

/// The commands, in the order of the help.
pub(crate) const SUBCOMMANDS: &[Subcommand] = &[
    Subcommand::Judge,
    Subcommand::Rank,
    Subcommand::RiemannRoch,
    Subcommand::Greedy,
    Subcommand::Rehearse,
    Subcommand::Serve,
    Subcommand::Party,
];

/// The program with its commands.
pub(crate) fn program_command<'a>(alloc: Global) -> Result<Command<'a>, AllocError>
    ensures { IfOk result (λ program. app_of program ≡ dollar) }
{
    let mut program = bare_program(alloc)?;
    'commands: for subcommand in SUBCOMMANDS {
        let command = subcommand.to_clap(alloc)?;
        program = program.subcommand(command)?;
    }
    Ok(program)
}

/// The program without its commands. Its usage has the same name, whatever its file is called.
fn bare_program<'a>(alloc: Global) -> Result<Command<'a>, AllocError>
    ensures { IfOk result (λ program. app_of program ≡ bare_program) }
{
    let program = Command::new(alloc, "dollar")
        .about("Plays the dollar game on a graph, and tells whether a table is winnable")
        .version(VERSION)
        .after_help(MORE)
        .disable_help_subcommand(true)
        .subcommand_required(true)
        .arg_required_else_help(true);
    program.bin_name("dollar")
}

impl Subcommand {
    /// The command as the library is told of it.
    pub(crate) fn to_clap<'a>(self, alloc: Global) -> Result<Command<'a>, AllocError>
        ensures { IfOk result (HasShape (shape_for self)) }
    {
        let mut command = Command::new(alloc, self.name())
            .about(self.about())
            .after_help(self.after_help_text());
        'arguments: for argument in self.arguments() {
            command = command.arg(argument.to_clap(alloc))?;
        }
        Ok(command)
    }

    /// Its name.
    pub(crate) fn name<'a>(self) -> &'a str
        ensures { result.now ≡ (shape_for self).name }
    {
        match self {
            Subcommand::Judge => "judge",
            Subcommand::Rank => "rank",
            Subcommand::RiemannRoch => "rr",
            Subcommand::Greedy => "greedy",
            Subcommand::Rehearse => "rehearse",
            Subcommand::Serve => "serve",
            Subcommand::Party => "party",
        }
    }

    /// Its arguments, in the order of the help.
    fn arguments(self) -> &'static [Argument]
        ensures { map clap_rule_for result.now ≡ (shape_for self).rules }
    {
        match self {
            Subcommand::Judge => JUDGE_ARGUMENTS,
            Subcommand::RiemannRoch => LINES_ARGUMENTS,
            Subcommand::Rank => RANK_ARGUMENTS,
            Subcommand::Greedy => GREEDY_ARGUMENTS,
            Subcommand::Rehearse => REHEARSE_ARGUMENTS,
            Subcommand::Serve => SERVE_ARGUMENTS,
            Subcommand::Party => PARTY_ARGUMENTS,
        }
    }

    /// How its usage begins.
    pub(crate) fn usage<'a>(self) -> &'a str {
        match self {
            Subcommand::Judge => "dollar judge",
            Subcommand::Rank => "dollar rank",
            Subcommand::RiemannRoch => "dollar rr",
            Subcommand::Greedy => "dollar greedy",
            Subcommand::Rehearse => "dollar rehearse",
            Subcommand::Serve => "dollar serve",
            Subcommand::Party => "dollar party",
        }
    }

    /// What it does, in a line.
    fn about<'a>(self) -> &'a str {
        match self {
            Subcommand::Judge => "Tells whether a table is winnable, and prints what shows it",
            Subcommand::Rank => "Tests whether a table stays winnable wherever K dollars are lost",
            Subcommand::RiemannRoch => "Prints the four numbers of Riemann-Roch for a table",
            Subcommand::Greedy => "Lets the first vertex in debt borrow, until nobody is in debt",
            Subcommand::Rehearse =>
                "Plays a list of steps on a table, and prints what came of each",
            Subcommand::Serve => "Answers the lines of the standard input on a table with seats",
            Subcommand::Party =>
                "Plays scripts side by side on one table, and prints what came of it",
        }
    }

    /// What its help says after its arguments.
    fn after_help_text<'a>(self) -> &'a str {
        match self {
            Subcommand::Judge => JUDGE_MORE,
            Subcommand::Rank => RANK_MORE,
            Subcommand::RiemannRoch => RIEMANN_ROCH_MORE,
            Subcommand::Greedy => GREEDY_MORE,
            Subcommand::Rehearse => REHEARSE_MORE,
            Subcommand::Serve => SERVE_MORE,
            Subcommand::Party => PARTY_MORE,
        }
    }
}

const JUDGE_ARGUMENTS: &[Argument] = &[
    Argument::File,
    Argument::Lines,
    Argument::Divisors,
    Argument::Order,
    Argument::Numbers,
    Argument::LineWorkers,
];

const LINES_ARGUMENTS: &[Argument] = &[
    Argument::File,
    Argument::Lines,
    Argument::Divisors,
    Argument::Numbers,
    Argument::LineWorkers,
];

const RANK_ARGUMENTS: &[Argument] = &[
    Argument::File,
    Argument::Lines,
    Argument::Divisors,
    Argument::Numbers,
    Argument::Degree,
    Argument::RankWorkers,
];

const GREEDY_ARGUMENTS: &[Argument] = &[Argument::File, Argument::Turns];

const REHEARSE_ARGUMENTS: &[Argument] = &[Argument::File, Argument::Steps];

const SERVE_ARGUMENTS: &[Argument] = &[
    Argument::File,
    Argument::Seats,
    Argument::Capacity,
    Argument::Workers,
];

const PARTY_ARGUMENTS: &[Argument] = &[Argument::File, Argument::Scripts, Argument::Capacity];
