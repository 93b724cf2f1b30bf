//! The arguments of the commands: their names and forms, and what the help says of them.
ghost use Rattle.std.specs.Prelude.{◌≡◌};
ghost use Rattle.dg_cli.specs.Building.{IsArgument, clap_rule_by, clap_rule_for};

use crate::help_texts::{
    CAPACITY_HELP, DEGREE_HELP, DIVISORS_HELP, FILE_HELP, LINE_WORKERS_HELP, LINES_HELP,
    NUMBERS_HELP, ORDER_HELP, RANK_WORKERS_HELP, SCRIPT_HELP, SEATS_HELP, STEPS_HELP, TURNS_HELP,
    WORKERS_HELP,
};
use clap::{Arg, ArgAction};
use std::alloc::Global;

/// An argument of some commands.
#[derive(Clone, Copy)]
pub(crate) enum Argument {
    /// The table file.
    File,
    /// The file of steps.
    Steps,
    /// The scripts.
    Scripts,
    /// The degree of a rank test.
    Degree,
    /// How many turns there may be.
    Turns,
    /// Whether the table file has a table on each line.
    Lines,
    /// The file of amounts.
    Divisors,
    /// Whether the order in which the vertices burn is printed.
    Order,
    /// Whether answers are bare numbers.
    Numbers,
    /// How many seats lines name.
    Seats,
    /// How many entries there may be.
    Capacity,
    /// How many workers share trials.
    Workers,
    /// How many workers share trials or lines.
    RankWorkers,
    /// How many workers share lines.
    LineWorkers,
}

/// How an argument is written.
#[derive(Clone, Copy)]
pub(crate) enum Syntax {
    /// A word that has to be there.
    Word,
    /// One word or more, after all others.
    Words,
    /// `--name` with a word that is its value.
    Option,
    /// `--name` alone.
    Flag,
}

impl Argument {
    /// The argument as the library is told of it.
    pub(crate) fn to_clap<'a>(self, alloc: Global) -> Arg<'a>
        ensures { IsArgument (clap_rule_for self) result }
    {
        let name = self.name();
        let argument = Arg::new(alloc, name).help(self.help());
        match self.syntax() {
            Syntax::Word => argument.value_name(self.value_name()).required(true),
            Syntax::Words => argument
                .value_name(self.value_name())
                .required(true)
                .num_args(1..),
            Syntax::Option => argument.value_name(self.value_name()).long(name),
            Syntax::Flag => argument.long(name).action(ArgAction::SetTrue),
        }
    }

    /// Its name, which is also the word of an option or a flag after `--`.
    fn name<'a>(self) -> &'a str
        ensures { result.now ≡ (clap_rule_for self).id }
    {
        match self {
            Argument::File => "file",
            Argument::Steps => "steps",
            Argument::Scripts => "script",
            Argument::Degree => "degree",
            Argument::Turns => "turns",
            Argument::Lines => "lines",
            Argument::Divisors => "divisors",
            Argument::Order => "order",
            Argument::Numbers => "numbers",
            Argument::Seats => "seats",
            Argument::Capacity => "cap",
            Argument::Workers | Argument::RankWorkers | Argument::LineWorkers => "workers",
        }
    }

    /// Whether it is one word or more at its place, a flag, or an option with a value.
    fn syntax(self) -> Syntax
        ensures { clap_rule_for self ≡ clap_rule_by result (clap_rule_for self).id }
    {
        match self {
            Argument::File | Argument::Steps | Argument::Degree | Argument::Turns => Syntax::Word,
            Argument::Scripts => Syntax::Words,
            Argument::Lines | Argument::Order | Argument::Numbers => Syntax::Flag,
            Argument::Divisors
            | Argument::Seats
            | Argument::Capacity
            | Argument::Workers
            | Argument::RankWorkers
            | Argument::LineWorkers => Syntax::Option,
        }
    }

    /// What the usage calls its word; a flag has none.
    fn value_name<'a>(self) -> &'a str {
        match self {
            Argument::File => "FILE",
            Argument::Steps => "STEPS",
            Argument::Scripts => "SCRIPT",
            Argument::Degree => "K",
            Argument::Turns => "TURNS",
            Argument::Lines | Argument::Order | Argument::Numbers => "",
            Argument::Divisors => "LINES",
            Argument::Seats
            | Argument::Capacity
            | Argument::Workers
            | Argument::RankWorkers
            | Argument::LineWorkers => "N",
        }
    }

    /// What the help says of it.
    fn help<'a>(self) -> &'a str {
        match self {
            Argument::File => FILE_HELP,
            Argument::Steps => STEPS_HELP,
            Argument::Scripts => SCRIPT_HELP,
            Argument::Degree => DEGREE_HELP,
            Argument::Turns => TURNS_HELP,
            Argument::Lines => LINES_HELP,
            Argument::Divisors => DIVISORS_HELP,
            Argument::Order => ORDER_HELP,
            Argument::Numbers => NUMBERS_HELP,
            Argument::Seats => SEATS_HELP,
            Argument::Capacity => CAPACITY_HELP,
            Argument::Workers => WORKERS_HELP,
            Argument::RankWorkers => RANK_WORKERS_HELP,
            Argument::LineWorkers => LINE_WORKERS_HELP,
        }
    }
}
