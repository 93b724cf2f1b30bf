//! Lines: what a line spells, or why it is refused.
ghost use Rattle.std.specs.Prelude.{◌≡◌, ℕ, ◌≤◌, List, [], ◌∷◌, None, IfOk, IfErr, IfSome, MatchOption};
ghost use Rattle.std.specs.Option.{option_copied};
ghost use Rattle.dg_lines.specs.Cuts.{words_after};
ghost use Rattle.dg_lines.specs.Commands.{SpellsCommand};
ghost use Rattle.dg_lines.specs.LineFaults.{IsLineFault, line_fault_text};
ghost use Rattle.dg_lines.specs.Steps.{IsSeatedLine, IsStepLine, IsStepFault};
ghost use Rattle.dg_lines.specs.Keywords.{first_words, AreWords};

use crate::command::{parse_command, parse_keyword};
use crate::cuts::cut;
use crate::number::seat_from_decimal;
use dg_rules::{Command, Step};
use dg_tokens::Names;
use thiserror::Error;

/// Why a line is refused.
#[derive(Clone, Copy, Debug, PartialEq, Eq, Error)]
pub enum LineFault {
    /// There is no space, or what stands before the first is no number from 1 to 64.
    #[error("bad seat")]
    Seat,
    /// The first word is no command.
    #[error("bad word")]
    Word,
    /// The command has another number of words, or a word is empty.
    #[error("bad form")]
    Form,
    /// No vertex has the name, or the name was given before.
    #[error("bad name")]
    Name,
    /// A number is not spelled as numbers are, or is out of range.
    #[error("bad number")]
    Number,
}

impl LineFault {
    /// The line that answers such a line in a session: what is said of the fault, and a newline.
    pub fn answer_line(self) -> &'static str
        ensures { result.now ≡ line_fault_text self }
    {
        match self {
            LineFault::Seat => "bad seat\n",
            LineFault::Word => "bad word\n",
            LineFault::Form => "bad form\n",
            LineFault::Name => "bad name\n",
            LineFault::Number => "bad number\n",
        }
    }
}

/// The seat, from 1 to 64, that stands before the first space of a line, and the text after that space. `None` if there is
/// no space, or another text before it. It takes no memory.
#[tactic(auto, using(crate::proofs::Stepping::no_space_after))]
pub fn split_seat(line: &[u8]) -> Option<(u8, &[u8])>
    ensures seated { IfSome result (λ p. IsSeatedLine p.0 p.1.now line.now) }
    ensures none { result ≡ None → (seat : ℕ) (text : List ℕ) → ¬ IsSeatedLine seat text line.now }
{
    let (text, rest) = cut(line, b' ');
    match seat_from_decimal(text) {
        Some(seat) => match rest {
            Some(rest) => Some((seat, rest)),
            None => None,
        },
        None => None,
    }
}

/// The step that a line spells: a seat from 1 to 64, one space, and a command line. It takes no memory.
///
/// Refused with `Seat` first, then as the command line is: with `Word`, `Form`, `Name`, `Number`.
pub fn parse_step(line: &[u8], names: &Names) -> Result<Step, LineFault>
    ensures step { IfOk result (λ step. IsStepLine names.now step line.now) }
    ensures refused { IfErr result (λ fault. IsStepFault names.now fault line.now) }
{
    let Some((seat, rest)) = split_seat(line) else {
        return Err(LineFault::Seat);
    };
    match parse_line(rest, names) {
        Ok(command) => Ok(Step { seat, command }),
        Err(fault) => Err(fault),
    }
}

/// The command that a line spells: a command word and what belongs to it. It takes no memory.
///
/// Refused with `Word` if the first word is no command, then with `Form`, then with `Name`, then with `Number`.
pub fn parse_line(line: &[u8], names: &Names) -> Result<Command, LineFault>
    ensures command { IfOk result (λ command. SpellsCommand names.now command line.now) }
    ensures refused { IfErr result (λ fault. IsLineFault names.now fault line.now) }
{
    let (word, rest) = cut(line, b' ');
    let Some((keyword, count)) = parse_keyword(word) else {
        return Err(LineFault::Word);
    };
    let Some((first, second)) = words_of(rest, count) else {
        return Err(LineFault::Form);
    };
    parse_command(keyword, first, second, names)
}

/// The words of what follows the command word, if there are just so many, at most two, and none is empty. The others of the
/// two are empty.
fn words_of(rest: Option<&[u8]>, count: usize) -> Option<(&[u8], &[u8])>
    requires { count ≤ 2 }
    ensures { MatchOption result
        (¬ AreWords count (words_after (option_copied rest.entry)))
        (λ p. AreWords count (first_words count p.0.now p.1.now)
        × (words_after (option_copied rest.entry) ≡ first_words count p.0.now p.1.now)) }
{
    match count {
        0 => match rest {
            None => Some((&[], &[])),
            Some(_) => None,
        },
        1 => match one_word(rest) {
            Some(first) => Some((first, &[])),
            None => None,
        },
        _ => two_words(rest),
    }
}

/// The one word of what follows the command word, if there is just one and it is not empty.
fn one_word(rest: Option<&[u8]>) -> Option<&[u8]>
    ensures { MatchOption result
        (¬ AreWords 1 (words_after (option_copied rest.entry)))
        (λ word. AreWords 1 (word.now ∷ [])
        × (words_after (option_copied rest.entry) ≡ word.now ∷ [])) }
{
    let Some(text) = rest else {
        return None;
    };
    let (word, more) = cut(text, b' ');
    if word.is_empty() {
        return None;
    }
    match more {
        None => Some(word),
        Some(_) => None,
    }
}

/// The two words of what follows the command word, if there are just two and none is empty.
fn two_words(rest: Option<&[u8]>) -> Option<(&[u8], &[u8])>
    ensures { MatchOption result
        (¬ AreWords 2 (words_after (option_copied rest.entry)))
        (λ p. AreWords 2 (p.0.now ∷ p.1.now ∷ [])
        × (words_after (option_copied rest.entry) ≡ p.0.now ∷ p.1.now ∷ [])) }
{
    let Some(text) = rest else {
        return None;
    };
    let (first, more) = cut(text, b' ');
    if first.is_empty() {
        return None;
    }
    match one_word(more) {
        Some(second) => Some((first, second)),
        None => None,
    }
}
