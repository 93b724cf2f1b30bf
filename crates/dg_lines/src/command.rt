//! Commands: the word of each, how many words follow it, and what they come to.
ghost use Rattle.std.specs.Prelude.{◌≡◌, None, MatchOption, MatchResult, bytes_eq, length};
ghost use Rattle.dg_lines.specs.Commands.{wanted_kinds, IsWellFormed, Means};
ghost use Rattle.dg_lines.specs.LineFaults.{AreRefusedWords};
ghost use Rattle.dg_lines.specs.Keywords.{spelling, keyword_kinds, first_words};

use crate::line::LineFault;
use crate::word::{parse_degree, parse_dollars, parse_script, parse_set, parse_vertex};
use dg_chips::Move;
use dg_rules::{Command, Plain};
use dg_tokens::Names;

/// A command word.
#[derive(Clone, Copy)]
pub(crate) enum Keyword {
    Lend,
    Borrow,
    Fire,
    Script,
    Gift,
    Join,
    Look,
    Claim,
    Commit,
    Rank,
}

/// The command word that the bytes are, if they are one, and how many words follow it: two at most.
#[tactic(auto, using(crate::proofs::Keywords::bytes_tell), unfolding(crate::specs::Commands::kinds_beside))]
pub(crate) fn parse_keyword(word: &[u8]) -> Option<(Keyword, usize)>
    ensures { MatchOption result
        (wanted_kinds word.now ≡ None)
        (λ p. (word.now ≡ spelling p.0) × (p.1 ≡ length (keyword_kinds p.0))) }
{
    if spells(word, b"script") {
        return Some((Keyword::Script, 1));
    }
    if spells(word, b"lend") {
        return Some((Keyword::Lend, 1));
    }
    if spells(word, b"borrow") {
        return Some((Keyword::Borrow, 1));
    }
    if spells(word, b"fire") {
        return Some((Keyword::Fire, 1));
    }
    if spells(word, b"look") {
        return Some((Keyword::Look, 0));
    }
    if spells(word, b"gift") {
        return Some((Keyword::Gift, 2));
    }
    if spells(word, b"join") {
        return Some((Keyword::Join, 2));
    }
    if spells(word, b"claim") {
        return Some((Keyword::Claim, 0));
    }
    if spells(word, b"commit") {
        return Some((Keyword::Commit, 0));
    }
    if spells(word, b"rank") {
        return Some((Keyword::Rank, 1));
    }
    None
}

/// Whether the bytes are the text. A comparison of its own: the prover goes through ten of them in one body three times as
/// slowly.
fn spells(word: &[u8], text: &[u8]) -> bool
    ensures { result ≡ bytes_eq word.now text.now }
{
    word == text
}

/// The command of a command word and as many of the two words as belong to it.
pub(crate) fn parse_command(
    keyword: Keyword,
    first: &[u8],
    second: &[u8],
    names: &Names,
) -> Result<Command, LineFault>
    requires { IsWellFormed (spelling keyword)
        (first_words (length (keyword_kinds keyword)) first.now second.now) }
    ensures { let rest = first_words (length (keyword_kinds keyword)) first.now second.now in
        MatchResult result
        (λ command. Means names.now command (spelling keyword) rest)
        (λ fault. AreRefusedWords names.now fault (spelling keyword) rest) }
{
    match keyword {
        Keyword::Lend => Ok(Command::Call(Plain::Move(Move::Lend(parse_vertex(first, names)?)))),
        Keyword::Borrow => Ok(Command::Call(Plain::Move(Move::Borrow(parse_vertex(
            first, names,
        )?)))),
        Keyword::Fire => Ok(Command::Call(Plain::Move(Move::Fire(parse_set(first, names)?)))),
        Keyword::Script => Ok(Command::Call(Plain::Move(Move::Script(parse_script(
            first, names,
        )?)))),
        Keyword::Gift => {
            let v = parse_vertex(first, names)?;
            Ok(Command::Call(Plain::Gift(v, parse_dollars(second)?)))
        }
        Keyword::Join => {
            let u = parse_vertex(first, names)?;
            Ok(Command::Call(Plain::Join(u, parse_vertex(second, names)?)))
        }
        Keyword::Look => Ok(Command::Call(Plain::Look)),
        Keyword::Claim => Ok(Command::Call(Plain::Claim)),
        Keyword::Commit => Ok(Command::Commit),
        Keyword::Rank => Ok(Command::Rank(parse_degree(first)?)),
    }
}
