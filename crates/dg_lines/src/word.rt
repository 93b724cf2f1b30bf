//! Words after a command word: what one tells, by its kind.
ghost use Rattle.std.specs.Prelude.{◌≡◌, ℕ, ◌<◌, ◌^◌, Some, FitsSigned, MatchOption, MatchResult, decimal};
ghost use Rattle.std.specs.Int.{w64};
ghost use Rattle.std.specs.Fmt.{signed_decimal};
ghost use Rattle.dg_tokens.specs.Names.{place_of};
ghost use Rattle.dg_lines.specs.Cuts.{items};
ghost use Rattle.dg_lines.specs.CommandWords.{vertex, vertices, degree, dollars, names_in_word, IsWordNumeral, AreDistinctNames, IsSpelledSet, SpellsScript};
ghost use Rattle.dg_lines.specs.Keywords.{IsBadScript};

use crate::cuts::cut;
use crate::line::LineFault;
use crate::number::{degree_from_decimal, entry_from_decimal};
use dg_chips::Script;
use dg_graph::{MAX_VERTICES, contains, with_vertex};
use dg_tokens::{Names, parse_integer};

/// The vertex of that name.
pub(crate) fn parse_vertex(word: &[u8], names: &Names) -> Result<u8, LineFault>
    ensures { MatchResult result
        (λ v. place_of names.now word.now ≡ Some v)
        (λ fault. (fault ≡ LineFault.Name) × ¬ AreDistinctNames names.now (names_in_word vertex word.now)) }
{
    match names.place(word) {
        Some(v) => Ok(v),
        None => Err(LineFault::Name),
    }
}

/// The degree of a rank test.
pub(crate) fn parse_degree(word: &[u8]) -> Result<u32, LineFault>
    ensures { MatchResult result
        (λ k. (word.now ≡ decimal k) × (k < 2 ^ 32))
        (λ fault. (fault ≡ LineFault.Number) × ¬ IsWordNumeral degree word.now) }
{
    match degree_from_decimal(word) {
        Some(k) => Ok(k),
        None => Err(LineFault::Number),
    }
}

/// The number of dollars; a negative one is a levy.
pub(crate) fn parse_dollars(word: &[u8]) -> Result<i64, LineFault>
    ensures { MatchResult result
        (λ x. (word.now ≡ signed_decimal x) × FitsSigned w64 x)
        (λ fault. (fault ≡ LineFault.Number) × ¬ IsWordNumeral dollars word.now) }
{
    match parse_integer(word) {
        Some(x) => Ok(x),
        None => Err(LineFault::Number),
    }
}

/// The set of the vertices that the items name, if each names one that no earlier item names.
pub(crate) fn parse_set(text: &[u8], names: &Names) -> Result<u16, LineFault>
    ensures { MatchResult result
        (IsSpelledSet names.now (items text.now))
        (λ fault. (fault ≡ LineFault.Name) × ¬ AreDistinctNames names.now (names_in_word vertices text.now)) }
{
    // No two names of a table are the same.
    let _size = names.len();
    let mut set = 0;
    let mut rest = Some(text);
    'items: while let Some(text) = rest {
        let (item, after) = cut(text, b',');
        let Some(v) = names.place(item) else {
            return Err(LineFault::Name);
        };
        let v = usize::from(v);
        if contains(set, v) {
            return Err(LineFault::Name);
        }
        set = with_vertex(set, v);
        rest = after;
    }
    Ok(set)
}

/// The script of the items, each the name of a vertex that no earlier item names, `=` and a number.
///
/// Refused with `Name` before `Number`.
pub(crate) fn parse_script(text: &[u8], names: &Names) -> Result<Script, LineFault>
    ensures { MatchResult result
        (SpellsScript names.now text.now) (λ fault. IsBadScript names.now fault text.now) }
{
    let size = names.len();
    let mut given = 0;
    let mut entries = [0; MAX_VERTICES];
    let mut are_spelled = true;
    let mut rest = Some(text);
    'items: while let Some(text) = rest {
        let (item, after) = cut(text, b',');
        let (name, number) = cut(item, b'=');
        let Some(v) = names.place(name) else {
            return Err(LineFault::Name);
        };
        let v = usize::from(v);
        if contains(given, v) {
            return Err(LineFault::Name);
        }
        given = with_vertex(given, v);
        let entry = entry_from_decimal(number.unwrap_or(&[]));
        are_spelled &= entry.is_some();
        entries[v] = entry.unwrap_or(0);
        rest = after;
    }
    if !are_spelled {
        return Err(LineFault::Number);
    }
    let script = Script::sized(&entries[..size]);
    // past its size a script has nothing but 0.
    let _size = script.size();
    Ok(script)
}
