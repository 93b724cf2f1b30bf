//! Lines that are amounts for the vertices of one table. They are no JSON, whose reader is twenty times as dear as the question.
ghost use Rattle.std.specs.Prelude.{◌≡◌, ◌≢◌, ℤ, FitsSigned, IfOk, IfErr, MatchOption};
ghost use Rattle.std.specs.Option.{option_copied};
ghost use Rattle.std.specs.Fmt.{signed_decimal};
ghost use Rattle.std.specs.Int.{w64};
ghost use Rattle.dg_lines.specs.Cuts.{before, after};
ghost use Rattle.dg_sweep.specs.Divisors.{SpellsDivisor, IsAmountsFault, SpellsAmounts, SpellsNoAmounts};

use dg_chips::Divisor;
use dg_file::{FileFault, Shape};
use dg_graph::{Graph, MAX_VERTICES};
use dg_tokens::leading_integer;
use std::alloc::{AllocError, Global};

/// The divisor with the amounts that a line spells.
///
/// Refused with `Shape(Amounts)` if a word is no whole number within 64 bits, and then with `Chip`. `OutOfMemory` comes if a
/// growth is refused.
pub(crate) fn parse_divisor(alloc: Global, graph: &Graph, line: &[u8]) -> Result<Divisor, FileFault>
    ensures divisor { IfOk result (SpellsDivisor graph.now.size line.now) }
    ensures refused { IfErr result (IsAmountsFault graph.now.size line.now) }
{
    let Some(amounts) = parse_amounts(alloc, line)? else {
        return Err(FileFault::Shape(Shape::Amounts));
    };
    Divisor::new(graph, amounts.as_slice()).map_err(FileFault::Chip)
}

/// The whole numbers that the words of a line are, with one space between two; `None` if a word is none within 64 bits.
fn parse_amounts(alloc: Global, line: &[u8]) -> Result<Option<Vec<i64>>, AllocError>
    ensures { IfOk result (λ amounts. MatchOption amounts (SpellsNoAmounts line.now)
        (λ amounts. SpellsAmounts line.now amounts.items)) }
{
    let mut amounts = Vec::with_capacity(alloc, MAX_VERTICES)?;
    let mut rest = Some(line);
    'words: while let Some(text) = rest {
        let Some((amount, after)) = parse_first_amount(text) else {
            return Ok(None);
        };
        amounts.push(amount)?;
        rest = after;
    }
    Ok(Some(amounts))
}

/// The whole number that the first word is, if 64 bits hold it, and what stands after the space that ends the word, if one does.
#[inline(always)]
fn parse_first_amount(text: &[u8]) -> Option<(i64, Option<&[u8]>)>
    ensures { MatchOption result
        ((z : ℤ) → FitsSigned w64 z → before 32 text.now ≢ signed_decimal z)
        (λ r. (before 32 text.now ≡ signed_decimal r.0)
        × (option_copied r.1 ≡ after 32 text.now)) }
{
    let (amount, rest) = leading_integer(text)?;
    if rest.is_empty() {
        return Some((amount, None));
    }
    if rest[0] != b' ' {
        return None;
    }
    Some((amount, Some(&rest[1..])))
}
