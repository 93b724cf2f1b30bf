//! The texts of replies.
ghost use Rattle.std.specs.Prelude.{◌≡◌, ◌<◌, ◌++◌, length, codes, decimal, IfOk, OnOk};
ghost use Rattle.std.specs.Fmt.{signed_decimal};
ghost use Rattle.dg_chips.specs.Vector.{at};
ghost use Rattle.dg_lines.specs.Texts.{HasNames, pair, pairs, refusal_text, verdict_word, verdict_text, rank_text, text_of, entry_text};
ghost use Rattle.dg_rules.specs.declared.entry.Reply.TheVariants.{Rank};

use crate::OutOfMemory;
use crate::amounts::Amounts;
use crate::digits::MAX_DIGITS;
use dg_chips::Divisor;
use dg_graph::MAX_VERTICES;
use dg_rules::{Refusal, Reply};
use dg_tokens::{MAX_LABEL, Names};
use dg_verdict::{RankVerdict, Verdict};
use itoa::Buffer;
use std::alloc::{AllocError, Allocator};

/// The text of a reply, with no number and no newline. Amounts are shown as `name=amount`, in vertex order.
pub fn reply_text<A: Allocator + Drop>(
    alloc: A,
    reply: &Reply,
    names: &Names,
) -> Result<Vec<u8, A>, OutOfMemory>
    requires { HasNames names.now reply.now }
    ensures { IfOk result (λ text. text.items ≡ text_of names.now reply.now) }
{
    let mut text = Vec::new(alloc);
    push_reply(&mut text, reply, names)?;
    Ok(text)
}

/// The line of an entry of the history, after the text: its number, a space, the text of its reply and a newline.
#[inline(always)]
pub fn push_entry<A: Allocator>(
    text: &mut Vec<u8, A>,
    number: usize,
    reply: &Reply,
    names: &Names,
) -> Result<(), AllocError>
    requires { HasNames names.now reply.now }
    ensures { OnOk result
        (text.new.items ≡ text.old.items ++ entry_text names.now number reply.now) }
{
    text.extend_from_slice(Buffer::new().format(number).as_bytes())?;
    text.push(b' ')?;
    push_reply(text, reply, names)?;
    text.push(b'\n')?;
    Ok(())
}

/// The text of a reply, with no number and no newline, after the text.
#[inline(always)]
pub fn push_reply<A: Allocator>(
    text: &mut Vec<u8, A>,
    reply: &Reply,
    names: &Names,
) -> Result<(), AllocError>
    requires { HasNames names.now reply.now }
    ensures { OnOk result (text.new.items ≡ text.old.items ++ text_of names.now reply.now) }
{
    match reply {
        Reply::Moved(divisor) => push_moved(text, names, divisor),
        Reply::Given(gifts, divisor) => push_counted(text, b"given ", *gifts, names, divisor),
        Reply::Joined(gifts, divisor) => push_counted(text, b"joined ", *gifts, names, divisor),
        Reply::Looked(gifts, divisor, _) => push_counted(text, b"looked ", *gifts, names, divisor),
        Reply::Verdict(verdict) => push_verdict(text, names, verdict),
        Reply::Rank(verdict) => push_rank(text, names, verdict),
        Reply::Stale(gifts) => {
            text.extend_from_slice(b"stale ")?;
            push_number(text, *gifts)
        }
        Reply::Won => text.extend_from_slice(b"won"),
        Reply::NotWon => text.extend_from_slice(b"not won"),
        Reply::Refused(refusal) => text.extend_from_slice(refusal_words(*refusal)),
    }
}

/// The amounts of a divisor as `name=amount`, in vertex order, with one space between two, after the text.
pub fn push_amounts<A: Allocator>(
    text: &mut Vec<u8, A>,
    names: &Names,
    divisor: &Divisor,
) -> Result<(), AllocError>
    requires { length names.now ≡ divisor.now.size }
    ensures { OnOk result (text.new.items ≡ text.old.items ++ pairs names.now (at divisor.now)) }
{
    push_pairs(text, names, divisor)
}

/// That a move was played, and the pairs.
fn push_moved<A: Allocator>(
    text: &mut Vec<u8, A>,
    names: &Names,
    amounts: &Divisor,
) -> Result<(), AllocError>
    requires { length names.now ≡ amounts.now.size }
    ensures { OnOk result (text.new.items ≡
        text.old.items ++ (codes "moved " ++ pairs names.now (at amounts.now))) }
{
    text.extend_from_slice(b"moved ")?;
    push_pairs(text, names, amounts)
}

/// A word, the number of gifts, a space and the pairs.
fn push_counted<A: Allocator>(
    text: &mut Vec<u8, A>,
    word: &[u8],
    gifts: u32,
    names: &Names,
    amounts: &Divisor,
) -> Result<(), AllocError>
    requires { length names.now ≡ amounts.now.size }
    ensures { OnOk result (text.new.items ≡ text.old.items ++
        (word.now ++ decimal gifts ++ codes " " ++ pairs names.now (at amounts.now))) }
{
    text.extend_from_slice(word)?;
    push_number(text, gifts)?;
    text.push(b' ')?;
    push_pairs(text, names, amounts)
}

/// The text of a verdict, after the text: its word, the pairs of its script and those of its reduced divisor.
pub(crate) fn push_verdict<A: Allocator>(
    text: &mut Vec<u8, A>,
    names: &Names,
    verdict: &Verdict,
) -> Result<(), AllocError>
    requires script { length names.now ≡ verdict.now.script.size }
    requires reduced { length names.now ≡ verdict.now.reduced.size }
    ensures { OnOk result (text.new.items ≡ text.old.items ++ verdict_text names.now verdict.now) }
{
    text.extend_from_slice(verdict_words(verdict.winnable))?;
    push_pairs(text, names, &verdict.script)?;
    text.extend_from_slice(b" to ")?;
    push_pairs(text, names, &verdict.reduced)
}

/// That the rank is at least a degree, or below it, and then the pairs of the first loss.
fn push_rank<A: Allocator>(
    text: &mut Vec<u8, A>,
    names: &Names,
    verdict: &RankVerdict,
) -> Result<(), AllocError>
    requires { HasNames names.now (Rank verdict.now) }
    ensures { OnOk result (text.new.items ≡ text.old.items ++ rank_text names.now verdict.now) }
{
    match verdict {
        RankVerdict::AtLeast(k) => {
            text.extend_from_slice(b"rank at least ")?;
            text.extend_from_slice(Buffer::new().format(*k).as_bytes())
        }
        RankVerdict::Below(k, loss) => {
            text.extend_from_slice(b"rank below ")?;
            text.extend_from_slice(Buffer::new().format(*k).as_bytes())?;
            text.extend_from_slice(b" at ")?;
            push_pairs(text, names, loss)
        }
    }
}

/// The digits of a number. A single digit is written at once.
fn push_number<A: Allocator>(text: &mut Vec<u8, A>, number: u32) -> Result<(), AllocError>
    ensures { OnOk result (text.new.items ≡ text.old.items ++ decimal number) }
{
    if number < 10 {
        text.push(b'0' + number as u8)?;
        return Ok(());
    }
    text.extend_from_slice(Buffer::new().format(number).as_bytes())
}

fn verdict_words(winnable: bool) -> &'static [u8]
    ensures { result.now ≡ verdict_word winnable }
{
    if winnable {
        b"winnable by "
    } else {
        b"unwinnable by "
    }
}

fn refusal_words(refusal: Refusal) -> &'static [u8]
    ensures { result.now ≡ refusal_text refusal }
{
    match refusal {
        Refusal::NoVertex => b"refused vertex",
        Refusal::Empty => b"refused empty",
        Refusal::Script => b"refused script",
        Refusal::Gift => b"refused gift",
        Refusal::Range => b"refused range",
        Refusal::Loop => b"refused loop",
        Refusal::Valence => b"refused valence",
    }
}

/// The most bytes of all pairs, and of the space before the first.
const MAX_PAIRS: usize = MAX_VERTICES * (MAX_LABEL + MAX_DIGITS);

/// The pairs of all vertices, with one space between two.
fn push_pairs<A: Allocator, N: Amounts>(
    text: &mut Vec<u8, A>,
    names: &Names,
    amounts: &N,
) -> Result<(), AllocError>
    requires { length names.now ≡ (N.numbers amounts.now).size }
    ensures { OnOk result
        (text.new.items ≡ text.old.items ++ pairs names.now (at (N.numbers amounts.now))) }
{
    // The pairs are written from the last to the first, so that each number ends where it must.
    let mut line = [0; MAX_PAIRS];
    let mut start = MAX_PAIRS;
    for v in (0..names.len()).rev() {
        start = amounts.write_amount(v, &mut line, start);
        start = names.write_label(v, &mut line, start);
    }
    // The first pair has no space before it.
    text.extend_from_slice(&line[(start + 1).min(MAX_PAIRS)..])?;
    Ok(())
}
