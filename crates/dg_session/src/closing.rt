//! What is printed of a table that was closed.
ghost use Rattle.std.specs.Prelude.{◌≡◌, ◌≤◌, ◌++◌, length, take, decimal, IfOk, OnOk};
ghost use Rattle.dg_lines.specs.Texts.{HasNames, RepliesHaveNames};
ghost use Rattle.dg_session.specs.Printed.{numbered_entry_text, numbered_entries_text, seat_text, calls_text, totals_text};

use dg_chips::Divisor;
use dg_lines::{push_amounts, push_reply};
use dg_log::Name;
use dg_rules::Entry;
use dg_table::Audit;
use dg_tokens::Names;
use itoa::Buffer;
use std::alloc::{AllocError, Global};

/// The text of a table that was closed: the lines of its entries, and then its totals, with the calls of so many seats. The
/// conditions are that the history's replies and the amounts after it have as many vertices as there are names, and at most 64
/// seats.
///
/// Refused if there is not enough memory.
pub(crate) fn party_text<N: Name>(
    alloc: Global,
    names: &Names,
    audit: &Audit<N>,
    seats: usize,
) -> Result<Vec<u8>, AllocError>
    requires history { RepliesHaveNames names.now audit.now.pen.entries }
    requires position { length names.now ≡ audit.now.position.size }
    requires seats { seats ≤ 64 }
    ensures { IfOk result (λ text. text.items ≡ numbered_entries_text names.now 0 audit.now.pen.entries
        ++ totals_text names.now audit.now.entries audit.now.gifts audit.now.position
        (take seats audit.now.calls)) }
{
    let mut text = Vec::new(alloc);
    push_entries(&mut text, names, audit)?;
    push_totals(
        &mut text,
        names,
        audit.entries,
        audit.gifts,
        &audit.position,
        &audit.calls[..seats],
    )?;
    Ok(text)
}

// The lines of the entries of the history, each with its seat, numbered from 0 on, after the text.
fn push_entries<N: Name>(
    text: &mut Vec<u8>,
    names: &Names,
    audit: &Audit<N>,
) -> Result<(), AllocError>
    requires { RepliesHaveNames names.now audit.now.pen.entries }
    ensures { OnOk result
        (text.new.items ≡ text.old.items ++ numbered_entries_text names.now 0 audit.now.pen.entries) }
{
    'entries: for number in 0..audit.len() {
        push_party_entry(text, names, number, audit.entry(number))?;
    }
    Ok(())
}

// The line of an entry: its number, its seat and the text of its reply, after the text.
fn push_party_entry(
    text: &mut Vec<u8>,
    names: &Names,
    number: u32,
    entry: &Entry,
) -> Result<(), AllocError>
    requires { HasNames names.now entry.now.reply }
    ensures { OnOk result
        (text.new.items ≡ text.old.items ++ numbered_entry_text names.now number entry.now) }
{
    text.extend_from_slice(Buffer::new().format(number).as_bytes())?;
    text.extend_from_slice(b" ")?;
    text.extend_from_slice(Buffer::new().format(entry.seat).as_bytes())?;
    text.extend_from_slice(b" ")?;
    push_reply(text, &entry.reply, names)?;
    text.extend_from_slice(b"\n")
}

// How many entries there are, how many gifts, levies and joins, the amounts, and the calls of each seat, after the text.
fn push_totals(
    text: &mut Vec<u8>,
    names: &Names,
    entries: u32,
    gifts: u32,
    position: &Divisor,
    calls: &[u64],
) -> Result<(), AllocError>
    requires { length names.now ≡ position.now.size }
    ensures { OnOk result
        (text.new.items ≡ text.old.items
        ++ totals_text names.now entries gifts position.now calls.now) }
{
    push_count(text, b"entries ", u64::from(entries))?;
    push_count(text, b"\ngifts ", u64::from(gifts))?;
    text.extend_from_slice(b"\nposition ")?;
    push_amounts(text, names, position)?;
    text.extend_from_slice(b"\n")?;
    push_calls(text, calls)
}

// The line of each seat's calls, from seat 1 on, after the text.
fn push_calls(text: &mut Vec<u8>, calls: &[u64]) -> Result<(), AllocError>
    ensures { OnOk result (text.new.items ≡ text.old.items ++ calls_text 1 calls.now) }
{
    'seats: for (place, count) in calls.iter().enumerate() {
        push_seat(text, place as u64 + 1, *count)?;
    }
    Ok(())
}

// The line of a seat's calls, after the text.
fn push_seat(text: &mut Vec<u8>, number: u64, count: u64) -> Result<(), AllocError>
    ensures { OnOk result (text.new.items ≡ text.old.items ++ seat_text number count) }
{
    push_count(text, b"seat ", number)?;
    push_count(text, b" calls ", count)?;
    text.extend_from_slice(b"\n")
}

// A label and a number, after the text.
fn push_count(text: &mut Vec<u8>, label: &[u8], count: u64) -> Result<(), AllocError>
    ensures { OnOk result (text.new.items ≡ text.old.items ++ label.now ++ decimal count) }
{
    text.extend_from_slice(label)?;
    text.extend_from_slice(Buffer::new().format(count).as_bytes())
}
