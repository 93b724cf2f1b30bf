//! Taking what was read: bytes that are cut into lines, and the end.
ghost use Rattle.std.specs.Prelude.{◌≡◌, ◌≢◌, ◌+◌, ◌++◌, ◌<◌, ◌≤◌, [], length, map, true, None, OnOk, IfErr, IfSome, MatchResult};
ghost use Rattle.dg_session.specs.Commands.{setup_of};
ghost use Rattle.dg_session.specs.Streams.{passage};
ghost use Rattle.dg_session.specs.declared.ends.SessionEnd.TheVariants.{Memory};
ghost use Rattle.dg_session.specs.SoFar.{beginning, heard, look_of, so_far, state_of, Handles, IsReady, RefusesPart, Takes};

use crate::answering::{AnswerBuffer, Shared};
use crate::ends::{MAX_LINE, MAX_LINES, SessionEnd};
use crate::entries_so_far::EntriesSoFar;
use crate::speaking::answer_line;
use dg_analyst::Look;
use dg_lines::cut;
use dg_log::Name;
use dg_reduce::InverseLaplacian;
use dg_table::Seat;
use std::alloc::Global;
use std::sync::Wait;
use std::thread::Threads;

/// How far a session is.
#[derive(Drop)]
pub(crate) struct SessionProgress<N: Name> {
    /// What came after the last newline.
    pub(crate) pending: Vec<u8>,
    /// How many lines are answered.
    pub(crate) count: u32,
    /// The look that each seat keeps.
    pub(crate) kept: Vec<Option<Look<N>>>,
    /// What the lines have come to.
    pub(crate) entries_so_far: EntriesSoFar<N>,
    pub(crate) said: AnswerBuffer,
}

impl<N: Name> SessionProgress<N> {
    /// How far a session is that has read nothing, and whose seats keep no look. It writes its answers into this text, and uses
    /// this inverse for its verdicts. `None` if memory is refused.
    pub(crate) fn new(
        alloc: Global,
        seats: &[Seat<N>],
        text: Option<Vec<u8>>,
        inverse: &InverseLaplacian,
    ) -> Option<SessionProgress<N>>
        ensures begins { IfSome result (λ p. so_far p seats.now ≡ beginning seats.now) }
        ensures said { IfSome result (λ p. p.said.text ≡ text) }
    {
        let kept = match no_looks(alloc, seats) {
            Some(kept) => kept,
            None => return None,
        };
        Some(SessionProgress {
            pending: Vec::new(alloc),
            count: 0,
            kept,
            entries_so_far: EntriesSoFar::new(),
            said: AnswerBuffer {
                text,
                scratch: Vec::new(alloc),
                inverse: *inverse,
            },
        })
    }
}

/// A place for the look of each seat, all empty. `None` if memory is refused.
fn no_looks<N: Name>(alloc: Global, seats: &[Seat<N>]) -> Option<Vec<Option<Look<N>>>>
    ensures { IfSome result (λ looks. map look_of looks.items ≡ map (λ x. None) seats.now) }
{
    let mut looks = Vec::new(alloc);
    for _ in seats {
        match looks.push(None) {
            Ok(()) => {}
            Err(_) => return None,
        }
    }
    Some(looks)
}

/// Whether a part of a line may be taken after what is pending.
fn check_part(pending: &[u8], count: u32, part: &[u8]) -> Result<(), SessionEnd>
    requires { length pending.now ≤ MAX_LINE }
    ensures short { OnOk result (length pending.now + length part.now ≤ MAX_LINE) }
    ensures more { OnOk result (count ≢ MAX_LINES) }
    ensures refused { IfErr result (RefusesPart pending.now count part.now) }
{
    if count == MAX_LINES {
        return Err(SessionEnd::Turns);
    }
    if part.len() > MAX_LINE - pending.len() {
        return Err(SessionEnd::LongLine);
    }
    Ok(())
}

/// The line that is pending, with the part that ends it. If nothing is pending, that is the part, without a copy.
#[inline(always)]
fn whole_line<'a>(pending: &'a mut Vec<u8>, part: &'a [u8]) -> Result<&'a [u8], SessionEnd>
    ensures { MatchResult result (λ line. line.now ≡ pending.old.items ++ part.now) (λ end. end ≡ Memory) }
{
    if pending.is_empty() {
        return Ok(part);
    }
    match pending.extend_from_slice(part) {
        Ok(()) => Ok(pending),
        Err(_) => Err(SessionEnd::Memory),
    }
}

/// Answers the line that is pending, with the part that ends it. The line is then counted, and no longer pending.
#[inline(always)]
fn end_line<N: Name, R: Threads + Wait>(
    shared: &Shared<N, R>,
    progress: &mut SessionProgress<N>,
    seats: &mut [Seat<N>],
    part: &[u8],
) -> Result<(), SessionEnd>
    requires ready { IsReady (so_far progress.old seats.old) }
    requires more { progress.old.count < MAX_LINES }
    ensures handled { Handles (setup_of shared.now.how N.table shared.now.names.now shared.now.workers)
        (progress.old.pending.items ++ part.now) (so_far progress.old seats.old).state
        (so_far progress.new seats.new).state
        (passage (heard progress.old.said.text) (heard progress.new.said.text)) result }
    ensures pending { OnOk result (progress.new.pending.items ≡ []) }
    ensures count { OnOk result (progress.new.count ≡ progress.old.count + 1) }
{
    let line = match whole_line(&mut progress.pending, part) {
        Ok(line) => line,
        Err(end) => return Err(end),
    };
    match answer_line(
        shared,
        progress.kept.as_mut_slice(),
        &mut progress.entries_so_far,
        &mut progress.said,
        seats,
        line,
    ) {
        Ok(()) => {
            progress.pending.clear();
            progress.count += 1;
            Ok(())
        }
        Err(end) => Err(end),
    }
}

/// Takes bytes that were read, and answers the lines that end in them.
fn take_bytes<N: Name, R: Threads + Wait>(
    shared: &Shared<N, R>,
    progress: &mut SessionProgress<N>,
    seats: &mut [Seat<N>],
    bytes: &[u8],
) -> Result<(), SessionEnd>
    requires { IsReady (so_far progress.old seats.old) }
    ensures { Takes (setup_of shared.now.how N.table shared.now.names.now shared.now.workers) ⊥
        (so_far progress.old seats.old) bytes.now (so_far progress.new seats.new)
        (passage (heard progress.old.said.text) (heard progress.new.said.text)) result }
{
    let mut rest = bytes;
    'parts: while !rest.is_empty() {
        let (part, after) = cut(rest, b'\n');
        match check_part(&progress.pending, progress.count, part) {
            Ok(()) => {}
            Err(end) => return Err(end),
        }
        let Some(after) = after else {
            return match progress.pending.extend_from_slice(part) {
                Ok(()) => Ok(()),
                Err(_) => Err(SessionEnd::Memory),
            };
        };
        match end_line(shared, progress, seats, part) {
            Ok(()) => {}
            Err(end) => return Err(end),
        }
        rest = after;
    }
    Ok(())
}

/// Takes bytes that were read, and answers the lines that end in them. If no more is to come, what is pending then is the last
/// line, if it has a byte.
pub(crate) fn take<N: Name, R: Threads + Wait>(
    shared: &Shared<N, R>,
    progress: &mut SessionProgress<N>,
    seats: &mut [Seat<N>],
    bytes: &[u8],
    is_over: bool,
) -> Result<(), SessionEnd>
    requires { IsReady (so_far progress.old seats.old) }
    ensures taken { Takes (setup_of shared.now.how N.table shared.now.names.now shared.now.workers) (is_over ≡ true)
        (so_far progress.old seats.old) bytes.now (so_far progress.new seats.new)
        (passage (heard progress.old.said.text) (heard progress.new.said.text)) result }
    ensures pending { OnOk result (is_over ≡ true → progress.new.pending.items ≡ []) }
{
    match take_bytes(shared, progress, seats, bytes) {
        Ok(()) => {}
        Err(end) => return Err(end),
    }
    if !is_over || progress.pending.is_empty() {
        return Ok(());
    }
    match end_line(shared, progress, seats, &[]) {
        Ok(()) => Ok(()),
        Err(end) => Err(end),
    }
}
