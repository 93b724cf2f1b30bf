//! Answering one line of any seat.
ghost use Rattle.std.specs.Prelude.{◌≡◌, ◌≤◌, length};
ghost use Rattle.dg_session.specs.Commands.{setup_of};
ghost use Rattle.dg_session.specs.Streams.{passage};
ghost use Rattle.dg_session.specs.SoFar.{heard, state_of, Handles};

use crate::answering::{Answer, AnswerBuffer, Shared, answer_seat};
use crate::ends::SessionEnd;
use crate::entries_so_far::EntriesSoFar;
use crate::line_format::addressed_seat;
use dg_analyst::Look;
use dg_lines::LineFault;
use dg_log::Name;
use dg_table::Seat;
use std::sync::Wait;
use std::thread::Threads;

/// Answers a line: as a line of the seat that it is for, which first learns the history as the last line left it; or by saying
/// that there is no such seat.
#[inline(always)]
pub(crate) fn answer_line<N: Name, R: Threads + Wait>(
    shared: &Shared<N, R>,
    kept: &mut [Option<Look<N>>],
    entries_so_far: &mut EntriesSoFar<N>,
    said: &mut AnswerBuffer,
    seats: &mut [Seat<N>],
    line: &[u8],
) -> Result<(), SessionEnd>
    requires some { 1 ≤ length seats.old }
    requires each { length kept.old ≡ length seats.old }
    ensures { Handles (setup_of shared.now.how N.table shared.now.names.now shared.now.workers)
        line.now (state_of seats.old kept.old entries_so_far.old) (state_of seats.new kept.new entries_so_far.new)
        (passage (heard said.old.text) (heard said.new.text)) result }
{
    let Some((place, text)) = addressed_seat(shared.how, seats.len(), line) else {
        return said.say(
            shared.table,
            shared.names,
            &Answer::BadLine(LineFault::Seat),
        );
    };
    let seat = &mut seats[place];
    let calls = seat.calls();
    entries_so_far.tell(seat);
    let answered = answer_seat(shared, &mut kept[place], &mut said.inverse, seat, text);
    entries_so_far.follow(seat, calls);
    match answered {
        Ok(answer) => said.say(shared.table, shared.names, &answer),
        Err(end) => Err(end),
    }
}
