//! Answering one line of a seat.
ghost use Rattle.std.specs.Prelude.{◌≡◌, ◌≢◌, ℕ, List, length, Option};
ghost use Rattle.dg_rank.specs.Ranks.{IsWorkerCount};
ghost use Rattle.dg_rules.specs.declared.step.Command.TheVariants.{Call, Commit, Rank};
ghost use Rattle.dg_lines.specs.Texts.{HasNames, entry_text};
ghost use Rattle.dg_session.specs.Commands.{setup_of};
ghost use Rattle.dg_session.specs.Streams.{passage};
ghost use Rattle.dg_session.specs.SoFar.{answer_text, heard, look_of, seated, AnswerHasNames, Hears, Obeys, Tells};

use crate::ends::SessionEnd;
use crate::line_format::LineFormat;
use dg_analyst::{Look, commit_look, commit_rank, commit_stale, look, try_rank_ungated};
use dg_lines::{LineFault, parse_line, push_entry};
use dg_log::{Name, Receipt};
use dg_rank::{RankFault, trials};
use dg_reduce::InverseLaplacian;
use dg_rules::{Command, Plain, Question};
use dg_table::{Seat, Table};
use dg_tokens::Names;
use std::alloc::Global;
use std::sync::Wait;
use std::thread::Threads;

/// What the sessions of a table share: there is a name for each vertex, and there are 1 to 16 workers.
#[derive(Drop)]
pub(crate) struct Shared<'a, N: Name, R: Threads + Wait> {
    pub(crate) rt: &'a R,
    pub(crate) alloc: Global,
    pub(crate) table: &'a Table<N>,
    pub(crate) names: &'a Names,
    pub(crate) workers: u32,
    pub(crate) how: LineFormat,
    ghost named: { length names.now ≡ N.table.start.graph.size },
    ghost helped: { IsWorkerCount workers },
}

/// What a line is answered with.
#[derive(Drop)]
pub(crate) enum Answer<N: Name> {
    /// The line of the entry that it made.
    Made(Receipt<N>),
    /// That its seat keeps no look.
    NoLook,
    /// That its rank test is past the limits.
    TooMany,
    /// What is wrong with it.
    BadLine(LineFault),
}

/// What was said and is not written yet, always whole lines; and what serves to find what is said.
#[derive(Drop)]
pub(crate) struct AnswerBuffer {
    /// `None` if nobody hears it.
    pub(crate) text: Option<Vec<u8>>,
    /// One line, copied to `text` when it is whole, so that memory refused on the way says nothing.
    pub(crate) scratch: Vec<u8>,
    /// What serves the verdicts, made anew after an edge was added; no answer depends on it.
    pub(crate) inverse: InverseLaplacian,
}

impl AnswerBuffer {
    /// Says an answer. If memory is refused, nothing more is said.
    pub(crate) fn say<N: Name>(
        &mut self,
        table: &Table<N>,
        names: &Names,
        answer: &Answer<N>,
    ) -> Result<(), SessionEnd>
        requires { AnswerHasNames names.now answer.now }
        ensures { Tells (answer_text names.now answer.now)
            (passage (heard self.old.text) (heard self.new.text)) result }
    {
        match answer {
            Answer::Made(receipt) => self.say_entry(table, names, receipt),
            Answer::NoLook => self.say_words(b"bad look\n"),
            Answer::TooMany => self.say_words(b"bad trials\n"),
            Answer::BadLine(fault) => self.say_words(fault.answer_line().as_bytes()),
        }
    }

    /// Says the words. If memory is refused, nothing more is said.
    fn say_words(&mut self, words: &[u8]) -> Result<(), SessionEnd>
        ensures { Tells words.now (passage (heard self.old.text) (heard self.new.text)) result }
    {
        let Some(text) = &mut self.text else {
            return Ok(());
        };
        match text.extend_from_slice(words) {
            Ok(()) => Ok(()),
            Err(_) => Err(SessionEnd::Memory),
        }
    }

    /// Says the line of the entry that the receipt is for. If memory is refused, nothing more is said.
    fn say_entry<N: Name>(
        &mut self,
        table: &Table<N>,
        names: &Names,
        receipt: &Receipt<N>,
    ) -> Result<(), SessionEnd>
        requires { HasNames names.now receipt.now.1.reply }
        ensures { Tells (entry_text names.now receipt.now.0 receipt.now.1.reply)
            (passage (heard self.old.text) (heard self.new.text)) result }
    {
        let Some(text) = &mut self.text else {
            return Ok(());
        };
        let entry = table.log().entry(receipt);
        self.scratch.clear();
        match push_entry(
            &mut self.scratch,
            receipt.number() as usize,
            &entry.reply,
            names,
        ) {
            Ok(()) => match text.extend_from_slice(&self.scratch) {
                Ok(()) => Ok(()),
                Err(_) => Err(SessionEnd::Memory),
            },
            Err(_) => Err(SessionEnd::Memory),
        }
    }
}

/// Answers a line of a seat, which keeps a look or none: carries out its command, or finds what is wrong with it.
#[inline(always)]
pub(crate) fn answer_seat<N: Name, R: Threads + Wait>(
    shared: &Shared<N, R>,
    kept: &mut Option<Look<N>>,
    inverse: &mut InverseLaplacian,
    seat: &mut Seat<N>,
    line: &[u8],
) -> Result<Answer<N>, SessionEnd>
    ensures { Hears (setup_of shared.now.how N.table shared.now.names.now shared.now.workers)
        line.now
        (seated (look_of kept.old) seat.old) (seated (look_of kept.new) seat.new) result }
{
    match parse_line(line, shared.names) {
        Ok(command) => obey(shared, kept, inverse, seat, &command),
        Err(fault) => Ok(Answer::BadLine(fault)),
    }
}

/// Carries out a command.
#[inline(never)]
fn obey<N: Name, R: Threads + Wait>(
    shared: &Shared<N, R>,
    kept: &mut Option<Look<N>>,
    inverse: &mut InverseLaplacian,
    seat: &mut Seat<N>,
    command: &Command,
) -> Result<Answer<N>, SessionEnd>
    ensures { Obeys (setup_of shared.now.how N.table shared.now.names.now shared.now.workers)
        command.now
        (seated (look_of kept.old) seat.old) (seated (look_of kept.new) seat.new) result }
{
    match command {
        Command::Call(plain) => match plain {
            Plain::Look => take_look(shared, kept, seat),
            Plain::Move(_) | Plain::Gift(..) | Plain::Join(..) | Plain::Claim => {
                call(shared, seat, plain)
            }
        },
        Command::Commit => enter_verdict(shared, kept, inverse, seat),
        Command::Rank(k) => enter_rank(shared, kept, seat, *k),
    }
}

/// Takes a look, and keeps it in place of an older one.
fn take_look<N: Name, R: Threads + Wait>(
    shared: &Shared<N, R>,
    kept: &mut Option<Look<N>>,
    seat: &mut Seat<N>,
) -> Result<Answer<N>, SessionEnd>
    ensures { Obeys (setup_of shared.now.how N.table shared.now.names.now shared.now.workers)
        (Call Plain.Look)
        (seated (look_of kept.old) seat.old) (seated (look_of kept.new) seat.new) result }
{
    match look(shared.table, shared.rt, shared.alloc, seat) {
        Ok(look) => {
            let receipt = look.receipt().again();
            *kept = Some(look);
            Ok(Answer::Made(receipt))
        }
        Err(fault) => Err(SessionEnd::Table(fault)),
    }
}

/// Makes a call other than a look, whatever look is kept.
fn call<N: Name, R: Threads + Wait>(
    shared: &Shared<N, R>,
    seat: &mut Seat<N>,
    plain: &Plain,
) -> Result<Answer<N>, SessionEnd>
    requires { plain.now ≢ Plain.Look }
    ensures { (kept : Option ℕ) →
        Obeys (setup_of shared.now.how N.table shared.now.names.now shared.now.workers)
        (Call plain.now)
        (seated kept seat.old) (seated kept seat.new) result }
{
    match shared.table.call(shared.rt, shared.alloc, seat, *plain) {
        Ok(receipt) => Ok(Answer::Made(receipt)),
        Err(fault) => Err(SessionEnd::Table(fault)),
    }
}

/// Enters the verdict on the look that is kept, and uses the look up. If the look is stale, nothing is computed.
fn enter_verdict<N: Name, R: Threads + Wait>(
    shared: &Shared<N, R>,
    kept: &mut Option<Look<N>>,
    inverse: &mut InverseLaplacian,
    seat: &mut Seat<N>,
) -> Result<Answer<N>, SessionEnd>
    ensures { Obeys (setup_of shared.now.how N.table shared.now.names.now shared.now.workers)
        Commit
        (seated (look_of kept.old) seat.old) (seated (look_of kept.new) seat.new) result }
{
    let Some(look) = kept else {
        return Ok(Answer::NoLook);
    };
    let (table, rt, alloc) = (shared.table, shared.rt, shared.alloc);
    match commit_stale(table, rt, alloc, seat, look, &Question::Judge) {
        Ok(Some(receipt)) => {
            *kept = None;
            Ok(Answer::Made(receipt))
        }
        Ok(None) => match commit_look(table, rt, alloc, seat, look, inverse) {
            Ok(receipt) => {
                *kept = None;
                Ok(Answer::Made(receipt))
            }
            Err(fault) => Err(SessionEnd::Table(fault)),
        },
        Err(fault) => Err(SessionEnd::Table(fault)),
    }
}

/// Enters the rank test of degree k on the look that is kept, and uses the look up. If the look is stale, nothing is tried. If
/// there would be too many trials, the look stays.
fn enter_rank<N: Name, R: Threads + Wait>(
    shared: &Shared<N, R>,
    kept: &mut Option<Look<N>>,
    seat: &mut Seat<N>,
    k: u32,
) -> Result<Answer<N>, SessionEnd>
    ensures { Obeys (setup_of shared.now.how N.table shared.now.names.now shared.now.workers)
        (Rank k)
        (seated (look_of kept.old) seat.old) (seated (look_of kept.new) seat.new) result }
{
    if let Some(look) = kept
        && let Some(_) = trials(look.graph().size(), k)
    {
        let _receipt = look.receipt();
        let (table, rt, alloc) = (shared.table, shared.rt, shared.alloc);
        match commit_stale(table, rt, alloc, seat, look, &Question::Rank(k)) {
            Ok(Some(receipt)) => {
                *kept = None;
                return Ok(Answer::Made(receipt));
            }
            Ok(None) => return enter_tried_rank(shared, kept, seat, k),
            Err(fault) => return Err(SessionEnd::Table(fault)),
        }
    }
    enter_tried_rank(shared, kept, seat, k)
}

/// Tries a rank on the look that is kept, enters the answer, and uses the look up. If there would be too many trials, it stays.
fn enter_tried_rank<N: Name, R: Threads + Wait>(
    shared: &Shared<N, R>,
    kept: &mut Option<Look<N>>,
    seat: &mut Seat<N>,
    k: u32,
) -> Result<Answer<N>, SessionEnd>
    ensures { Obeys (setup_of shared.now.how N.table shared.now.names.now shared.now.workers)
        (Rank k)
        (seated (look_of kept.old) seat.old) (seated (look_of kept.new) seat.new) result }
{
    let Some(look) = kept.take() else {
        return Ok(Answer::NoLook);
    };
    let _receipt = look.receipt();
    match try_rank_ungated(shared.rt, look, k, shared.workers) {
        Ok(tried) => match commit_rank(shared.table, shared.rt, shared.alloc, seat, tried) {
            Ok(receipt) => Ok(Answer::Made(receipt)),
            Err((_, fault)) => Err(SessionEnd::Table(fault)),
        },
        Err((look, RankFault::TooMany)) => {
            *kept = Some(look);
            Ok(Answer::TooMany)
        }
        Err((_, RankFault::Workers)) => unreachable!(),
        Err((_, RankFault::OutOfMemory)) => unreachable!(),
        Err((_, RankFault::Spawn)) => Err(SessionEnd::Spawn),
    }
}
