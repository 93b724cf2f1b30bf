//! Schedules that are read, played and printed line by line: neither the steps nor the history are kept.
ghost use Rattle.std.specs.Prelude.{ℕ, List, ◌≢◌, IfOk, IfErr};
ghost use Rattle.dg_lines.specs.Cuts.{lines};
ghost use Rattle.dg_tasks.specs.Rehearsals.{IsRehearsalAnswer, MayGoOn, played, GoesOn};
ghost use Rattle.dg_tasks.specs.Refusals.{IsStepsFaultOn, RefusesSchedule};

use crate::fault::TaskFault;
use dg_file::TableFile;
use dg_game::{Rehearsal, RehearseFault};
use dg_lines::{Lines, parse_step, push_entry};
use dg_rules::{BLANK, Entry, Step};
use dg_system::Shortage;
use dg_tokens::Names;
use std::alloc::Global;

/// The history of a schedule as text: a line for each entry, with its number, from 0 on, and the text of its reply. The
/// history is the legal one that the steps make from the table's start, as `rehearse` of `dg_game` does: it promises
/// `IsRehearsal`, too, and `IsRehearsalFault` of a step that is refused.
/// `Shortage` comes in the place of a step whose line did not fit.
pub(crate) fn rehearsal_answer(
    alloc: Global,
    table: &TableFile,
    steps: &[u8],
) -> Result<Vec<u8>, TaskFault>
    ensures printed { IfOk result
        (λ text. IsRehearsalAnswer table.now.start table.now.names (lines steps.now) text.items) }
    ensures refused { IfErr result
        (RefusesSchedule table.now.start.graph.size table.now.names (lines steps.now)) }
{
    let names = table.names();
    let mut rehearsal = Rehearsal::new(table.start());
    let mut entry = BLANK;
    let mut text = Vec::new(alloc);
    let mut stopped = None;
    let mut line = 0;
    'lines: for bytes in Lines::new(steps) {
        line += 1;
        let step = match parse_step(bytes, names) {
            Ok(step) => step,
            Err(fault) => return Err(TaskFault::Line { line, fault }),
        };
        if stopped.is_none() {
            match play_step(&mut rehearsal, &mut entry, &mut text, names, &step) {
                Ok(()) => {}
                Err(fault) => stopped = Some(fault),
            }
        }
    }
    match stopped {
        Some(fault) => Err(task_fault(fault)),
        None => Ok(text),
    }
}

/// Why a schedule is not played whose step is refused so. The condition is that the step has a seat.
fn task_fault(fault: RehearseFault) -> TaskFault
    requires { (i : ℕ) → fault ≢ RehearseFault.Seat i }
    ensures { (n : ℕ) (names all : List (List ℕ)) → IsStepsFaultOn n names all fault →
        RefusesSchedule n names all result }
{
    match fault {
        RehearseFault::Seat(_) => unreachable!(),
        RehearseFault::Full(i) => TaskFault::Full(i),
        RehearseFault::NoLook(i) => TaskFault::NoLook(i),
        RehearseFault::TooMany(i) => TaskFault::StepTrials(i),
        RehearseFault::OutOfMemory => TaskFault::Shortage(Shortage::OutOfMemory),
    }
}

/// Plays the next step, and writes the line of its entry; or why it can't be played. The entry is written if it is lent.
fn play_step(
    rehearsal: &mut Rehearsal,
    entry: &mut Entry,
    text: &mut Vec<u8>,
    names: &Names,
    step: &Step,
) -> Result<(), RehearseFault>
    requires { MayGoOn names.now rehearsal.old text.old.items }
    ensures { GoesOn names.now step.now (played rehearsal.old text.old.items)
        (played rehearsal.new text.new.items) result }
{
    let number = rehearsal.game.entries() as usize;
    match rehearsal.play(step, entry) {
        Ok(()) => match push_entry(text, number, &entry.reply, names) {
            Ok(()) => Ok(()),
            Err(_) => Err(RehearseFault::OutOfMemory),
        },
        Err(fault) => Err(fault),
    }
}
