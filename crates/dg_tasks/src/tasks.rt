//! Tasks, done on the tables that they name.
ghost use Rattle.std.specs.Prelude.{IfOk, IfErr, ◌≢◌};
ghost use Rattle.dg_tasks.specs.Tasks.{IsAnswer, RefusesTask};

use crate::fault::TaskFault;
use crate::games::greedy_answer;
use crate::printed::verdict_answer;
use crate::ranks::{rank_answer, rank_answer_alone, riemann_roch_answer};
use crate::rehearsing::rehearsal_answer;
use crate::table_source::load_table;
use dg_invocation::Task;
use dg_system::{Shortage, Sources};
use std::rt::Files;
use std::sync::Wait;
use std::thread::Threads;

/// The answer to a task, as text. Only a rank test by two workers or more starts threads and waits for them; all else is done
/// as `answer_alone` does it.
///
/// Refused with `Source` or `File` if its table is not read or is refused. Then a rehearsal is refused with `Source` for its
/// steps, with `Line` for the first line that spells no step, and for the first step that is refused, with `Full` after 65,536
/// others, with `NoLook` if its seat keeps none, or with `StepTrials` past the limits; a rank test with `TooMany`; Riemann-Roch
/// with `Chip` if the residual is out of range, and then with `TooMany`. `Shortage` comes in any task, at the growth or the
/// thread that was refused.
pub fn answer<R, S>(rt: &R, task: &Task<'_>, sources: &S) -> Result<Vec<u8>, TaskFault>
where
    R: Files + AllocGlobal + Threads + Wait,
    S: Sources,
    ensures done { IfOk result (λ text. IsAnswer (S.held sources.now) task.now text.items) }
    ensures refused { IfErr result (RefusesTask (S.held sources.now) task.now) }
{
    match task {
        Task::Rank(test) if test.workers > 1 => match load_table(rt, sources, test.file) {
            Ok(table) => rank_answer(rt, rt.alloc(), &table, test.degree, test.workers),
            Err(fault) => Err(fault),
        },
        _ => answer_alone(rt, task, sources),
    }
}

/// The answer to a task by the thread that calls, which makes the trials of a rank test itself, whatever number of workers the
/// task has. It starts no thread and waits for nothing, and it is refused as `answer` is, but never with `Spawn`.
pub fn answer_alone<R, S>(rt: &R, task: &Task<'_>, sources: &S) -> Result<Vec<u8>, TaskFault>
where
    R: Files + AllocGlobal,
    S: Sources,
    ensures done { IfOk result (λ text. IsAnswer (S.held sources.now) task.now text.items) }
    ensures refused { IfErr result (RefusesTask (S.held sources.now) task.now) }
    ensures alone { IfErr result (λ fault. fault ≢ TaskFault.Shortage Shortage.Spawn) }
{
    let table = match load_table(rt, sources, task.file()) {
        Ok(table) => table,
        Err(fault) => return Err(fault),
    };
    match task {
        Task::Rehearse { file: _, steps } => match sources.bytes(rt, steps) {
            Ok(steps) => rehearsal_answer(rt.alloc(), &table, steps.as_slice()),
            Err(fault) => Err(TaskFault::Source(fault)),
        },
        Task::Judge { file: _, ordered } => verdict_answer(rt.alloc(), &table, *ordered),
        Task::Rank(test) => rank_answer_alone(rt.alloc(), &table, test.degree),
        Task::RiemannRoch { file: _ } => riemann_roch_answer(rt.alloc(), &table),
        Task::Greedy(play) => greedy_answer(rt.alloc(), &table, play.turns),
    }
}
