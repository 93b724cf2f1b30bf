//! Sweeps over the lines of a file.
ghost use Rattle.std.specs.Prelude.{◌≡◌, true, Ok, IfErr, OnOk};
ghost use Rattle.dg_sweep.specs.Kinds.{answers_of};
ghost use Rattle.dg_run.specs.Sweeping.{IsSwept, Sweeps, RefusesLines, RefusesSweeping};
ghost use Rattle.dg_run.specs.Streams.{IsInputFault, IsOutputFault};

use crate::fault::Fault;
use crate::table_source::load_table;
use dg_invocation::SweepTask;
use dg_sweep::{LineKind, sweep};
use dg_system::{Input, Output, Sources};
use dg_tasks::TaskFault;
use std::io::Write;
use std::rt::Files;
use std::sync::Wait;
use std::thread::Threads;

/// Answers the lines of the file that is named. A table file is read and judged before the file of its lines is opened.
pub(crate) fn sweep_file<R, S, O>(
    rt: &R,
    task: &SweepTask<'_>,
    sources: &S,
    output: &mut Output<O>,
) -> Result<(), Fault>
where
    R: Files + AllocGlobal + Threads + Wait + Sync,
    S: Sources,
    O: Write,
    ensures done { OnOk result
        (Sweeps (S.held sources.now) task.now output.old.contents output.new.contents) }
    ensures read { IfErr result (λ fault. ¬ IsInputFault fault) }
    ensures write { IfErr result (λ fault. IsOutputFault fault → output.new.has_failed ≡ true) }
    ensures refused { IfErr result (λ fault. RefusesSweeping (S.held sources.now) task.now fault
        output.old.contents output.new.contents) }
{
    let Some(lines) = task.divisors else {
        let kind = LineKind::Tables(task.question);
        return sweep_lines(rt, task.file, &kind, task.workers, sources, output);
    };
    let table = match load_table(rt, sources, task.file) {
        Ok(table) => table,
        Err(fault) => return Err(Fault::Task(fault)),
    };
    let kind = LineKind::divisors(task.question, &table);
    sweep_lines(rt, lines, &kind, task.workers, sources, output)
}

/// Answers the lines of this file, which are of this kind.
fn sweep_lines<R, S, O>(
    rt: &R,
    file: &str,
    kind: &LineKind<'_>,
    workers: u32,
    sources: &S,
    output: &mut Output<O>,
) -> Result<(), Fault>
where
    R: Files + AllocGlobal + Threads + Wait + Sync,
    S: Sources,
    O: Write,
    ensures done { OnOk result (IsSwept output.old.contents output.new.contents (Ok tt)
        (S.held sources.now file.now) (answers_of kind.now)) }
    ensures read { IfErr result (λ fault. ¬ IsInputFault fault) }
    ensures write { IfErr result (λ fault. IsOutputFault fault → output.new.has_failed ≡ true) }
    ensures refused { IfErr result (λ fault. RefusesLines output.old.contents output.new.contents fault
        (S.held sources.now file.now) (answers_of kind.now)) }
{
    let stream = match sources.open(rt, file) {
        Ok(stream) => stream,
        Err(fault) => return Err(Fault::Task(TaskFault::Source(fault))),
    };
    let mut reader = Input::new(stream);
    match sweep(rt, rt.alloc(), kind, workers, &mut reader, output) {
        Ok(()) => Ok(()),
        Err(end) => Err(Fault::Sweep(end)),
    }
}
