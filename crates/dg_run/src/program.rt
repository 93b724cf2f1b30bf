//! What is asked for is done.
ghost use Rattle.std.specs.Prelude.{◌≡◌, true, IfErr, OnOk};
ghost use Rattle.dg_session.specs.Streams.{passage};
ghost use Rattle.dg_run.specs.Performed.{LeavesInput, Performs, RefusesToPerform};
ghost use Rattle.dg_run.specs.Streams.{IsInputFault, IsOutputFault, TellsOfRead};

use crate::fault::Fault;
use crate::parties::run_party;
use crate::serve::serve_input;
use crate::sweeps::sweep_file;
use dg_invocation::Invocation;
use dg_system::{Input, Output, Sources};
use dg_tasks::answer;
use std::io::{Read, Write};
use std::rt::Files;
use std::sync::Wait;
use std::thread::Threads;

/// Does what is asked for. The whole text of an answer is made before its first byte is written, so that `output` gets
/// nothing if another fault than `Write` comes, and then a beginning of the text; but a session and a sweep answer as their
/// lines come, and the history of a party is printed also if sessions of it ended early. Only a session reads the input.
pub fn perform<R, S, I, O>(
    rt: &R,
    asked: Invocation<'_>,
    sources: &S,
    input: &mut Input<I>,
    output: &mut Output<O>,
) -> Result<(), Fault>
where
    R: Files + AllocGlobal + Threads + Wait + Sync,
    S: Sources,
    I: Read,
    O: Write,
    ensures done { OnOk result
        (Performs (S.held sources.now) (passage input.old.remaining input.new.remaining) asked.entry
        output.old.contents output.new.contents) }
    ensures refused { IfErr result
        (λ fault. RefusesToPerform (S.held sources.now) (passage input.old.remaining input.new.remaining)
        asked.entry fault output.old.contents output.new.contents) }
    ensures left { LeavesInput asked.entry input.old input.new }
    ensures read { IfErr result (λ fault. IsInputFault fault → input.new.has_failed ≡ true) }
    ensures whole { OnOk result (input.new.has_failed ≡ input.old.has_failed) }
    ensures noted { IfErr result (λ fault. TellsOfRead fault input.old input.new) }
    ensures write { IfErr result (λ fault. IsOutputFault fault → output.new.has_failed ≡ true) }
{
    match asked {
        Invocation::Text(text) => output.write_whole(text.as_bytes()).map_err(Fault::from),
        Invocation::Task(task) => match answer(rt, &task, sources) {
            Ok(text) => output.write_whole(text.as_slice()).map_err(Fault::from),
            Err(fault) => Err(Fault::Task(fault)),
        },
        Invocation::Serve(task) => serve_input(rt, &task, sources, input, output),
        Invocation::Sweep(task) => sweep_file(rt, &task, sources, output),
        Invocation::Party(task) => run_party(rt, &task, sources, output),
    }
}
