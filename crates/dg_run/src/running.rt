//! A run of the program: what the words of a command line come to.
ghost use Rattle.std.specs.Prelude.{◌≡◌, ◌≢◌, map, string_bytes};
ghost use Rattle.dg_system.specs.Growth.{StreamReading, StreamWriting, reading_anew, writing_anew};
ghost use Rattle.dg_cli.specs.Asks.{Asks};
ghost use Rattle.dg_cli.specs.Refusals.{IsArgsFault};
ghost use Rattle.dg_run.specs.Runs.{run_of, Succeeds, FailsWithStatus};
ghost use Rattle.dg_run.specs.Status.{IsStatus};

use crate::fault::{Fault, report};
use crate::program::perform;
use dg_cli::invocation_of;
use dg_system::{Input, Output, Sources};
use std::io::{Read, Write};
use std::rt::Files;
use std::sync::Wait;
use std::thread::Threads;

/// `run_streams` over streams that are used up: of these its contract says no more than that some rest of the input and some
/// output fit.
pub fn run<R, S, I, O, F>(
    rt: &R,
    words: &[String],
    sources: &S,
    input: I,
    output: O,
    faults: F,
) -> u8
where
    R: Files + AllocGlobal + Threads + Wait + Sync,
    S: Sources,
    I: Read + Drop,
    O: Write + Drop,
    F: Write + Drop,
    ensures status { IsStatus result }
    ensures done { result ≡ 0 → (rest : StreamReading) × (new : StreamWriting) ×
        Succeeds Asks (run_of (map string_bytes words.now) (S.held sources.now)
        (reading_anew (I.remaining input)) rest (writing_anew (O.contents output)) new) }
    ensures failed { result ≢ 0 → (rest : StreamReading) × (new : StreamWriting) ×
        FailsWithStatus Asks IsArgsFault (run_of (map string_bytes words.now) (S.held sources.now)
        (reading_anew (I.remaining input)) rest (writing_anew (O.contents output)) new) result }
{
    let mut input = Input::new(input);
    let mut output = Output::new(output);
    let mut faults = faults;
    run_streams(rt, words, sources, &mut input, &mut output, &mut faults)
}

/// Does what the words of a command line ask for, the first of which is the program's name; and gives the exit status: 0 where
/// it was done to the end, or that of the fault that ended the run, of which `faults` is told; with 0 it is told nothing. Only a
/// session reads the input. The program runs this.
pub fn run_streams<R, S, I, O, F>(
    rt: &R,
    words: &[String],
    sources: &S,
    input: &mut Input<I>,
    output: &mut Output<O>,
    faults: &mut F,
) -> u8
where
    R: Files + AllocGlobal + Threads + Wait + Sync,
    S: Sources,
    I: Read,
    O: Write,
    F: Write,
    ensures status { IsStatus result }
    ensures quiet { result ≡ 0 → faults.new ≡ faults.old }
    ensures done { result ≡ 0 → Succeeds Asks (run_of (map string_bytes words.now) (S.held sources.now)
        input.old input.new output.old output.new) }
    ensures failed { result ≢ 0 → FailsWithStatus Asks IsArgsFault (run_of (map string_bytes words.now)
        (S.held sources.now) input.old input.new output.old output.new) result }
{
    match invocation_of(rt.alloc(), words) {
        Ok(asked) => match perform(rt, asked, sources, input, output) {
            Ok(()) => 0,
            Err(fault) => report(&fault, faults),
        },
        Err(fault) => report(&Fault::Words(fault), faults),
    }
}
