//! Sweeping a stream of lines. This is no session: a line changes nothing, and one that is too long does not end it.
ghost use Rattle.std.specs.Prelude.{◌≡◌, ◌≢◌, ◌≤◌, [], length, Err, true};
ghost use Rattle.dg_sweep.specs.Kinds.{answers_of};
ghost use Rattle.dg_sweep.specs.Sweeps.{IsSweep};
ghost use Rattle.dg_sweep.specs.declared.ends.TheConstants.{READ_SIZE};
ghost use Rattle.dg_system.specs.declared.shortage.Shortage.TheVariants.{Spawn};

use crate::ends::{READ_SIZE, SweepEnd};
use crate::kinds::LineKind;
use crate::taking::SweepProgress;
use crate::workers::SweepContext;
use dg_system::{Input, Output, Shortage};
use std::alloc::Global;
use std::io::{Read, Write};
use std::sync::Wait;
use std::thread::Threads;

/// Answers the lines that the reader gives, which are of this kind, each as `answer_line` does, in order, until there are no
/// more; there may be any number of lines. At most so many workers share the lines of a read; their number changes no answer.
///
/// It ends before the input does with `Read` if the reader fails; then all whole lines that were read are answered. It ends
/// with `Write` if the writer fails or takes no byte, and with `Shortage` if memory is refused or, from two workers on, a
/// thread can't be started; then some first lines are answered.
pub fn sweep<R: Threads + Wait + Sync, I: Read, O: Write>(
    rt: &R,
    alloc: Global,
    kind: &LineKind<'_>,
    workers: u32,
    reader: &mut Input<I>,
    writer: &mut Output<O>,
) -> Result<(), SweepEnd>
    ensures swept { IsSweep (answers_of kind.now) reader.old.remaining reader.new.remaining
        writer.old.contents writer.new.contents result }
    ensures read { result ≡ Err SweepEnd.Read → reader.new.has_failed ≡ true }
    ensures noted { result ≢ Err SweepEnd.Read → reader.new.has_failed ≡ reader.old.has_failed }
    ensures write { result ≡ Err SweepEnd.Write → writer.new.has_failed ≡ true }
    ensures spawn { result ≡ Err (SweepEnd.Shortage Spawn) → 2 ≤ workers }
{
    let Ok(mut buffer) = vec![in alloc; 0u8; READ_SIZE] else {
        return Err(SweepEnd::Shortage(Shortage::OutOfMemory));
    };
    let context = SweepContext {
        rt,
        alloc,
        kind,
        workers: workers as usize,
    };
    let mut progress = SweepProgress::new(alloc);
    sweep_reads(&context, &mut buffer, &mut progress, reader, writer)
}

/// Reads into the buffer, answers and writes until the input ends, by the progress of a sweep that has read nothing.
fn sweep_reads<R: Threads + Wait + Sync, I: Read, O: Write>(
    context: &SweepContext<'_, R>,
    buffer: &mut Vec<u8>,
    progress: &mut SweepProgress,
    reader: &mut Input<I>,
    writer: &mut Output<O>,
) -> Result<(), SweepEnd>
    requires size { length buffer.old.items ≡ READ_SIZE }
    requires pending { progress.old.pending.items ≡ [] }
    ensures swept { IsSweep (answers_of context.now.kind.now) reader.old.remaining reader.new.remaining
        writer.old.contents writer.new.contents result }
    ensures read { result ≡ Err SweepEnd.Read → reader.new.has_failed ≡ true }
    ensures noted { result ≢ Err SweepEnd.Read → reader.new.has_failed ≡ reader.old.has_failed }
    ensures write { result ≡ Err SweepEnd.Write → writer.new.has_failed ≡ true }
    ensures spawn { result ≡ Err (SweepEnd.Shortage Spawn) → 2 ≤ context.now.workers }
{
    'reads: for _ in 0..u64::MAX {
        let Some(size) = reader.read_some(buffer) else {
            return Err(SweepEnd::Read);
        };
        if size == 0 {
            return progress.finish(context.alloc, context.kind, writer);
        }
        match progress.feed(context, writer, &buffer[..size]) {
            Ok(()) => {}
            Err(end) => return Err(end),
        }
    }
    // Never reached: that is after 2^64 reads. A loop needs a bound for the proof that it ends.
    Err(SweepEnd::Shortage(Shortage::OutOfMemory))
}
