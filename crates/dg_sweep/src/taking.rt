//! Taking what was read: bytes that are cut into lines, and the end.
ghost use Rattle.std.specs.Prelude.{◌≡◌, ◌≢◌, ◌≤◌, ◌++◌, ℕ, List, [], true, IfOk, IfErr, OnOk, Err};
ghost use Rattle.dg_sweep.specs.Kinds.{answers_of};
ghost use Rattle.dg_sweep.specs.Steps.{AnswersFront, KeepsPart, PassesAnswers, TakesBytes, AnswersLast};
ghost use Rattle.dg_sweep.specs.declared.ends.SweepEnd.TheVariants.{Write as WriteEnd, Shortage as ShortageEnd};
ghost use Rattle.dg_system.specs.declared.shortage.Shortage.TheVariants.{OutOfMemory, Spawn};

use crate::answering::answer_line;
use crate::ends::{MAX_LINE, SweepEnd};
use crate::kinds::LineKind;
use crate::workers::{SweepContext, answer_batch};
use dg_lines::cut;
use dg_system::{Output, Shortage};
use std::alloc::{AllocError, Global};
use std::io::Write;
use std::sync::Wait;
use std::thread::Threads;

/// How far a sweep is.
#[derive(Drop)]
pub(crate) struct SweepProgress {
    /// What came after the last newline; no more is put to it once it is longer than a line may be.
    pub(crate) pending: Vec<u8>,
    /// The answers to what was taken last.
    text: Vec<u8>,
}

impl SweepProgress {
    /// How far a sweep is that has read nothing.
    pub(crate) fn new(alloc: Global) -> SweepProgress
        ensures pending { result.pending.items ≡ [] }
    {
        SweepProgress {
            pending: Vec::new(alloc),
            text: Vec::new(alloc),
        }
    }

    /// Takes bytes that were read, and writes the answers to the lines that end in them.
    pub(crate) fn feed<R: Threads + Wait + Sync, O: Write>(
        &mut self,
        context: &SweepContext<'_, R>,
        writer: &mut Output<O>,
        bytes: &[u8],
    ) -> Result<(), SweepEnd>
        ensures passed { PassesAnswers
            (TakesBytes (answers_of context.now.kind.now) self.old.pending.items bytes.now self.new.pending.items)
            writer.old.contents writer.new.contents result }
        ensures write { result ≡ Err WriteEnd → writer.new.has_failed ≡ true }
        ensures spawn { result ≡ Err (ShortageEnd Spawn) → 2 ≤ context.now.workers }
    {
        match self.take_bytes(context, bytes) {
            Ok(()) => match writer.write_whole(&self.text) {
                Ok(()) => Ok(()),
                Err(_) => Err(SweepEnd::Write),
            },
            Err(shortage) => Err(SweepEnd::Shortage(shortage)),
        }
    }

    /// Takes the end, and writes the answer to the last line, if there is one.
    pub(crate) fn finish<O: Write>(
        &mut self,
        alloc: Global,
        kind: &LineKind<'_>,
        writer: &mut Output<O>,
    ) -> Result<(), SweepEnd>
        ensures passed { PassesAnswers (AnswersLast (answers_of kind.now) self.old.pending.items)
            writer.old.contents writer.new.contents result }
        ensures write { result ≡ Err WriteEnd → writer.new.has_failed ≡ true }
        ensures spawn { result ≢ Err (ShortageEnd Spawn) }
    {
        match self.take_end(alloc, kind) {
            Ok(()) => match writer.write_whole(&self.text) {
                Ok(()) => Ok(()),
                Err(_) => Err(SweepEnd::Write),
            },
            Err(_) => Err(SweepEnd::Shortage(Shortage::OutOfMemory)),
        }
    }

    /// Takes bytes that were read: answers the lines that end in them, and keeps the part of a line that follows.
    fn take_bytes<R: Threads + Wait + Sync>(
        &mut self,
        context: &SweepContext<'_, R>,
        bytes: &[u8],
    ) -> Result<(), Shortage>
        ensures taken { OnOk result (TakesBytes (answers_of context.now.kind.now)
            self.old.pending.items bytes.now self.new.pending.items self.new.text.items) }
        ensures spawn { result ≡ Err Spawn → 2 ≤ context.now.workers }
    {
        self.text.clear();
        let (part, after) = cut(bytes, b'\n');
        keep_part(&mut self.pending, part)?;
        let Some(after) = after else {
            return Ok(());
        };
        answer_line(context.alloc, context.kind, &self.pending, &mut self.text)?;
        self.pending.clear();
        let part = answer_batch(context, after, &mut self.text)?;
        keep_part(&mut self.pending, part)
    }

    /// Takes the end: answers what is pending as the last line, if it has a byte.
    fn take_end(&mut self, alloc: Global, kind: &LineKind<'_>) -> Result<(), AllocError>
        ensures { OnOk result (AnswersLast (answers_of kind.now) self.old.pending.items self.new.text.items) }
    {
        self.text.clear();
        if self.pending.is_empty() {
            return Ok(());
        }
        answer_line(alloc, kind, &self.pending, &mut self.text)
    }
}

/// Keeps a part of a line, unless what is pending is longer already than a line may be.
fn keep_part(pending: &mut Vec<u8>, part: &[u8]) -> Result<(), Shortage>
    ensures kept { OnOk result (KeepsPart pending.old.items part.now pending.new.items) }
    ensures memory { IfErr result (λ shortage. shortage ≡ OutOfMemory) }
{
    if pending.len() <= MAX_LINE {
        pending.extend_from_slice(part)?;
    }
    Ok(())
}

/// Puts the answers to the lines of the bytes after the text, and gives what follows the last newline.
pub(crate) fn answer_lines<'a>(
    alloc: Global,
    kind: &LineKind<'_>,
    bytes: &'a [u8],
    text: &mut Vec<u8>,
) -> Result<&'a [u8], Shortage>
    ensures answered { IfOk result (λ rest. (said : List ℕ)
        × AnswersFront (answers_of kind.now) bytes.now rest.now said
        × (text.new.items ≡ text.old.items ++ said)) }
    ensures memory { IfErr result (λ shortage. shortage ≡ OutOfMemory) }
{
    let mut answer = Vec::new(alloc);
    let mut rest = bytes;
    'lines: loop {
        let (line, after) = cut(rest, b'\n');
        let Some(after) = after else {
            return Ok(line);
        };
        answer_line(alloc, kind, line, &mut answer)?;
        text.extend_from_slice(&answer)?;
        rest = after;
    }
}
