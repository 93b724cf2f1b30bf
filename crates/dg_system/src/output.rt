//! Writers that remember whether they failed, because the library's streams have no clause for a failure.
ghost use Rattle.std.specs.Prelude.{◌≡◌, OnOk, OnErr, true, false, []};
ghost use Rattle.std.specs.Io.KnownBytes.{Appends};
ghost use Rattle.dg_system.specs.Growth.{AppendsFront};

use crate::retry::{retry_flush, retry_write};
use std::io::Write;
use std::marker::Model;
use thiserror::Error;

/// A writer, which remembers whether a write to it failed.
#[derive(Drop)]
pub struct Output<O: Write> {
    inner: O,
    has_failed: bool,
}

impl<O: Write> Model for Output<O> {
    ghost use Rattle.dg_system.specs.Growth.{StreamWriting};

    ghost Value = { StreamWriting };

    ghost view = { λ output.
        record { contents = O.contents output.inner; has_failed = output.has_failed } };
}

/// That a writer failed, or took no byte.
#[derive(Clone, Copy, Debug, PartialEq, Eq, Error)]
#[error("write fault")]
pub struct WriteFailed;

impl<O: Write> Output<O> {
    /// The writer, to which no write has failed.
    pub fn new(inner: O) -> Self
        ensures contents { result.contents ≡ O.contents inner }
        ensures has_failed { result.has_failed ≡ false }
    {
        Output {
            inner,
            has_failed: false,
        }
    }

    /// Whether a write failed, or took no byte.
    pub fn has_failed(&self) -> bool
        ensures { result ≡ self.now.has_failed }
    {
        self.has_failed
    }

    /// The writer, as the writes have left it.
    pub fn into_inner(self) -> O
        ensures { O.contents result ≡ self.contents }
    {
        self.inner
    }

    /// Writes and flushes the whole text. A write or a flush is asked for again as long as it is interrupted.
    ///
    /// Refused with `WriteFailed` if the writer fails otherwise, or takes no byte; it has then taken a front of the text.
    pub fn write_whole(&mut self, text: &[u8]) -> Result<(), WriteFailed>
        ensures written { OnOk result (Appends self.old.contents self.new.contents text.now) }
        ensures front { OnErr result
            (AppendsFront self.old.contents self.new.contents [] text.now) }
        ensures failed { OnErr result (self.new.has_failed ≡ true) }
        ensures kept { OnOk result (self.new.has_failed ≡ self.old.has_failed) }
    {
        match write_and_flush(&mut self.inner, text) {
            Ok(()) => Ok(()),
            Err(failed) => {
                self.has_failed = true;
                Err(failed)
            }
        }
    }
}

/// Writes and flushes the whole text; or a front of it, and then the writer takes no more.
fn write_and_flush<O: Write>(writer: &mut O, text: &[u8]) -> Result<(), WriteFailed>
    ensures written { OnOk result (Appends (O.contents writer.old) (O.contents writer.new) text.now) }
    ensures front { OnErr result
        (AppendsFront (O.contents writer.old) (O.contents writer.new) [] text.now) }
{
    let mut at = 0;
    'writes: while at < text.len() {
        match retry_write(writer, &text[at..]) {
            Ok(size) if size > 0 => at += size,
            _ => return Err(WriteFailed),
        }
    }
    match retry_flush(writer) {
        Ok(()) => Ok(()),
        Err(_) => Err(WriteFailed),
    }
}
