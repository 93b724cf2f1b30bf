//! Readers that remember whether they failed, because the library's streams have no clause for a failure.
ghost use Rattle.std.specs.Prelude.{◌≡◌, ◌<◌, ◌≤◌, length, take, None, IfSome, OnSome, OnOk, OnErr, true, false};
ghost use Rattle.std.specs.Io.{ReadsAtMost};
ghost use Rattle.std.specs.Io.KnownBytes.{Consumes, IsAtEnd, Keeps, ReadConsumes};

use crate::retry::retry_read;
use std::io;
use std::io::Read;
use std::marker::Model;

/// A reader, which remembers whether a read of it failed.
#[derive(Drop)]
pub struct Input<I: Read> {
    inner: I,
    has_failed: bool,
}

impl<I: Read> Model for Input<I> {
    ghost use Rattle.dg_system.specs.Growth.{StreamReading};

    ghost Value = { StreamReading };

    ghost view = { λ input.
        record { remaining = I.remaining input.inner; has_failed = input.has_failed } };
}

impl<I: Read> Input<I> {
    /// The reader, of which no read has failed.
    pub fn new(inner: I) -> Self
        ensures remaining { result.remaining ≡ I.remaining inner }
        ensures has_failed { result.has_failed ≡ false }
    {
        Input {
            inner,
            has_failed: false,
        }
    }

    /// Whether a read failed.
    pub fn has_failed(&self) -> bool
        ensures { result ≡ self.now.has_failed }
    {
        self.has_failed
    }

    /// One read, into a front of the buffer; asked for again as long as it is interrupted.
    ///
    /// Refused as the reader refuses it otherwise.
    pub fn read(&mut self, buffer: &mut [u8]) -> io::Result<usize>
        ensures bound { ReadsAtMost result buffer.new }
        ensures bytes { ReadConsumes self.old.remaining self.new.remaining result buffer.new }
        ensures failed { OnErr result (self.new.has_failed ≡ true) }
        ensures kept { OnOk result (self.new.has_failed ≡ self.old.has_failed) }
    {
        match retry_read(&mut self.inner, buffer) {
            Ok(size) => Ok(size),
            Err(error) => {
                self.has_failed = true;
                Err(error)
            }
        }
    }

    /// Reads into the buffer, and says how many bytes came; `None` if the reader failed.
    pub fn read_some(&mut self, buffer: &mut Vec<u8>) -> Option<usize>
        ensures bytes { IfSome result (λ size. Consumes self.old.remaining self.new.remaining
            (take size buffer.new.items)) }
        ensures end { IfSome result (λ size. size ≡ 0 → 0 < length buffer.old.items →
            IsAtEnd self.new.remaining) }
        ensures bound { IfSome result (λ size. size ≤ length buffer.new.items) }
        ensures size { length buffer.new.items ≡ length buffer.old.items }
        ensures kept { result ≡ None → Keeps self.old.remaining self.new.remaining }
        ensures failed { result ≡ None → self.new.has_failed ≡ true }
        ensures noted { OnSome result (self.new.has_failed ≡ self.old.has_failed) }
    {
        self.read(buffer).ok()
    }
}
