//! Files that are read as they come.
ghost use Rattle.dg_system.specs.Streams.{stream_remaining};

use std::io::{self, Read};

/// A file that is read as it comes: one of the machine's, or bytes in memory.
#[derive(Drop)]
pub enum Stream<'a, F> {
    /// A file that was opened.
    Opened(F),
    /// What is left of bytes in memory.
    Kept(&'a [u8]),
}

impl<F: Read> Read for Stream<'_, F> {
    ghost use Rattle.dg_system.specs.Streams.{stream_remaining};

    ghost remaining = { stream_remaining F.remaining };

    fn read(&mut self, buffer: &mut [u8]) -> io::Result<usize> {
        match self {
            Stream::Opened(file) => file.read(buffer),
            Stream::Kept(bytes) => bytes.read(buffer),
        }
    }
}
