//! Reads, writes and flushes that are asked for again if they are interrupted.
ghost use Rattle.std.specs.Prelude.{◌≢◌, OnErr, IfErr};
ghost use Rattle.std.specs.IoError.{error_kind};
ghost use Rattle.std.specs.Io.{ReadsAtMost, WritesAtMost};
ghost use Rattle.std.specs.Io.KnownBytes.{Keeps, ReadConsumes, WriteAppends};

use std::io;
use std::io::{Error, ErrorKind, Read, Write};

/// One read into a front of the buffer, asked for again as long as it is interrupted.
///
/// Refused as the reader refuses it otherwise.
pub(crate) fn retry_read<I: Read>(reader: &mut I, buffer: &mut [u8]) -> io::Result<usize>
    ensures bound { ReadsAtMost result buffer.new }
    ensures bytes { ReadConsumes (I.remaining reader.old) (I.remaining reader.new) result
        buffer.new }
    ensures again { IfErr result (λ error. error_kind error ≢ ErrorKind.Interrupted) }
{
    for _ in 0..u64::MAX {
        match reader.read(buffer) {
            Ok(size) => return Ok(size),
            Err(error) => {
                if error.kind() != ErrorKind::Interrupted {
                    return Err(error);
                }
            }
        }
    }
    Err(interrupted_error())
}

/// One write of a front of the text, asked for again as long as it is interrupted.
///
/// Refused as the writer refuses it otherwise.
pub(crate) fn retry_write<O: Write>(writer: &mut O, text: &[u8]) -> io::Result<usize>
    ensures bound { WritesAtMost result text.now }
    ensures bytes { WriteAppends (O.contents writer.old) (O.contents writer.new) result text.now }
    ensures again { IfErr result (λ error. error_kind error ≢ ErrorKind.Interrupted) }
{
    for _ in 0..u64::MAX {
        match writer.write(text) {
            Ok(size) => return Ok(size),
            Err(error) => {
                if error.kind() != ErrorKind::Interrupted {
                    return Err(error);
                }
            }
        }
    }
    Err(interrupted_error())
}

/// A flush, asked for again as long as it is interrupted.
///
/// Refused as the writer refuses it otherwise.
pub(crate) fn retry_flush<O: Write>(writer: &mut O) -> io::Result<()>
    ensures bytes { Keeps (O.contents writer.old) (O.contents writer.new) }
    ensures again { IfErr result (λ error. error_kind error ≢ ErrorKind.Interrupted) }
{
    for _ in 0..u64::MAX {
        match writer.flush() {
            Ok(()) => return Ok(()),
            Err(error) => {
                if error.kind() != ErrorKind::Interrupted {
                    return Err(error);
                }
            }
        }
    }
    Err(interrupted_error())
}

/// What a loop answers after 2^64 - 1 interrupted tries. Nobody will see it, but a loop needs a bound.
fn interrupted_error() -> Error
    ensures { error_kind result ≢ ErrorKind.Interrupted }
{
    Error::from(ErrorKind::TimedOut)
}
