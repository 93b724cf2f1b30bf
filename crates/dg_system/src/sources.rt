//! Where the bytes of files come from. A source says what it holds under a name, or that nothing is known: so one text serves
//! memory and the disk.
ghost use Rattle.std.specs.Prelude.{◌≡◌, ◌≢◌, ◌<◌, ◌≤◌, ℕ, List, length, map, vec_len, IfOk, IfErr, IfSome};
ghost use Rattle.dg_system.specs.Held.{Held, MayHold, IsSourceFault, held_among, held_from_read, unknown};
ghost use Rattle.dg_system.specs.Streams.{MayGive, IsStreamFault, stream_remaining};
ghost use Rattle.std.specs.Option.{option_copied};

use crate::shortage::Shortage;
use crate::stream::Stream;
use std::alloc::Global;
use std::fs;
use std::io::{self, Read};
use std::rt::Files;
use thiserror::Error;

/// The most bytes that a file may have.
pub const MAX_FILE: usize = 1_048_576;

/// Why a file is not read.
#[derive(Clone, Copy, Debug, PartialEq, Eq, Error)]
pub enum SourceFault {
    /// It cannot be opened, or a read of it fails.
    #[error("read fault")]
    Unreadable,
    /// It has more than 1,048,576 bytes.
    #[error("file too long")]
    TooLong,
    /// There is not enough memory.
    #[error("{}", Shortage::OutOfMemory)]
    OutOfMemory,
}

impl From<io::Error> for SourceFault {
    ghost use Rattle.std.specs.Prelude.{◌≢◌};
    ghost use Rattle.dg_system.specs.declared.sources.SourceFault.TheVariants.{TooLong};

    ghost from_gives = { λ _ fault. fault ≢ TooLong };

    fn from(error: io::Error) -> SourceFault {
        match error.kind() {
            io::ErrorKind::OutOfMemory => SourceFault::OutOfMemory,
            _ => SourceFault::Unreadable,
        }
    }
}

/// Where a file's bytes come from. Of a source that does not say what it holds nothing is known.
pub trait Sources {
    ghost held: { Self → List ℕ → Held } = { λ _ name. unknown };

    /// The bytes of the file with this name, at most 1,048,576.
    ///
    /// Refused with `Unreadable` if there is no such file or a read fails, with `TooLong` if one more byte can be
    /// read, and with `OutOfMemory` at the growth that was refused.
    fn bytes<R: Files + AllocGlobal>(&self, rt: &R, name: &str) -> Result<Vec<u8>, SourceFault>
        ensures read { IfOk result (λ bytes. MayHold (held self.now name.now) bytes.items) }
        ensures refused { IfErr result (IsSourceFault (held self.now name.now)) };

    /// The file with this name, to be read as it comes; it may have any number of bytes, and need have no end.
    ///
    /// Refused with `Unreadable` if there is no such file, and with `OutOfMemory`.
    fn open<'s, R: Files>(&'s self, rt: &R, name: &str) -> Result<Stream<'s, R::File>, SourceFault>
        ensures opened { IfOk result
            (λ s. MayGive (held self.now name.now) (stream_remaining R.File.remaining s)) }
        ensures refused { IfErr result (IsStreamFault (held self.now name.now)) };
}

/// The files of the machine.
#[derive(Clone, Copy)]
pub struct DiskFiles;

impl Sources for DiskFiles {
    ghost use Rattle.dg_system.specs.Held.{unknown};

    ghost held = { λ _ name. unknown };

    fn bytes<R: Files + AllocGlobal>(&self, rt: &R, name: &str) -> Result<Vec<u8>, SourceFault> {
        read_within(rt.alloc(), fs::open(rt, name)?)
    }

    fn open<'s, R: Files>(
        &'s self,
        rt: &R,
        name: &str,
    ) -> Result<Stream<'s, R::File>, SourceFault> {
        Ok(Stream::Opened(fs::open(rt, name)?))
    }
}

/// Files in memory: each a name and its bytes. Of two with one name the first counts.
#[derive(Clone, Copy)]
pub struct MemoryFiles<'a> {
    /// The files.
    pub files: &'a [(&'a str, &'a [u8])],
}

impl Sources for MemoryFiles<'_> {
    ghost use Rattle.std.specs.Prelude.{map};
    ghost use Rattle.dg_system.specs.Held.{held_among};

    ghost held = { λ shelf. held_among (map (λ file. (file.0.now, file.1.now)) shelf.files.now) };

    fn bytes<R: Files + AllocGlobal>(&self, rt: &R, name: &str) -> Result<Vec<u8>, SourceFault> {
        match find_file(self.files, name) {
            Some(bytes) => copy_within_limit(rt.alloc(), bytes),
            None => Err(SourceFault::Unreadable),
        }
    }

    fn open<'s, R: Files>(
        &'s self,
        _rt: &R,
        name: &str,
    ) -> Result<Stream<'s, R::File>, SourceFault> {
        match find_file(self.files, name) {
            Some(bytes) => Ok(Stream::Kept(bytes)),
            None => Err(SourceFault::Unreadable),
        }
    }
}

/// The bytes of the first of the files with that name.
#[tactic(auto, unfolding(crate::specs::Held::held_among))]
fn find_file<'a>(files: &[(&'a str, &'a [u8])], name: &str) -> Option<&'a [u8]>
    ensures { held_among (map (λ file. (file.0.now, file.1.now)) files.now) name.now
        ≡ held_from_read (option_copied result) }
{
    let (file, after) = files.split_first()?;
    if file.0 == name {
        Some(file.1)
    } else {
        find_file(after, name)
    }
}

/// A copy of the bytes, if they are at most 1,048,576.
fn copy_within_limit(alloc: Global, bytes: &[u8]) -> Result<Vec<u8>, SourceFault>
    ensures read { IfOk result (λ copy. (copy.items ≡ bytes.now) × (length bytes.now ≤ MAX_FILE)) }
    ensures refused { IfErr result (λ fault. fault ≢ SourceFault.Unreadable) }
    ensures long { result ≡ Err SourceFault.TooLong → MAX_FILE < length bytes.now }
{
    if MAX_FILE < bytes.len() {
        return Err(SourceFault::TooLong);
    }
    let mut copy = Vec::new(alloc);
    match copy.extend_from_slice(bytes) {
        Ok(()) => Ok(copy),
        Err(_) => Err(SourceFault::OutOfMemory),
    }
}

/// All bytes that the reader has left, if they are at most 1,048,576. It takes at most one byte more.
///
/// Refused as `Sources::bytes` says.
pub fn read_within<I: Read + Drop>(alloc: Global, reader: I) -> Result<Vec<u8>, SourceFault>
    ensures few { IfOk result (λ bytes. vec_len bytes ≤ MAX_FILE) }
    ensures all { IfOk result (λ bytes. IfSome (I.remaining reader) (λ left. bytes.items ≡ left)) }
    ensures long { result ≡ Err SourceFault.TooLong
        → IfSome (I.remaining reader) (λ left. MAX_FILE < length left) }
{
    let mut bytes = Vec::new(alloc);
    reader.take(MAX_FILE as u64 + 1).read_to_end(&mut bytes)?;
    if bytes.len() > MAX_FILE {
        return Err(SourceFault::TooLong);
    }
    Ok(bytes)
}
