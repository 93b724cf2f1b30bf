//! A law of table files, the contract of a function that no call needs.
ghost use Rattle.std.specs.Prelude.{OnOk};
ghost use Rattle.dg_file.specs.FileLaws.{FileMeaningIsUnique, HasMeaning};

use crate::fault::FileFault;
use crate::table_file::read_table;
use std::alloc::{AllocError, Global};

/// No bytes describe two tables, or have two faults for which they are refused, or both a table and a fault; want of memory
/// aside. That these have one of them is shown by `read_table`, which finds it.
///
/// Refused if there is not enough memory to read them; no bytes have two all the same.
pub fn file_meaning_is_unique(alloc: Global, bytes: &[u8]) -> Result<(), AllocError>
    ensures some { OnOk result (HasMeaning bytes.now) }
    ensures one { FileMeaningIsUnique }
{
    match read_table(alloc, bytes) {
        Err(FileFault::OutOfMemory) => Err(AllocError),
        Ok(_) | Err(_) => Ok(()),
    }
}
