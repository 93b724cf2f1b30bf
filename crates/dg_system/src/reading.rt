//! Files that are read one after another.
ghost use Rattle.std.specs.Prelude.{map, IfOk, IfErr};
ghost use Rattle.dg_system.specs.AllHeld.{MayHoldAll, IsFirstUnread};

use crate::sources::{SourceFault, Sources};
use std::rt::Files;

/// The bytes of the files of these names, in their order.
///
/// Refused as the first file is that is refused, and with `OutOfMemory` at the growth that was refused.
pub fn read_all<R, S>(rt: &R, names: &[&str], sources: &S) -> Result<Vec<Vec<u8>>, SourceFault>
where
    R: Files + AllocGlobal,
    S: Sources,
    ensures read { IfOk result
        (λ all. MayHoldAll (S.held sources.now) (map (λ name. name.now) names.now)
        (map (λ file. file.items) all.items)) }
    ensures refused { IfErr result
        (IsFirstUnread (S.held sources.now) (map (λ name. name.now) names.now)) }
{
    let mut all = Vec::new(rt.alloc());
    'names: for name in names {
        let file = match sources.bytes(rt, name) {
            Ok(file) => file,
            Err(fault) => return Err(fault),
        };
        match all.push(file) {
            Ok(()) => {}
            Err(_) => return Err(SourceFault::OutOfMemory),
        }
    }
    Ok(all)
}
