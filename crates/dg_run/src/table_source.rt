//! Tables that are read from files, as tasks read them. To load them by `dg_tasks` would put `Names` into its statements.
ghost use Rattle.std.specs.Prelude.{IfOk, IfErr};
ghost use Rattle.dg_tasks.specs.Tasks.{RefusesTable, DescribesTable};

use dg_file::{TableFile, read_table};
use dg_system::Sources;
use dg_tasks::TaskFault;
use std::rt::Files;

/// The table of the file with that name.
///
/// Refused with `Source` if the file is not read, and then with `File` if it is no table file.
pub(crate) fn load_table<R, S>(rt: &R, sources: &S, file: &str) -> Result<TableFile, TaskFault>
where
    R: Files + AllocGlobal,
    S: Sources,
    ensures table { IfOk result
        (λ table. DescribesTable (S.held sources.now file.now) table.start table.names) }
    ensures refused { IfErr result (RefusesTable (S.held sources.now file.now)) }
{
    match sources.bytes(rt, file) {
        Ok(bytes) => read_table(rt.alloc(), bytes.as_slice()).map_err(TaskFault::File),
        Err(fault) => Err(TaskFault::Source(fault)),
    }
}
