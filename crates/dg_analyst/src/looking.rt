//! Taking looks at a table.
ghost use Rattle.std.specs.Prelude.{◌≡◌, length, IfOk, IfErr};
ghost use Rattle.dg_rules.specs.declared.entry.Request.TheVariants.{Look as LookRequest};
ghost use Rattle.dg_table.specs.Answered.{IsAnswered};
ghost use Rattle.dg_table.specs.Faults.{RefusesCall, KeepsAfterRefusal};

use crate::looks::Look;
use dg_log::Name;
use dg_rules::Plain;
use dg_table::{Fault, Seat, Table};
use std::alloc::Global;
use std::sync::Wait;

/// Takes a look at the table: an entry of the seat, which is answered as every call of it.
///
/// It waits for the lock. Refused as every call: with `OutOfMemory`, before it waits; with `Full`; and with `Log`. A
/// refused look is no entry, and the seat knows what it knew.
pub fn look<N: Name>(
    table: &Table<N>,
    rt: &impl Wait,
    alloc: Global,
    seat: &mut Seat<N>,
) -> Result<Look<N>, Fault>
    ensures answered { IfOk result
        (λ l. IsAnswered N.table LookRequest l.receipt seat.old seat.new) }
    ensures fault { IfErr result (λ f. KeepsAfterRefusal f seat.old seat.new ×
        RefusesCall N.table seat.new f) }
{
    let receipt = table.call(rt, alloc, seat, Plain::Look)?;
    let Some(shown) = seat.last_look() else {
        unreachable!()
    };
    let start = table.start();
    let _graph = start.graph();
    Ok(Look {
        receipt,
        shown: *shown,
        q: start.q(),
    })
}
