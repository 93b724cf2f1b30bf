//! Parties: a table is opened, played by many seats at once, and closed.
ghost use Rattle.std.specs.Prelude.{◌≡◌, length, IfOk, IfErr};
ghost use Rattle.dg_log.specs.Rows.{IsCapacity};
ghost use Rattle.dg_log.specs.Tables.{table_data_of};
ghost use Rattle.dg_table.specs.Opened.{IsSeatCount};
ghost use Rattle.dg_session.specs.Parties.{script_bytes, IsParty, IsPartyRefused};

use crate::closing::party_text;
use crate::played::{PartyOutcome, PartyRefusal};
use crate::threads::sessions;
use dg_chips::Start;
use dg_log::{LogFault, Name, Row};
use dg_rank::Gate;
use dg_system::Shortage;
use dg_table::{Table, TableFault};
use dg_tokens::Names;
use std::alloc::Global;
use std::marker::Brand;
use std::sync::Wait;
use std::thread::Threads;

/// A party: one table of this many cells, a seat and a thread for each script, and one history of all, which is printed. Each
/// session makes just its seat's entries in that history. The conditions are 1 to 64 scripts, 1 to 65,536 cells, and one name
/// per vertex.
///
/// Each thread enters the gate with its seat's number before its first line. Refused for want of memory; for want of a thread,
/// if there are two scripts or more, so that not all had sessions; and with `Log` if all had, and the table is not closed.
pub fn party<R: Threads + Wait + Sync, G: Gate>(
    rt: &R,
    alloc: Global,
    cap: u32,
    start: &Start,
    names: &Names,
    scripts: &[Vec<u8>],
    gate: &G,
) -> Result<PartyOutcome, PartyRefusal>
    requires cap { IsCapacity cap }
    requires scripts { IsSeatCount (length scripts.now) }
    requires names { length names.now ≡ start.now.graph.size }
    ensures played { IfOk result
        (λ p. IsParty (table_data_of start.now (length scripts.now) cap) names.now (script_bytes scripts.now)
        p.ends.items p.text.items) }
    ensures refused { IfErr result
        (IsPartyRefused (table_data_of start.now (length scripts.now) cap) names.now (script_bytes scripts.now)) }
{
    let row = match Row::new(alloc, cap) {
        Ok(row) => row,
        Err(LogFault::Capacity) => unreachable!(),
        Err(LogFault::OutOfMemory) => return Err(PartyRefusal::Shortage(Shortage::OutOfMemory)),
    };
    party_of::<Brand, R, G>(rt, alloc, row, start, names, scripts, gate)
}

// The same at a table with a name. The conditions are that N names the row, the start and the number of scripts.
fn party_of<N: Name + Send + Sync, R: Threads + Wait + Sync, G: Gate>(
    rt: &R,
    alloc: Global,
    row: Row,
    start: &Start,
    names: &Names,
    scripts: &[Vec<u8>],
    gate: &G,
) -> Result<PartyOutcome, PartyRefusal>
    requires row { row ≡ N.names }
    requires table { N.table ≡ table_data_of start.now (length scripts.now) (length row.cells) }
    requires scripts { IsSeatCount (length scripts.now) }
    requires names { length names.now ≡ start.now.graph.size }
    ensures played { IfOk result
        (λ p. IsParty N.table names.now (script_bytes scripts.now) p.ends.items
        p.text.items) }
    ensures refused { IfErr result
        (IsPartyRefused N.table names.now (script_bytes scripts.now)) }
{
    let count = scripts.len();
    let (table, mut seats) = match Table::<N>::open(alloc, row, start, count as u8) {
        Ok(opened) => opened,
        Err((_, TableFault::Seats)) => unreachable!(),
        Err((_, TableFault::OutOfMemory)) => return Err(PartyRefusal::Shortage(
            Shortage::OutOfMemory,
        )),
    };
    let ends = match sessions(rt, alloc, &table, &mut seats, names, scripts, gate) {
        Ok(ends) => ends,
        Err(shortage) => return Err(PartyRefusal::Shortage(shortage)),
    };
    let Ok(audit) = table.close(seats) else {
        return Err(PartyRefusal::Log);
    };
    match party_text(alloc, names, &audit, count) {
        Ok(text) => Ok(PartyOutcome { ends, text }),
        Err(_) => Err(PartyRefusal::Shortage(Shortage::OutOfMemory)),
    }
}
