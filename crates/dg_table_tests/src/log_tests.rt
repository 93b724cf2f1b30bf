//! Rows, logs and pens.
ghost use Rattle.std.specs.Prelude.{◌≡◌, length};

use dg_game::{Entry, Reply, Request};
use dg_log::{Log, LogFault, Name, Pen, Receipt, Row};
use std::alloc::Global;
use std::process::Abort;
use std::test::Fail;

#[test]
fn rows_have_limits(rt: HostRuntime) -> Result<(), Fail> {
    for capacity in [0, 65_537] {
        assert!(rt; Row::new(rt.alloc(), capacity).err() == Some(LogFault::Capacity));
    }
    for capacity in [1, 2, 65_536] {
        assert!(rt; Row::new(rt.alloc(), capacity)?.len() == capacity);
    }
    Ok(())
}

// A pen writes a claim into the first of two cells.
pub(crate) fn writes<N: Name>(rt: &impl Abort, alloc: Global, row: Row) -> Result<(), Fail>
    requires row { row ≡ N.names }
    requires capacity { length row.cells ≡ N.table.capacity }
{
    let cells = row.len();
    let (log, mut pen): (Log<N>, Pen<N>) = Log::<N>::new(row);
    assert!(rt; log.read(0).is_none() && log.read(5).is_none() && !pen.stuck());
    assert!(rt; pen.len() == 0 && cells == 2);
    let claim = Entry {
        seat: 1,
        request: Request::Claim,
        reply: Reply::Won,
    };
    let receipt: Receipt<N> = pen.put(&log, Box::new(alloc, claim)?).ok().ok_or("a cell")?;
    assert!(rt; pen.len() == 1 && !pen.stuck() && receipt.number() == 0);
    let (found, entry) = log.read(0).ok_or("an entry")?;
    found.compare(&receipt.again());
    assert!(rt; *entry == claim && *log.entry(&pen.receipt(0)) == claim && log.read(1).is_none());
    Ok(())
}
