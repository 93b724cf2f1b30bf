//! What the lock of a table holds can be had under that lock alone. So nobody calls these functions, and no test runs: they are
//! proved, and show the forms of the calls.
ghost use Rattle.dg_table.specs.Looks.{IsLookOf};
ghost use Rattle.dg_rules.specs.Look.{IsRightFinding};

use dg_chips::{Divisor, Move};
use dg_game::{Finding, LookData, Plain};
use dg_graph::Graph;
use dg_log::{Log, Name, Receipt};
use dg_table::Seat;
use dg_table::laws::Held;
use std::alloc::Global;
use std::test::Fail;

/// A call and a turn, for which the seat makes room before.
pub fn plays_under_the_lock<N: Name>(
    alloc: Global,
    held: &mut Held<N>,
    log: &Log<N>,
    seat: &mut Seat<N>,
) -> Result<bool, Fail> {
    let slot = seat.room(alloc)?;
    held.call(log, slot, seat, Plain::Look)?;
    let slot = seat.room(alloc)?;
    held.turn(
        log,
        slot,
        seat,
        &mut |_: &Graph, _: &Divisor| Some(Move::Lend(0)),
    )?;
    Ok(held.admits(seat))
}

/// A finding that is entered on a look.
pub fn settles_under_the_lock<N: Name>(
    alloc: Global,
    held: &mut Held<N>,
    log: &Log<N>,
    seat: &mut Seat<N>,
    look: &Receipt<N>,
    shown: &LookData,
    finding: &Finding,
) -> Result<Receipt<N>, Fail>
    requires look { IsLookOf look.now shown.now }
    requires found { IsRightFinding N.table.start.q shown.now finding.now }
{
    let slot = seat.room(alloc)?;
    Ok(held.settle(log, slot, seat, look, shown, finding)?)
}
