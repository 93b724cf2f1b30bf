//! A verdict that is entered by hand, with a drift that leads nowhere.
ghost use Rattle.std.specs.Prelude.{◌≡◌, ◌<◌, IfOk};
ghost use Rattle.dg_table.specs.Looks.{IsLookOf};

use crate::analyst_tests::settled;
use dg_chips::{Divisor, Drift, Move};
use dg_game::{Finding, LookData, Plain};
use dg_log::{Name, Receipt};
use dg_table::{Seat, Table};
use dg_verdict::judge;
use std::alloc::Global;
use std::process::Abort;
use std::sync::Wait;
use std::test::Fail;

// The first seat looks, the second lends at a, and the first enters its verdict with a drift by which b has lent too.
pub(crate) fn settles<N: Name, R: Wait + Abort>(
    rt: &R,
    alloc: Global,
    table: &Table<N>,
    first: &mut Seat<N>,
    second: &mut Seat<N>,
) -> Result<(), Fail> {
    let (receipt, data) = look_at(rt, alloc, table, first)?;
    assert!(rt; data.number == 0 && data.gifts == 0 && data.graph == *table.start().graph());
    assert!(rt; data.position == *table.start().divisor() && data.graph.size() == 3);
    assert!(rt; data.drift == Drift::zero(&data.graph));
    assert!(rt; data.drift.get(1) == 0);
    table.call(rt, alloc, second, Plain::Move(Move::Lend(0)))?;
    let drift = data.drift.plus(&data.graph, &Move::Lend(1));
    let verdict = judge(&data.graph, table.start().q(), &data.position);
    let data = LookData { drift, ..data };
    let entered = table.settle(rt, alloc, first, &receipt, &data, &Finding::Judged(verdict))?;
    assert!(rt; entered.number() == 2);
    assert!(rt; table.log().entry(&entered).reply == settled(&Divisor::sized(&[0, 0, 0])));
    Ok(())
}

// The seat's look: its receipt, and what the seat keeps of it.
fn look_at<N: Name>(
    rt: &impl Wait,
    alloc: Global,
    table: &Table<N>,
    seat: &mut Seat<N>,
) -> Result<(Receipt<N>, LookData), Fail>
    ensures look { IfOk result (λ r. IsLookOf r.0 r.1) }
    ensures size { IfOk result (λ r. r.1.position.size ≡ r.1.graph.size) }
    ensures vertex { IfOk result (λ r. N.table.start.q < r.1.graph.size) }
{
    let receipt = table.call(rt, alloc, seat, Plain::Look)?;
    let data = seat.look_data().ok_or("a look")?;
    let _graph = table.start().graph();
    Ok((receipt, data))
}
