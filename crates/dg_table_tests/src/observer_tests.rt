//! Observers.

use dg_chips::{Divisor, Move};
use dg_game::{Entry, Plain, Reply};
use dg_log::Name;
use dg_observer::{Observer, ObserverFault, Watch};
use dg_table::{Seat, Table};
use std::alloc::Global;
use std::process::Abort;
use std::sync::Wait;
use std::test::Fail;

// Counts the accepted gifts and joins, as far as 64 bits go.
struct Gifts;

impl Watch for Gifts {
    ghost use Rattle.std.specs.Prelude.{◌≡◌, ◌+◌, ◌-◌, ◌^◌, cond, min};
    ghost use Rattle.dg_rules.specs.History.{is_change};

    type State = u64;

    ghost begins = { λ n. n ≡ 0 };

    ghost goes_on = { λ n e m. m ≡ cond (is_change e.reply) (min (n + 1) (2 ^ 64 - 1)) n };
}

// The first seat lends at a, and tells the second, which gives b a dollar. An observer reads both entries.
pub(crate) fn watches<N: Name, R: Wait + Abort>(
    rt: &R,
    alloc: Global,
    table: &Table<N>,
    first: &mut Seat<N>,
    second: &mut Seat<N>,
) -> Result<(), Fail> {
    let log = table.log();
    let lent = table.call(rt, alloc, first, Plain::Move(Move::Lend(0)))?;
    second.learn(&lent)?;
    let given = table.call(rt, alloc, second, Plain::Gift(1, 1))?;
    assert!(rt; lent.number() == 0 && given.number() == 1 && second.number() == 2);
    assert!(rt; log.entry(&given).reply == Reply::Given(1, Divisor::sized(&[-2, 2, 1])));
    let mut gifts = Observer::<N, Gifts, _>::new(alloc, 0, |count: &u64, entry: &Entry| {
        match entry.reply {
            Reply::Given(..) | Reply::Joined(..) => Ok(count.saturating_add(1)),
            _ => Ok(*count),
        }
    });
    assert!(rt; gifts.catch_up(log)? == 2 && *gifts.state() == 1 && gifts.count() == 2);
    assert!(rt; gifts.receipt(1).number() == 1);
    match gifts.catch_up(log) {
        Ok(read) => assert!(rt; read == 0),
        Err(ObserverFault::OutOfMemory) => return Err(Fail::from("out of memory")),
    }
    Ok(())
}
