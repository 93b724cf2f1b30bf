//! Divisors, scripts, wide amounts, drifts, moves and starts.

use crate::tables::{pair, triangle};
use dg_chips::{
    ChipFault, Divisor, Drift, Move, MoveFault, Script, ScriptFault, Start, StartFault, Wide, apply,
};
use std::test::Fail;

// Numbers for the triangle, and why they are no divisor.
static AMOUNTS: [(&[i64], Option<ChipFault>); 5] = [
    (&[1_000_000, -1_000_000, 0], None),
    (&[0, 0], Some(ChipFault::Length)),
    (&[1_000_001, 0, 0, 0], Some(ChipFault::Length)),
    (&[0, -1_000_001, 1_000_001], Some(ChipFault::Range(1))),
    (&[i64::MAX, i64::MIN, 0], Some(ChipFault::Range(0))),
];

// Numbers, and why they are no script.
static ENTRIES: [(&[i64], Option<ScriptFault>); 5] = [
    (&[1_000_000_000, -1_000_000_000, 0], None),
    (&[0, 0], Some(ScriptFault::Length)),
    (&[0, 0, 0, 0], Some(ScriptFault::Length)),
    (
        &[-1_000_000_001, 1_000_000_001, 0],
        Some(ScriptFault::Limit(0)),
    ),
    (&[0, 0, i64::MIN], Some(ScriptFault::Limit(2))),
];

// Numbers, and why they are no wide amounts.
static WIDE: [(&[i128], Option<ChipFault>); 4] = [
    (&[i128::MIN, 0, i128::MAX], None),
    (&[0, 0], Some(ChipFault::Length)),
    (&[0, 0, 0, 0], Some(ChipFault::Length)),
    (&[], Some(ChipFault::Length)),
];

#[test]
fn what_numbers_are_taken(rt: HostRuntime) -> Result<(), Fail> {
    let graph = *triangle(&[0, 0, 0])?.graph();
    for (numbers, fault) in &AMOUNTS {
        assert!(rt;
            Divisor::new(&graph, numbers).err() == *fault,
            "{numbers:?}"
        );
    }
    for (numbers, fault) in &ENTRIES {
        assert!(rt; Script::new(&graph, numbers).err() == *fault, "{numbers:?}");
    }
    for (numbers, fault) in &WIDE {
        assert!(rt; Wide::new(&graph, numbers).err() == *fault, "{numbers:?}");
    }
    Ok(())
}

#[test]
fn what_they_hold(rt: HostRuntime) -> Result<(), Fail> {
    let graph = *triangle(&[0, 0, 0])?.graph();
    let divisor = Divisor::sized(&[5, -7, 1]);
    assert!(rt; divisor.size() == 3 && divisor.degree() == -1 && !divisor.is_effective());
    assert!(rt; divisor.get(1) == -7 && Divisor::new(&graph, &[5, -7, 1]) == Ok(divisor));
    let script = Script::sized(&[5, -7, 1]);
    assert!(rt; script.size() == 3 && script.get(1) == -7);
    assert!(rt; Script::new(&graph, &[5, -7, 1]) == Ok(script));
    let wide = Wide::of(&divisor);
    assert!(rt; wide.size() == 3 && wide.get(1) == -7);
    assert!(rt; Wide::new(&graph, &[5, -7, 1]) == Ok(wide));
    assert!(rt; Divisor::sized(&[1_000_000, 0]).is_effective());
    Ok(())
}

// The canonical divisor has two dollars less than there are edges at each vertex.
#[test]
fn what_divisors_differ_by(rt: HostRuntime) -> Result<(), Fail> {
    assert!(rt; Divisor::canonical(pair(3, &[0, 0])?.graph()) == Divisor::sized(&[1, 1]));
    let divisor = Divisor::sized(&[5, 1_000_000, 1_000_000]);
    let less = divisor.minus(&Divisor::sized(&[7, 0, 1]));
    assert!(rt; less == Ok(Divisor::sized(&[-2, 1_000_000, 999_999])));
    let less = divisor.minus(&Divisor::sized(&[0, -1, -1]));
    assert!(rt; less == Err(ChipFault::Range(1)));
    let less = divisor.minus(&Divisor::sized(&[0, -1]));
    assert!(rt; less == Err(ChipFault::Length));
    Ok(())
}

#[test]
fn where_drifts_lead(rt: HostRuntime) -> Result<(), Fail> {
    let start = triangle(&[2, -1, -1])?;
    let (graph, even) = (start.graph(), Divisor::sized(&[0, 0, 0]));
    assert!(rt; graph.size() == 3);
    let zero = Drift::zero(graph);
    let lent = zero.plus(graph, &Move::Lend(0));
    assert!(rt; zero.get(0) == 0 && lent.get(0) == 1 && lent.get(2) == 0);
    assert!(rt; lent.leads(graph, start.divisor(), &even));
    assert!(rt; !zero.leads(graph, start.divisor(), &even));
    let between = Drift::between(&Script::sized(&[3, 1, 0]), &Script::sized(&[2, 1, 0]));
    assert!(rt; between == lent && lent.since(&zero) == Some(between));
    Ok(())
}

// Moves on the triangle with 3 0 0, and what comes of them.
#[test]
fn what_moves_do(rt: HostRuntime) -> Result<(), Fail> {
    let start = triangle(&[3, 0, 0])?;
    for (play, moved) in [
        (Move::Lend(0), Ok(Divisor::sized(&[1, 1, 1]))),
        (Move::Borrow(0), Ok(Divisor::sized(&[5, -1, -1]))),
        (Move::Fire(3), Ok(Divisor::sized(&[2, -1, 2]))),
        (Move::Fire(7), Ok(Divisor::sized(&[3, 0, 0]))),
        (
            Move::Script(Script::sized(&[1, 1, 0])),
            Ok(Divisor::sized(&[2, -1, 2])),
        ),
        (Move::Lend(3), Err(MoveFault::NoVertex)),
        (Move::Borrow(255), Err(MoveFault::NoVertex)),
        (Move::Fire(8), Err(MoveFault::NoVertex)),
        (Move::Fire(0), Err(MoveFault::Empty)),
        (
            Move::Script(Script::sized(&[1_000_000, 0])),
            Err(MoveFault::Script),
        ),
        (
            Move::Script(Script::sized(&[1_000_000, 0, 0])),
            Err(MoveFault::Range),
        ),
    ] {
        assert!(rt; apply(start.graph(), start.divisor(), &play) == moved);
    }
    Ok(())
}

#[test]
fn what_is_a_start(rt: HostRuntime) -> Result<(), Fail> {
    let graph = *triangle(&[0, 0, 0])?.graph();
    let divisor = Divisor::sized(&[5, -7, 1]);
    let start = Start::new(graph, divisor, 2)?;
    assert!(rt; *start.graph() == graph && *start.divisor() == divisor && start.q() == 2);
    assert!(rt; Start::new(graph, divisor, 3).err() == Some(StartFault::Vertex));
    assert!(rt; Start::new(graph, Divisor::sized(&[5, -7]), 3).err() == Some(StartFault::Length));
    Ok(())
}
