//! Verdicts.

use crate::tables::{pair, triangle};
use dg_chips::{Divisor, Drift, Script, Start, Wide};
use dg_verdict::{Verdict, check, judge, rebase};
use std::process::Abort;
use std::test::Fail;

// With 2 -1 -1 dollars on the triangle b and c borrow once each, and all burn in their order.
fn paid() -> Verdict {
    Verdict {
        winnable: true,
        script: Script::sized(&[0, -1, -1]),
        reduced: Wide::of(&Divisor::sized(&[0, 0, 0])),
        order: [0, 1, 2, 0, 0, 0, 0, 0, 0, 0, 0, 0, 0, 0, 0, 0],
    }
}

#[test]
fn what_is_won(rt: HostRuntime) -> Result<(), Fail> {
    let start = triangle(&[2, -1, -1])?;
    assert!(rt; judge(start.graph(), start.q(), start.divisor()) == paid());
    let start = triangle(&[-1, 1, 0])?;
    let lost = Verdict {
        winnable: false,
        script: Script::sized(&[0, 0, 0]),
        reduced: Wide::of(&Divisor::sized(&[-1, 1, 0])),
        order: [0, 2, 1, 0, 0, 0, 0, 0, 0, 0, 0, 0, 0, 0, 0, 0],
    };
    assert!(rt; judge(start.graph(), start.q(), start.divisor()) == lost);
    Ok(())
}

// Verdicts on the triangle with 2 -1 -1, each but the first two with one thing wrong. The vertices may burn in any order that
// shows that all burn.
#[test]
fn which_verdicts_are_right(rt: HostRuntime) -> Result<(), Fail> {
    let start = triangle(&[2, -1, -1])?;
    let graph = start.graph();
    let (mut other, mut last, mut twice, mut none) = (paid(), paid(), paid(), paid());
    other.order[1] = 2;
    other.order[2] = 1;
    last.order[0] = 1;
    last.order[1] = 0;
    twice.order[2] = 1;
    none.order[1] = 200;
    let winnable = false;
    let script = Script::sized(&[1, 0, 0]);
    let reduced = Wide::new(graph, &[0, 0, i128::MAX])?;
    let further = Wide::new(graph, &[i128::MAX, i128::MIN, 0])?;
    is_told(&rt, &start, &paid(), true);
    is_told(&rt, &start, &other, true);
    is_told(&rt, &start, &last, false);
    is_told(&rt, &start, &twice, false);
    is_told(&rt, &start, &none, false);
    is_told(&rt, &start, &Verdict { winnable, ..paid() }, false);
    is_told(&rt, &start, &Verdict { script, ..paid() }, false);
    is_told(&rt, &start, &Verdict { reduced, ..paid() }, false);
    is_told(
        &rt,
        &start,
        &Verdict {
            reduced: further,
            ..paid()
        },
        false,
    );
    Ok(())
}

fn is_told(rt: &impl Abort, start: &Start, verdict: &Verdict, is_right: bool) {
    assert!(rt; check(start.graph(), start.q(), start.divisor(), verdict) == is_right);
}

#[test]
fn a_verdict_on_another_graph_is_wrong(rt: HostRuntime) -> Result<(), Fail> {
    let start = triangle(&[2, -1, -1])?;
    let two = pair(1, &[1, 0])?;
    is_told(
        &rt,
        &start,
        &judge(two.graph(), two.q(), two.divisor()),
        false,
    );
    Ok(())
}

// A vertex q, amounts, what has been lent, the amounts after it, and the script of the verdict on these.
type Carried = (u8, [i64; 3], [i64; 3], [i64; 3], [i64; 3]);

// In the last case vertex 1, which is q, has lent once, vertex 0 three times more and vertex 2 once more: by the new script these
// lendings are taken back.
static CARRIED: [Carried; 3] = [
    (0, [2, -1, -1], [1, 0, 0], [0, 0, 0], [0, 0, 0]),
    (0, [2, -1, -1], [0, 0, -3], [-1, -4, 5], [0, -1, 2]),
    (1, [1, -1, 0], [4, 1, 2], [-4, 3, 1], [-3, 0, -1]),
];

#[test]
fn verdicts_are_carried_along(rt: HostRuntime) -> Result<(), Fail> {
    for case in &CARRIED {
        is_carried(&rt, case)?;
    }
    Ok(())
}

fn is_carried(rt: &impl Abort, case: &Carried) -> Result<(), Fail> {
    let (q, amounts, lent, after, entries) = case;
    let graph = *triangle(&[0, 0, 0])?.graph();
    let start = Start::new(graph, Divisor::new(&graph, amounts)?, *q)?;
    let after = Divisor::new(&graph, after)?;
    let drift = Drift::between(
        &Script::new(&graph, lent)?,
        &Script::new(&graph, &[0, 0, 0])?,
    );
    assert!(rt; drift.leads(&graph, start.divisor(), &after));
    let verdict = judge(start.graph(), start.q(), start.divisor());
    let script = Script::new(&graph, entries)?;
    assert!(rt; rebase(start.q(), &verdict, &drift) == Verdict { script, ..verdict });
    Ok(())
}
