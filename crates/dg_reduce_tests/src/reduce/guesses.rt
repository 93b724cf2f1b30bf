//! Reductions that begin with a guess, right or wrong, and what a guess leaves.

ghost use Rattle.std.specs.Prelude.{◌≡◌};

use crate::edges::{PATH, SQUARE, TRIANGLE};
use dg_chips::{Script, Wide};
use dg_graph::{Graph, GraphFault};
use dg_reduce::{
    CertifiedReduction, InverseLaplacian, Reduced, burning_order, certified_by, guess,
    is_effective_off, may_reduce, reduce_certified, reduce_wide,
};
use std::process::Abort;
use std::test::Fail;

/// Edges, q, amounts, the reduced amounts, the script that leads to them, and guesses.
type Case = (
    &'static [(u8, u8, u8)],
    usize,
    &'static [i128],
    &'static [i128],
    &'static [i64],
    [&'static [i64]; 7],
);

const HOUSE: &[(u8, u8, u8)] = &[
    (0, 1, 2),
    (1, 2, 1),
    (2, 3, 3),
    (3, 4, 1),
    (4, 0, 1),
    (1, 3, 5),
];

// The answers come from a program that borrows and burns vertex by vertex, without any guess. The guesses: none, the
// script itself, one lending more, some lendings, alternating ones, and the most that a script holds.
static CASES: [Case; 5] = [
    (
        TRIANGLE,
        2,
        &[40, -70, 25],
        &[0, 1, -6],
        &[3, -34, 0],
        [
            &[0, 0, 0],
            &[3, -34, 0],
            &[4, -34, 0],
            &[1, -5, 0],
            &[21, -28, 0],
            &[1_000_000_000, -1_000_000_000, 0],
            &[1_000_000_000, 1_000_000_000, 0],
        ],
    ),
    (
        SQUARE,
        0,
        &[-300, 100, 90, 80],
        &[-30, 0, 0, 0],
        &[0, 140, 180, 130],
        [
            &[0, 0, 0, 0],
            &[0, 140, 180, 130],
            &[0, 141, 180, 130],
            &[0, 3, -8, -7],
            &[0, -28, 35, -42],
            &[0, -1_000_000_000, 1_000_000_000, -1_000_000_000],
            &[0, 1_000_000_000, 1_000_000_000, 1_000_000_000],
        ],
    ),
    (
        HOUSE,
        1,
        &[17, -3, -90, 100, -6],
        &[1, 15, 1, 0, 1],
        &[6, 0, -19, 5, 2],
        [
            &[0, 0, 0, 0, 0],
            &[6, 0, -19, 5, 2],
            &[6, 0, -18, 5, 2],
            &[8, 0, -6, 2, 9],
            &[21, 0, 35, -42, 49],
            &[
                1_000_000_000,
                0,
                1_000_000_000,
                -1_000_000_000,
                1_000_000_000,
            ],
            &[
                1_000_000_000,
                0,
                1_000_000_000,
                1_000_000_000,
                1_000_000_000,
            ],
        ],
    ),
    (
        HOUSE,
        4,
        &[17, -3, -90, 100, -6],
        &[1, 5, 2, 0, 10],
        &[8, 4, -16, 8, 0],
        [
            &[0, 0, 0, 0, 0],
            &[8, 4, -16, 8, 0],
            &[9, 4, -16, 8, 0],
            &[-8, 7, -3, -8, 0],
            &[21, -28, 35, -42, 0],
            &[
                1_000_000_000,
                -1_000_000_000,
                1_000_000_000,
                -1_000_000_000,
                0,
            ],
            &[
                1_000_000_000,
                1_000_000_000,
                1_000_000_000,
                1_000_000_000,
                0,
            ],
        ],
    ),
    (
        PATH,
        3,
        &[500, -400, 300, -200],
        &[0, 0, 0, 200],
        &[1_000, 500, 400, 0],
        [
            &[0, 0, 0, 0],
            &[1_000, 500, 400, 0],
            &[1_001, 500, 400, 0],
            &[-7, 4, 4, 0],
            &[21, -28, 35, 0],
            &[1_000_000_000, -1_000_000_000, 1_000_000_000, 0],
            &[1_000_000_000, 1_000_000_000, 1_000_000_000, 0],
        ],
    ),
];

/// The reduction that begins with a script, if it may be asked for.
fn certified_after(
    graph: &Graph,
    q: usize,
    chips: &Wide,
    script: &Script,
) -> Option<CertifiedReduction>
    requires size { chips.now.size ≡ graph.now.size }
    requires script { script.now.size ≡ graph.now.size }
{
    if q >= graph.size() || !may_reduce(chips) || script.get(q) != 0 {
        return None;
    }
    Some(certified_by(graph, q, chips, script, &None))
}

/// The reduction that begins with a script, if the burning that a guess for other amounts ends with is at hand.
fn certified_beside(
    graph: &Graph,
    q: usize,
    chips: &Wide,
    script: &Script,
    other: &Wide,
) -> Option<CertifiedReduction>
    requires size { chips.now.size ≡ graph.now.size }
    requires script { script.now.size ≡ graph.now.size }
    requires other { other.now.size ≡ graph.now.size }
{
    if q >= graph.size() || !may_reduce(chips) || script.get(q) != 0 {
        return None;
    }
    if !may_reduce(other) {
        return None;
    }
    let inverse = InverseLaplacian::new(graph, q);
    let known = guess(graph, Some(&inverse), q, &other.in_32_bits()).burning;
    if known.is_none() {
        return None;
    }
    Some(certified_by(graph, q, chips, script, &known))
}

/// The graph, the amounts and the reduction of a case.
fn values_of(case: &Case) -> Result<(Graph, Wide, Reduced), Fail> {
    let (items, _, amounts, chips, script, _) = case;
    let graph = Graph::new(amounts.len(), items)?;
    let start = Wide::new(&graph, amounts)?;
    let divisor = Wide::new(&graph, chips)?;
    let script = Script::new(&graph, script)?;
    Ok((graph, start, Reduced { divisor, script }))
}

/// Whether what was found is the reduction that is wanted, and the order the one in which its amounts burn.
pub(super) fn is_wanted(
    graph: &Graph,
    q: usize,
    found: &CertifiedReduction,
    wanted: &Reduced,
) -> bool {
    found.reduced == *wanted
        && wanted.divisor.size() == graph.size()
        && q < graph.size()
        && burning_order(graph, q, &wanted.divisor) == Some(found.order)
}

#[test]
fn wrong_guesses(rt: HostRuntime) -> Result<(), Fail> {
    for case in &CASES {
        let (graph, start, wanted) = values_of(case)?;
        for guess in &case.5 {
            is_found_after(&rt, &graph, case.1, &start, guess, &wanted)?;
        }
    }
    Ok(())
}

fn is_found_after(
    rt: &impl Abort,
    graph: &Graph,
    q: usize,
    start: &Wide,
    guess: &[i64],
    wanted: &Reduced,
) -> Result<(), Fail> {
    let guessed = Script::new(graph, guess)?;
    assert!(rt; start.size() == graph.size());
    let Some(found) = certified_after(graph, q, start, &guessed) else {
        panic!(rt; "{guess:?}");
    };
    assert!(rt; is_wanted(graph, q, &found, wanted), "{guess:?}");
    Ok(())
}

// A burning of other amounts changes no answer: those where some vertex has a dollar less. One that burns in another order
// is among them. Triangle from 2, by hand: with a dollar less at 0, what is left off q is 1 0, so that 1 burns before 0.
#[test]
fn burnings_of_others(rt: HostRuntime) -> Result<(), Fail> {
    for case in &CASES {
        let (graph, start, wanted) = values_of(case)?;
        for v in 0..graph.size() {
            is_found_beside(&rt, &graph, case.1, &start, v, &wanted);
        }
    }
    Ok(())
}

fn is_found_beside(
    rt: &impl Abort,
    graph: &Graph,
    q: usize,
    start: &Wide,
    v: usize,
    wanted: &Reduced,
) {
    let size = graph.size();
    assert!(rt; v < size && start.size() == size && wanted.script.size() == size);
    let other = start.with_amount(v, start.get(v).wrapping_sub(1));
    let Some(found) = certified_beside(graph, q, start, &wanted.script, &other) else {
        panic!(rt; "{q} but at {v}");
    };
    assert!(rt; is_wanted(graph, q, &found, wanted), "{q} but at {v}");
}

/// The path of sixteen vertices.
fn long_path() -> Result<Graph, GraphFault> {
    let mut items = [(0, 0, 1); 15];
    for v in 0..15u8 {
        items[usize::from(v)] = (v, v + 1, 1);
    }
    Graph::new(16, &items)
}

// A vertex of the path, and amounts.
static RIGHT: [(usize, [i128; 16]); 5] = [
    (0, [0; 16]),
    (0, [1_000_000; 16]),
    (15, [-2_000_000; 16]),
    (7, [1_999_999; 16]),
    (
        3,
        [
            -1_000_000, 900_000, -1, 0, 8, 2_000_000, -65, 70_000, -7, 0, 0, -999_999, 5, 5,
            123_456, -1_000_000,
        ],
    ),
];

// What a guess leads to is the reduced divisor itself: here, and wherever else it was tried. One amount off the guess's
// path, and it is not.
#[test]
fn guesses_are_right(rt: HostRuntime) -> Result<(), Fail> {
    let path = long_path()?;
    for (q, amounts) in &RIGHT {
        let chips = Wide::new(&path, amounts)?;
        is_guessed(&rt, &path, *q, &chips);
    }
    Ok(())
}

fn is_guessed(rt: &impl Abort, path: &Graph, q: usize, chips: &Wide) {
    assert!(rt; q < path.size() && chips.size() == path.size());
    assert!(rt; may_reduce(chips));
    let inverse = InverseLaplacian::new(path, q);
    let script = guess(path, Some(&inverse), q, &chips.in_32_bits()).script;
    let left = chips.fired_by(path, &script);
    assert!(rt; burning_order(path, q, &left).is_some(), "for {q}");
    is_alone(rt, path, q, &left);
}

// With one amount changed, nobody off q owes, and not all vertices burn.
fn is_alone(rt: &impl Abort, path: &Graph, q: usize, left: &Wide) {
    assert!(rt; path.size() == 16 && left.size() == 16 && q < 16);
    assert!(rt; left.get(3) < 1 || q == 3);
    let other = left.with_amount(if q == 3 { 5 } else { 3 }, 2);
    assert!(rt; burning_order(path, q, &other).is_none(), "for {q}");
    assert!(rt; is_effective_off(path, q, &other));
}

// An inverse of another graph or vertex makes bad guesses, and changes no answer.
#[test]
fn inverses_of_others(rt: HostRuntime) -> Result<(), Fail> {
    let square = Graph::new(4, SQUARE)?;
    let path = Graph::new(4, PATH)?;
    serves(&rt, &square, &InverseLaplacian::new(&square, 0))?;
    serves(&rt, &square, &InverseLaplacian::new(&square, 2))?;
    serves(&rt, &square, &InverseLaplacian::new(&path, 3))
}

fn serves(rt: &impl Abort, square: &Graph, inverse: &InverseLaplacian) -> Result<(), Fail> {
    let chips = Wide::new(square, &[-300, 100, 90, 80])?;
    let _size = square.size();
    assert!(rt; may_reduce(&chips));
    let wanted = reduce_wide(square, 0, &chips);
    assert!(rt; Wide::new(square, &[-30, 0, 0, 0]) == Ok(wanted.divisor));
    let found = reduce_certified(square, Some(inverse), 0, &chips);
    assert!(rt; found.reduced == wanted);
    assert!(rt; found.order.starts_with(&[0, 1, 2, 3]));
    Ok(())
}
