//! The reduction by single lendings and borrowings, on plain numbers: what the tests compare the reduction with.

ghost use Rattle.std.specs.Prelude.{◌≡◌, ◌<◌, ◌≤◌, IfSome};

use dg_chips::Divisor;
use dg_graph::{Graph, complement, contains, with_vertex};

/// Amounts, and how often each vertex has lent to come to them.
#[derive(Clone, Copy)]
pub struct Single {
    /// The amounts now.
    pub chips: [i64; 16],
    /// How often each vertex has lent.
    pub script: [i64; 16],
}

/// The reduced amounts of a small divisor, and the script that leads to them: 0 at q.
pub fn reduce_singly(graph: &Graph, q: usize, divisor: &Divisor) -> Single
    requires size { divisor.now.size ≡ graph.now.size }
    requires vertex { q < graph.now.size }
{
    let paid = paid_back(graph, q, &start(divisor));
    relative_to(graph, q, &burnt_down(graph, q, &paid))
}

/// The amounts of a divisor.
fn start(divisor: &Divisor) -> Single {
    let mut chips = [0; 16];
    for v in 0..divisor.size() {
        chips[v] = divisor.get(v);
    }
    Single {
        chips,
        script: [0; 16],
    }
}

/// Each time somebody off q owes, all others lend once, so that it has borrowed once; again and again, until nobody does.
fn paid_back(graph: &Graph, q: usize, before: &Single) -> Single {
    let size = graph.size();
    let mut now = *before;
    for _ in 0..1000 {
        let Some(v) = debtor(size, q, &now.chips) else {
            return now;
        };
        now = lent(graph, complement(size, with_vertex(0, v)), &now);
    }
    now
}

/// The first vertex off q that owes.
fn debtor(size: usize, q: usize, chips: &[i64; 16]) -> Option<usize>
    requires { size ≤ 16 }
    ensures { IfSome result (λ v. v < size) }
{
    for v in 0..size {
        if v != q && chips[v] < 0 {
            return Some(v);
        }
    }
    None
}

/// The vertices that do not burn lend once, again and again, until all burn.
fn burnt_down(graph: &Graph, q: usize, before: &Single) -> Single
    requires { q < graph.now.size }
{
    let mut now = *before;
    for _ in 0..1000 {
        let set = unburnt(graph, q, &now.chips);
        if set == 0 {
            return now;
        }
        now = lent(graph, set, &now);
    }
    now
}

/// The vertices that do not burn.
fn unburnt(graph: &Graph, q: usize, chips: &[i64; 16]) -> u16
    requires { q < graph.now.size }
{
    let size = graph.size();
    let mut set = 0;
    for v in 0..size {
        if v != q {
            set = with_vertex(set, v);
        }
    }
    for _ in 0..size {
        set = holding(graph, set, chips);
    }
    set
}

/// Those of a set that hold a dollar for each edge that leaves it.
fn holding(graph: &Graph, set: u16, chips: &[i64; 16]) -> u16 {
    let mut rest = 0;
    for v in 0..graph.size() {
        if contains(set, v) && chips[v] >= across(graph, set, v) {
            rest = with_vertex(rest, v);
        }
    }
    rest
}

/// The amounts after each vertex of a set has lent once.
fn lent(graph: &Graph, set: u16, before: &Single) -> Single {
    let mut now = *before;
    for v in 0..graph.size() {
        let across = across(graph, set, v);
        if contains(set, v) {
            now.chips[v] = before.chips[v].wrapping_sub(across);
            now.script[v] = before.script[v].wrapping_add(1);
        } else {
            now.chips[v] = before.chips[v].wrapping_add(across);
        }
    }
    now
}

/// The number of edges between a vertex and those on the other side of a set.
fn across(graph: &Graph, set: u16, v: usize) -> i64
    requires { v < graph.now.size }
{
    let mut sum = 0i64;
    for w in 0..graph.size() {
        if contains(set, w) != contains(set, v) {
            sum = sum.wrapping_add(i64::from(graph.edges(v, w)));
        }
    }
    sum
}

/// The same amounts, and the script less its entry at q.
fn relative_to(graph: &Graph, q: usize, led: &Single) -> Single
    requires { q < graph.now.size }
{
    let mut now = *led;
    for v in 0..graph.size() {
        now.script[v] = led.script[v].wrapping_sub(led.script[q]);
    }
    now
}
