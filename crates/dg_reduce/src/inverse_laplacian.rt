//! What the guesses of a graph's reductions share.
//!
//! Nothing is promised of it: whoever fires by a guess tests where it leads. So all of this is plain arithmetic, in which
//! fractions may be off and sums may wrap.

ghost use Rattle.std.specs.Prelude.{◌<◌, ◌≤◌};

use dg_graph::{Graph, MAX_VERTICES};
use std::simd::prelude::*;

/// Added to lendings before they are rounded, so that x.5, which may be off in its last bits, goes up on all machines.
const ROUND_HALVES_UP: f64 = 0.001;

/// The inverse of a graph's Laplacian without the row and column of q, as far as fractions of 64 bits give it, with what else
/// guesses need. Made once, it serves each reduction for this graph and q. For another graph or q it only makes the guesses bad.
#[derive(Clone, Copy)]
pub struct InverseLaplacian {
    /// The vertex q.
    q: usize,
    /// The number of vertices.
    size: usize,
    /// The number of edges at each vertex.
    valences: u8x16,
    /// How often each vertex lends so that one of them, and then q, has a dollar less, fractions too.
    inverse: [[f64; 16]; 16],
    /// What that comes to for the dollars that are left to the vertices: half of those that would keep them from burning.
    shift: [f64; 16],
    /// What lending does.
    pub(crate) lending: Lending,
}

/// What lending does on a graph, without a look at a vertex q.
#[derive(Clone, Copy)]
pub(crate) struct Lending {
    /// What each vertex but q gets when one of them lends.
    pub(crate) rows: [[i32; 16]; 16],
    /// The number of edges at each vertex.
    pub(crate) valences: [i32; 16],
}

impl Lending {
    /// What it does on a graph.
    pub(crate) fn new(graph: &Graph, q: usize) -> Lending {
        Lending {
            rows: lending_rows(graph, q),
            valences: valences_of(graph),
        }
    }
}

impl InverseLaplacian {
    /// What serves the reductions of a graph for vertex q.
    pub fn new(graph: &Graph, q: usize) -> InverseLaplacian {
        let inverse = inverted(graph.size(), &reduced_laplacian(graph, q));
        InverseLaplacian {
            q,
            size: graph.size(),
            valences: u8x16::from_array(*graph.valences()),
            inverse,
            shift: target_shift(graph, q, &inverse),
            lending: Lending::new(graph, q),
        }
    }

    /// Whether this may serve a graph and a vertex q: the vertex is the one that it was made for, and so many edges meet at
    /// each vertex. A graph to which edges were added since has more.
    pub fn serves(&self, graph: &Graph, q: usize) -> bool {
        let valences = u8x16::from_array(*graph.valences());
        self.q == q && self.valences.simd_eq(valences).all()
    }

    /// How often each vertex lends, fractions too, so that all off q keep as much as they are aimed at, if they hold so
    /// much.
    pub(crate) fn lendings(&self, chips: &[i32; 16]) -> [f64; 16] {
        let mut sum = self.shift;
        for v in 0..self.size.min(MAX_VERTICES) {
            sum = add_scaled(&sum, &self.inverse[v], f64::from(chips[v]));
        }
        sum
    }
}

/// What each vertex but q gets when one of them lends, a row for each.
fn lending_rows(graph: &Graph, q: usize) -> [[i32; 16]; 16] {
    let mut rows = [[0; 16]; 16];
    for v in 0..graph.size() {
        rows[v] = lending_row(graph, q, v);
    }
    rows
}

/// What each vertex but q gets when v lends: v loses a dollar along each edge.
fn lending_row(graph: &Graph, q: usize, v: usize) -> [i32; 16]
    requires { v < graph.now.size }
{
    let _size = graph.size();
    let edges = graph.row(v);
    let mut row = [0; 16];
    for w in 0..16 {
        if w != q {
            row[w] = i32::from(edges[w]);
        }
    }
    row[v] = -i32::from(graph.valence(v));
    row
}

/// The number of edges at each vertex.
fn valences_of(graph: &Graph) -> [i32; 16] {
    let mut valences = [0; 16];
    for v in 0..graph.size() {
        valences[v] = i32::from(graph.valence(v));
    }
    valences
}

/// The matrix of the equations, a row and a column for each vertex: the Laplacian of the graph, where the row and the
/// column of q are replaced by those of the identity.
fn reduced_laplacian(graph: &Graph, q: usize) -> [[f64; 16]; 16] {
    let mut rows = [[0.0; 16]; 16];
    for v in 0..graph.size() {
        rows[v] = reduced_laplacian_row(graph, q, v);
    }
    rows
}

/// The row of vertex v: what it loses when each of the others lends once, 0 in the column of q.
fn reduced_laplacian_row(graph: &Graph, q: usize, v: usize) -> [f64; 16]
    requires { v < graph.now.size }
{
    let _size = graph.size();
    let mut row = [0.0; 16];
    if v == q {
        row[v] = 1.0;
        return row;
    }
    let edges = graph.row(v);
    for w in 0..16 {
        row[w] = -f64::from(edges[w]);
    }
    if q < 16 {
        row[q] = 0.0;
    }
    row[v] = f64::from(graph.valence(v));
    row
}

/// The inverse of a matrix, as far as it has rows, made in its place: a column of the identity, once it is there, is
/// replaced by the one that the inverse has so far.
fn inverted(size: usize, matrix: &[[f64; 16]; 16]) -> [[f64; 16]; 16]
    requires { size ≤ MAX_VERTICES }
{
    let mut rows = *matrix;
    for pivot in 0..size {
        pivot_on(size, &mut rows, pivot);
    }
    rows
}

/// Divides the pivot's row so that it has 1 at the pivot, and takes multiples of it from all others, so that they have 0
/// there; then the pivot's column is that of the inverse.
fn pivot_on(size: usize, rows: &mut [[f64; 16]; 16], pivot: usize)
    requires few { size ≤ MAX_VERTICES }
    requires pivot { pivot < size }
{
    let mut row = rows[pivot];
    let whole = 1.0 / row[pivot];
    row[pivot] = 1.0;
    let row = scaled(&row, whole);
    // With one more at the pivot, what others held there is taken away too.
    let mut whole_row = row;
    whole_row[pivot] = whole + 1.0;
    for v in 0..size {
        let factor = -rows[v][pivot];
        if v != pivot && factor != 0.0 {
            rows[v] = add_scaled(&rows[v], &whole_row, factor);
        }
    }
    rows[pivot] = row;
}

/// How often each vertex lends, fractions too, as an inverse has it, if there is none: one solution of the equations in place
/// of the inverse.
pub(crate) fn solve_once(graph: &Graph, q: usize, chips: &[i32; 16]) -> [f64; 16] {
    let mut rows = reduced_laplacian(graph, q);
    let mut wanted = right_hand_side(graph, q, chips);
    let size = graph.size();
    for pivot in 0..size {
        eliminate_below(size, &mut rows, &mut wanted, pivot);
    }
    back_substitute(size, &rows, &wanted)
}

/// What the equations come to: what each vertex holds, less what it is to keep.
fn right_hand_side(graph: &Graph, q: usize, chips: &[i32; 16]) -> [f64; 16] {
    let mut wanted = [0.0; 16];
    for v in 0..graph.size() {
        if v != q {
            wanted[v] = f64::from(chips[v]) - target_amount(graph, v);
        }
    }
    wanted
}

/// Takes multiples of the pivot's row from all below it, so that they have 0 at the pivot.
fn eliminate_below(size: usize, rows: &mut [[f64; 16]; 16], wanted: &mut [f64; 16], pivot: usize)
    requires few { size ≤ MAX_VERTICES }
    requires pivot { pivot < size }
{
    let row = rows[pivot];
    let whole = -1.0 / row[pivot];
    for v in pivot + 1..size {
        let factor = rows[v][pivot] * whole;
        if factor != 0.0 {
            rows[v] = add_scaled(&rows[v], &row, factor);
            wanted[v] += wanted[pivot] * factor;
        }
    }
}

/// The solution of equations that have 0 before the diagonal, from the last on.
fn back_substitute(size: usize, rows: &[[f64; 16]; 16], wanted: &[f64; 16]) -> [f64; 16]
    requires { size ≤ MAX_VERTICES }
{
    let mut lendings = [ROUND_HALVES_UP; 16];
    let mut found = [0.0; 16];
    for v in (0..size).rev() {
        let row = &rows[v];
        found[v] = (wanted[v] - dot_product(row, &found)) / row[v];
        lendings[v] += found[v];
    }
    lendings
}

/// The sum of the products of two rows.
fn dot_product(row: &[f64; 16], other: &[f64; 16]) -> f64 {
    let mut sum = 0.0;
    for w in 0..16 {
        sum += row[w] * other[w];
    }
    sum
}

/// The lendings that leave what is aimed at, if nobody holds anything before: a vertex of valence 3 or more is to keep
/// half of one dollar less than its valence less 1, so that it burns before long.
fn target_shift(graph: &Graph, q: usize, inverse: &[[f64; 16]; 16]) -> [f64; 16] {
    let mut shift = [ROUND_HALVES_UP; 16];
    for v in 0..graph.size() {
        let kept = target_amount(graph, v);
        if v != q && kept != 0.0 {
            shift = add_scaled(&shift, &inverse[v], -kept);
        }
    }
    shift
}

/// What a vertex is to keep.
fn target_amount(graph: &Graph, v: usize) -> f64
    requires { v < graph.now.size }
{
    let valence = f64::from(graph.valence(v));
    if valence > 2.0 {
        valence / 2.0 - 1.0
    } else {
        0.0
    }
}

/// A row, so many times.
fn scaled(row: &[f64; 16], times: f64) -> [f64; 16] {
    add_scaled(&[0.0; 16], row, times)
}

/// A sum and so many times a row.
fn add_scaled(sum: &[f64; 16], row: &[f64; 16], times: f64) -> [f64; 16] {
    let mut sum = *sum;
    for w in 0..16 {
        sum[w] += row[w] * times;
    }
    sum
}
