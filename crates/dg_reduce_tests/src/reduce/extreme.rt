//! Long, dense and heavy graphs with amounts at both limits: the reduction by levels, called by hand, is the one that begins
//! with a guess.

ghost use Rattle.std.specs.Prelude.{◌≡◌, ◌<◌, ◌≤◌};

use dg_chips::{Script, Wide};
use dg_graph::Graph;
use dg_reduce::{InverseLaplacian, certified_by, may_reduce, reduce_by_levels, reduce_certified};
use std::test::Fail;

/// How the edges of a graph lie.
#[derive(Clone, Copy, Debug)]
enum Shape {
    /// From each vertex to the next.
    Path,
    /// From each vertex to the next, and from the last to the first.
    Cycle,
    /// Between any two vertices.
    Complete,
    /// From the first vertex to each other.
    Star,
    /// From each vertex to two later ones, as far as there are some.
    Tree,
}

/// A shape, how many edges lie where it has some, and the most vertices. They are such that levels come to an end soon: heavier
/// paths, cycles and trees take tens of thousands of firings.
static FAMILIES: [(Shape, u8, u8); 15] = [
    (Shape::Path, 1, 16),
    (Shape::Path, 2, 16),
    (Shape::Path, 31, 5),
    (Shape::Cycle, 1, 16),
    (Shape::Cycle, 2, 16),
    (Shape::Cycle, 31, 5),
    (Shape::Complete, 1, 16),
    (Shape::Complete, 4, 16),
    (Shape::Complete, 12, 6),
    (Shape::Complete, 63, 2),
    (Shape::Star, 1, 16),
    (Shape::Star, 4, 16),
    (Shape::Tree, 1, 16),
    (Shape::Tree, 4, 16),
    (Shape::Tree, 21, 7),
];

/// Whether the shape has edges between two vertices.
fn are_joined(shape: Shape, size: u8, u: u8, v: u8) -> bool
    requires order { u < v }
    requires within { v < size }
{
    match shape {
        Shape::Path => v - u == 1,
        Shape::Cycle => v - u == 1 || v - u == size - 1,
        Shape::Complete => true,
        Shape::Star => u == 0,
        Shape::Tree => u == (v - 1) / 2,
    }
}

/// The graph of this shape with so many vertices; none if some vertex has got too many edges.
fn graph_of(shape: Shape, edges: u8, size: u8) -> Option<Graph>
    requires few { size ≤ 16 }
{
    let mut items = [(0, 0, 0); 120];
    let mut count = 0;
    for v in 1..size {
        for u in 0..v {
            if are_joined(shape, size, u, v) && count < 120 {
                items[count] = (u, v, edges);
                count += 1;
            }
        }
    }
    Graph::new(usize::from(size), &items[..count.min(120)]).ok()
}

/// The limit at each vertex, which owes it if its bit is 0: the six bits in turn, again and again.
fn amounts_of(signs: u8) -> [i128; 16] {
    let mut amounts = [1_000_000; 16];
    for v in 0..16 {
        if signs >> (v % 6) & 1 == 0 {
            amounts[v] = -1_000_000;
        }
    }
    amounts
}

/// Whether the reduction by levels, alone and after a script that does nothing, is the one that begins with a guess.
fn agrees(graph: &Graph, q: usize, chips: &Wide) -> bool
    requires size { chips.now.size ≡ graph.now.size }
    requires vertex { q < graph.now.size }
{
    if !may_reduce(chips) {
        return false;
    }
    let found = reduce_certified(graph, Some(&InverseLaplacian::new(graph, q)), q, chips);
    let after = certified_by(
        graph,
        q,
        chips,
        &Script::relative_to(&Wide::zero(graph), q),
        &None,
    );
    found.reduced == reduce_by_levels(graph, q, chips)
        && found.reduced == after.reduced
        && found.order == after.order
}

/// Whether they agree for amounts with these signs.
fn agrees_for(graph: &Graph, q: usize, signs: u8) -> bool
    requires { q < graph.now.size }
{
    let amounts = amounts_of(signs);
    match Wide::new(graph, &amounts[..graph.size()]) {
        Ok(chips) => agrees(graph, q, &chips),
        Err(_) => false,
    }
}

/// The first signs, and the vertex, for which they do not.
fn first_unlike(graph: &Graph) -> Option<(u8, usize)> {
    let size = graph.size();
    for signs in 0..64u8 {
        for q in [0, size / 2, size - 1] {
            if !agrees_for(graph, q, signs) {
                return Some((signs, q));
            }
        }
    }
    None
}

// All patterns of signs for up to six vertices, and for more vertices those that come again after six.
#[test]
fn levels_at_the_limits(rt: HostRuntime) -> Result<(), Fail> {
    for (shape, edges, most) in &FAMILIES {
        for size in 1..(*most).min(16) + 1 {
            let graph = graph_of(*shape, *edges, size).ok_or("no graph")?;
            let unlike = first_unlike(&graph);
            assert!(rt;
                unlike.is_none(),
                "{shape:?} of {size} with {edges}, {unlike:?}"
            );
        }
    }
    Ok(())
}
