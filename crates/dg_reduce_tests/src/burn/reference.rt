//! Burning as the reference for the tests: the least vertex that may burn is sought anew each time, and so is the number
//! of its edges to burnt ones.

ghost use Rattle.std.specs.Prelude.{◌≡◌, ◌<◌, IfSome};

use dg_burn::Burnt;
use dg_chips::Wide;
use dg_graph::{Graph, complement, contains, with_vertex};

/// Burns the graph from q.
pub fn burn_anew(graph: &Graph, q: usize, chips: &Wide) -> Burnt
    requires size { chips.now.size ≡ graph.now.size }
    requires vertex { q < graph.now.size }
{
    let size = graph.size();
    let mut order = [0; 16];
    order[0] = q as u8;
    let mut burnt = 1;
    let mut reached = with_vertex(0, q);
    for count in 1..size {
        if let Some(v) = next_to_burn(graph, chips, reached) {
            order[count] = v as u8;
            burnt = count as u8 + 1;
            reached = with_vertex(reached, v);
        }
    }
    Burnt {
        order,
        burnt,
        unburnt: complement(size, reached),
    }
}

/// The least vertex that may burn.
fn next_to_burn(graph: &Graph, chips: &Wide, reached: u16) -> Option<usize>
    requires { chips.now.size ≡ graph.now.size }
    ensures { IfSome result (λ v. v < graph.now.size) }
{
    for v in 0..graph.size() {
        if !contains(reached, v) && chips.get(v) < i128::from(graph.edges_into(reached, v)) {
            return Some(v);
        }
    }
    None
}
