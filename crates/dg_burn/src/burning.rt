//! Burning a graph from a vertex, and what it comes to.

ghost use Rattle.std.specs.Prelude.{◌≡◌, ℕ, ◌<◌, ◌≤◌, ◌↔◌, take, slice_index};
ghost use Rattle.std.specs.List.{slice_index_or};
ghost use Rattle.dg_theory.specs.Firing.{IsEffectiveOff};
ghost use Rattle.dg_theory.specs.Burning.{IsLeastBurningOrder, IsGreatestLegal};
ghost use Rattle.dg_theory.specs.BurningLaws.{unburnt_by};
ghost use Rattle.dg_theory.specs.Reduced.{edges_out, IsReduced};
ghost use Rattle.dg_graph.specs.Sets.{in_set};
ghost use Rattle.dg_chips.specs.Vector.{at};
ghost use Rattle.dg_burn.specs.Fires.{list_amounts, AreCapped};

use crate::fire::{Fire, heat_gain};
use dg_chips::Wide;
use dg_graph::{Graph, MAX_VERTICES};

/// What burning from a vertex comes to.
#[derive(Clone, Copy, PartialEq, Eq)]
pub struct Burnt {
    /// The vertices in the order in which they burn, then zeros.
    pub order: [u8; 16],
    /// How many burn.
    pub burnt: u8,
    /// The set of the vertices that do not; bit v of the number stands for vertex v.
    pub unburnt: u16,
}

/// What burning from a vertex comes to, with the counts that tell what a firing of the rest would move.
#[derive(Clone, Copy)]
pub struct BurnCounts {
    /// What burning comes to.
    pub burnt: Burnt,
    /// How many edges join each vertex to those that burn, 0 past the last vertex.
    pub joined: [u8; 16],
}

/// Burns the graph from q. Of the vertices that more edges join to burnt ones than they hold dollars, the least burns
/// next, until there is none. What is left is the greatest set of vertices without q that can fire so that nobody off q
/// comes into debt. It takes no memory.
pub fn burn(graph: &Graph, q: usize, chips: &Wide) -> Burnt
    requires size { chips.now.size ≡ graph.now.size }
    requires vertex { q < graph.now.size }
    requires no_debt { IsEffectiveOff graph.now q (at chips.now) }
    ensures order { IsLeastBurningOrder graph.now q (at chips.now) (take result.burnt result.order) }
    ensures rest { (i : ℕ) → result.burnt ≤ i → i < MAX_VERTICES →
        slice_index_or result.order i 0 ≡ 0 }
    ensures some { 1 ≤ result.burnt }
    ensures burnt { result.burnt ≤ graph.now.size }
    ensures unburnt { IsGreatestLegal graph.now q (at chips.now) (in_set result.unburnt) }
    ensures reduced { (result.unburnt ≡ 0) ↔ IsReduced graph.now q (at chips.now) }
    ensures whole { (result.unburnt ≡ 0) ↔ (result.burnt ≡ graph.now.size) }
{
    let _size = graph.size();
    burn_counted(graph, q, &capped_amounts(chips)).burnt
}

/// Burns the graph from q, if each vertex holds so many dollars: as `burn` does, and with the counts kept. Amounts above
/// 64 burn as 64 does, for no vertex has more than 63 edges.
#[inline(always)]
pub fn burn_counted(graph: &Graph, q: usize, held: &[u8; 16]) -> BurnCounts
    requires { q < graph.now.size }
    ensures order { IsLeastBurningOrder graph.now q (list_amounts held.now)
        (take result.burnt.burnt result.burnt.order) }
    ensures rest { (i : ℕ) → result.burnt.burnt ≤ i → i < MAX_VERTICES →
        slice_index_or result.burnt.order i 0 ≡ 0 }
    ensures some { 1 ≤ result.burnt.burnt }
    ensures burnt { result.burnt.burnt ≤ graph.now.size }
    ensures left { (v : ℕ) → in_set result.burnt.unburnt v
        ≡ unburnt_by graph.now (take result.burnt.burnt result.burnt.order) v }
    ensures unburnt { IsGreatestLegal graph.now q (list_amounts held.now) (in_set result.burnt.unburnt) }
    ensures joined { (v : ℕ) →
        slice_index result.joined v ≡ edges_out graph.now (in_set result.burnt.unburnt) v }
    ensures whole { (result.burnt.unburnt ≡ 0) ↔ (result.burnt.burnt ≡ graph.now.size) }
{
    let _size = graph.size();
    let unlit = Fire::new(graph, held);
    let mut fire = unlit;
    fire.burn_vertex(graph, q);
    let mut order = [0; 16];
    order[0] = q as u8;
    let mut count = 1;
    'burning: while let Some(v) = fire.next_vertex() {
        order[count] = v as u8;
        count += 1;
        fire.burn_vertex(graph, v);
    }
    BurnCounts {
        burnt: Burnt {
            order,
            burnt: count as u8,
            unburnt: fire.left,
        },
        joined: heat_gain(fire.heat, unlit.heat),
    }
}

/// The amounts as far as burning looks at them: 0 for a debt, and 64 for more than 64.
pub fn capped_amounts(chips: &Wide) -> [u8; 16]
    ensures { AreCapped chips.now.size (at chips.now) result }
{
    let mut held = [0; 16];
    for v in 0..chips.size() {
        held[v] = chips.get(v).clamp(0, 64) as u8;
    }
    held
}
