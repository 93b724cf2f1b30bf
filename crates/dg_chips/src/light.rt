//! Firings by which no vertex gets much: sums of 32 bits tell them.

ghost use Rattle.std.specs.Prelude.{◌≡◌, ℕ, ◌<◌, ◌≤◌, ◌*◌, ◌^◌, pos, ◌*ℤ◌, slice_index};
ghost use Rattle.std.specs.Bool.{OnTrue};
ghost use Rattle.std.specs.List.{slice_index_or};
ghost use Rattle.std.specs.Int.RustNames.{unsigned_abs};
ghost use Rattle.dg_theory.specs.Firing.{gain};
ghost use Rattle.dg_chips.specs.Vector.{GainsFitI32};
ghost use Rattle.dg_chips.specs.declared.script.TheConstants.{MAX_ENTRY};

use dg_graph::{Graph, MAX_VERTICES};

/// More than a vertex may get from all others together, or lose to them, so that both together fit into 32 bits.
const MAX_LIGHT_GAIN: u64 = 1 << 30;

/// Whether no vertex gets or loses more than sums of 32 bits tell, if each vertex lends so often.
pub fn gains_fit_i32(graph: &Graph, lendings: &[i32; 16]) -> bool
    ensures { OnTrue result (GainsFitI32 graph.now (λ w. slice_index_or lendings.now w (pos 0))) }
{
    u64::from(max_valence(graph.valences())) * u64::from(max_abs_entry(lendings)) < MAX_LIGHT_GAIN
}

/// The largest of the numbers of edges.
fn max_valence(valences: &[u8; MAX_VERTICES]) -> u8
    ensures { (v : ℕ) → slice_index valences.now v ≤ result }
{
    let mut most = 0;
    for v in 0..16 {
        most = valences[v].max(most);
    }
    most
}

/// The most lendings, or borrowings, of a vertex.
fn max_abs_entry(lendings: &[i32; 16]) -> u32
    ensures { (w : ℕ) → unsigned_abs (slice_index_or lendings.now w (pos 0)) ≤ result }
{
    let mut most = 0;
    for w in 0..16 {
        most = lendings[w].unsigned_abs().max(most);
    }
    most
}

/// What a vertex gets if each vertex lends so often, if that is light.
pub fn gain_i32(graph: &Graph, lendings: &[i32; 16], v: usize) -> i32
    requires vertex { v < graph.now.size }
    requires small { (w : ℕ) → unsigned_abs (slice_index_or lendings.now w (pos 0)) ≤ MAX_ENTRY }
    requires light { GainsFitI32 graph.now (λ w. slice_index_or lendings.now w (pos 0)) }
    ensures { result ≡ gain graph.now (λ w. slice_index_or lendings.now w (pos 0)) v }
{
    let _size = graph.size();
    let row = graph.row(v);
    let mut sum = 0;
    for w in 0..16 {
        sum += carried_i32(row[w], lendings[w]);
    }
    sum - carried_i32(graph.valence(v), lendings[v])
}

/// What some edges carry together when each of them carries `each`.
fn carried_i32(edges: u8, each: i32) -> i32
    requires { edges * unsigned_abs each < 2 ^ 30 }
    ensures { result ≡ pos edges *ℤ each }
{
    i32::from(edges) * each
}
