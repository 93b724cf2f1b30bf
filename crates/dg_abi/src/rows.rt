//! Rows of arrays: one for each divisor, with a place for each vertex.

ghost use Rattle.std.specs.Prelude.{◌≡◌, ℕ, ◌+◌, ◌<◌, ◌≤◌, ◌⊎◌, length, pos, MatchResult};
ghost use Rattle.std.specs.Int.RustNames.{unsigned_abs};
ghost use Rattle.std.specs.List.{slice_index_or};
ghost use Rattle.dg_chips.specs.Vector.{at};
ghost use Rattle.dg_abi.specs.Rows.{HoldsDivisor, RefusesRow, Holds, KeepsElsewhere};

use dg_chips::{ChipFault, Divisor, Wide};
use dg_graph::Graph;

/// The divisor of a row; or the code of the first amount that is past the limit.
pub(crate) fn divisor_at(graph: &Graph, amounts: &[i64], start: usize) -> Result<Divisor, i8>
    requires { start + graph.now.size ≤ length amounts.now }
    ensures { MatchResult result
        (HoldsDivisor graph.now.size amounts.now start)
        (λ told. RefusesRow graph.now.size amounts.now start told) }
{
    let size = graph.size();
    match Divisor::new(graph, &amounts[start..start + size]) {
        Ok(divisor) => Ok(divisor),
        Err(ChipFault::Range(v)) => Err(-1 - v as i8),
        Err(ChipFault::Length) => unreachable!(),
    }
}

/// Writes the first numbers of an array into a row, if the caller wants that row.
pub(crate) fn put<T: Copy>(row: &mut [T], start: usize, size: usize, numbers: &[T; 16])
    requires few { size ≤ 16 }
    requires room { (start + size ≤ length row.old) ⊎ (length row.old ≡ 0) }
    ensures length { length row.new ≡ length row.old }
    ensures holds { (z : T) → Holds z size row.new start (λ v. slice_index_or numbers.now v z) }
    ensures elsewhere { (z : T) → KeepsElsewhere z size row.old row.new start }
{
    if row.is_empty() {
        return;
    }
    for v in 0..size {
        row[start + v] = numbers[v];
    }
}

/// Amounts in 64 bits.
pub(crate) fn in_64_bits(amounts: &Wide) -> [i64; 16]
    requires { (v : ℕ) → v < amounts.now.size → unsigned_abs (at amounts.now v) ≤ 1000000000000000 }
    ensures { (v : ℕ) → v < amounts.now.size → slice_index_or result v (pos 0) ≡ at amounts.now v }
{
    let mut narrow = [0; 16];
    for v in 0..amounts.size() {
        narrow[v] = amounts.get(v) as i64;
    }
    narrow
}
