//! What a call answers that is refused.

ghost use Rattle.std.specs.Prelude.{◌≡◌};
ghost use Rattle.dg_abi.specs.Calls.{fault_number, number_at};

use dg_graph::GraphFault;

/// The version of what the functions take and give.
pub(crate) const ABI: u32 = 1;

/// As many edges as may be listed: one item for each two of 16 vertices.
pub(crate) const MAX_ITEMS: usize = 120;

/// There is no vertex q.
pub(crate) const NO_Q: i64 = -7;
/// An array has not the length that goes with the others.
pub(crate) const LENGTHS: i64 = -8;
/// There are more items than two vertices each.
pub(crate) const TOO_MANY_ITEMS: i64 = -9;

/// The code of a row that fails a test past the limits within which a first loss is named.
pub(crate) const NO_LOSS_NAMED: i8 = 2;

/// The number of a fault of a graph: 16 times the item or vertex at fault, and its kind, less than 0.
pub(crate) fn fault_number(fault: &GraphFault) -> i64
    ensures { result ≡ fault_number fault.now }
{
    match *fault {
        GraphFault::Size => -1,
        GraphFault::NoVertex(i) => number_at(2, i),
        GraphFault::Loop(i) => number_at(3, i),
        GraphFault::Multiplicity(i) => number_at(4, i),
        GraphFault::Valence(v) => number_at(5, v),
        GraphFault::NotConnected => -6,
    }
}

/// The number of a fault of this kind at a place.
fn number_at(kind: u8, place: usize) -> i64
    ensures { result ≡ number_at kind place }
{
    -(i64::from(kind) + 16 * place.min(MAX_ITEMS) as i64)
}
