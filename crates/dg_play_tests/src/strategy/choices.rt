//! A choice that is played in the tests.
ghost use Rattle.std.specs.Prelude.{◌≡◌, MatchOption};
ghost use Rattle.dg_chips.specs.Moves.{IsApplicableMove};

use dg_chips::{Divisor, Move};
use dg_graph::Graph;

// The richest vertex lends, the first of those that have the most; as docs/library.md has it.
pub(crate) fn richest_lends(graph: &Graph, position: &Divisor) -> Option<Move>
    requires { position.now.size ≡ graph.now.size }
    ensures { MatchOption result ⊥ (IsApplicableMove graph.now.size) }
{
    let mut richest = 0;
    for v in 1..graph.size() {
        if position.get(v) > position.get(richest) {
            richest = v;
        }
    }
    Some(Move::Lend(richest as u8))
}
