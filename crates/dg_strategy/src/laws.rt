//! The laws of the greedy game: functions with empty bodies, whose contracts are the laws.
ghost use Rattle.dg_strategy.specs.Choices.{Chooses};
ghost use Rattle.dg_strategy.specs.GreedyLaws.{SettlerIsGreedy, GreedyIsUnique};

use dg_chips::{Divisor, Move};
use dg_graph::Graph;
use dg_log::Name;

/// What `greedy_turn` plays is what `settle_out` plays: by a settler whose choices are greedy, alone at a new table, a seat
/// makes a greedy game; and from one start, with one number of turns, there is only one.
pub fn settler_is_greedy<N: Name, F: Fn(&Graph, &Divisor) -> Option<Move>>()
    ensures settling { (choice : F) → SettlerIsGreedy N (Chooses (F.post choice)) N.table }
    ensures one { GreedyIsUnique }
{}
