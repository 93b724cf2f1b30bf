//! Strategies, each move of which can be made.
ghost use Rattle.std.specs.Prelude.{◌≡◌};
ghost use Rattle.dg_strategy.specs.Choices.{MayCallAnywhere, GivesPlayable};

use dg_chips::{Divisor, Move};
use dg_graph::Graph;

/// A closure that chooses a seat's moves. What is known of it are conditions of `new`, and of `play` again: a type can't keep
/// them.
#[derive(Drop)]
pub struct Strategy<F> {
    /// The closure.
    pub choice: F,
}

impl<F> Strategy<F>
where
    F: Fn(&Graph, &Divisor) -> Option<Move>,
{
    /// The strategy that plays as the closure says. The conditions are that it may be asked at every graph and amounts of as
    /// many vertices, and that each move that it gives names vertices that exist, is no empty set and has the right size.
    pub fn new(choice: F) -> Strategy<F>
        requires asked { MayCallAnywhere (F.pre choice) }
        requires moves { GivesPlayable (F.post choice) }
        ensures { result.choice ≡ choice }
    {
        Strategy { choice }
    }
}
