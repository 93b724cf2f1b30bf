//! Settlers, which borrow until nobody is in debt.
ghost use Rattle.std.specs.Prelude.{◌≡◌};
ghost use Rattle.dg_strategy.specs.Choices.{MayCallAnywhere, ChoosesBorrowings, GivesClaims};

use dg_chips::{Divisor, Move};
use dg_graph::Graph;

/// A closure that lets vertices in debt borrow. What is known of it are conditions of `new`, and of `settle_out` again: a type
/// can't keep them.
#[derive(Drop)]
pub struct Settler<F> {
    /// The closure.
    pub choice: F,
}

impl<F> Settler<F>
where
    F: Fn(&Graph, &Divisor) -> Option<Move>,
{
    /// The settler that plays as the closure says. The conditions are that it may be asked at every graph and amounts of as
    /// many vertices, that each move that it gives is a borrowing by a vertex in debt, and that it gives none only if nobody is
    /// in debt.
    pub fn new(choice: F) -> Settler<F>
        requires asked { MayCallAnywhere (F.pre choice) }
        requires moves { ChoosesBorrowings (F.post choice) }
        requires claims { GivesClaims (F.post choice) }
        ensures { result.choice ≡ choice }
    {
        Settler { choice }
    }
}
