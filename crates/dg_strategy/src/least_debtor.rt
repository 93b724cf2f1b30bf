//! The greedy choice.
ghost use Rattle.std.specs.Prelude.{MatchOption};
ghost use Rattle.dg_theory.specs.Firing.{IsEffective};
ghost use Rattle.dg_chips.specs.Vector.{at};
ghost use Rattle.dg_strategy.specs.Choices.{IsGreedyMove, IsLeastInDebt};

use dg_chips::{Divisor, Move};

/// What the greedy settler chooses: the least vertex in debt borrows, and there is a claim if nobody is in debt.
pub fn greedy_choice(position: &Divisor) -> Option<Move>
    ensures { IsGreedyMove position.now result }
{
    match least_debtor(position) {
        Some(v) => Some(Move::Borrow(v)),
        None => None,
    }
}

/// The least vertex in debt.
fn least_debtor(position: &Divisor) -> Option<u8>
    ensures { MatchOption result
        (IsEffective position.now.size (at position.now))
        (IsLeastInDebt position.now) }
{
    for v in 0..position.size() {
        if position.get(v) < 0 {
            return Some(v as u8);
        }
    }
    None
}
