//! The greedy game, turn by turn on a game alone.
ghost use Rattle.std.specs.Prelude.{◌<◌, ◌++◌, [], ◌∷◌, List};
ghost use Rattle.dg_chips.specs.Starts.{StartData};
ghost use Rattle.dg_rules.specs.State.{LeadsTo};
ghost use Rattle.dg_rules.specs.declared.entry.Entry.{Entry as EntryData};
ghost use Rattle.dg_rules.specs.declared.game.TheConstants.{MAX_ENTRIES};
ghost use Rattle.dg_strategy.specs.Greedy.{IsGreedyTurn};

use crate::least_debtor::greedy_choice;
use dg_rules::{Entry, Game, Plain};

/// Plays the next turn of a greedy game, and writes its entry: seat 1 lets the least vertex in debt borrow, or claims if nobody
/// is in debt. The answer is whether it claims; the claim is won. So turns make what `settle_out` makes of the greedy settler,
/// for the one seat of a new table. The condition is that the history has room for one more entry.
pub fn greedy_turn(game: &mut Game, entry: &mut Entry) -> bool
    requires { game.old.entries < MAX_ENTRIES }
    ensures turn { (o : StartData) (H : List EntryData) → LeadsTo o H game.old → IsGreedyTurn o H entry.new result }
    ensures leads { (o : StartData) (H : List EntryData) → LeadsTo o H game.old →
        LeadsTo o (H ++ entry.new ∷ []) game.new }
{
    let choice = greedy_choice(game.position());
    let settled = choice.is_none();
    game.reply_to_call(1, &Plain::from_choice(choice), entry);
    game.follow(entry);
    settled
}
