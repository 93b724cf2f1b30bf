//! What the lines of a session have come to.
ghost use Rattle.std.specs.Prelude.{◌≡◌, ◌≤◌, ℕ, List, [], ◌++◌, length};
ghost use Rattle.dg_rules.specs.declared.entry.Entry.{Entry as EntryData};
ghost use Rattle.dg_table.specs.Seats.{HasMet};

use dg_log::{Name, Prefix, ReceiptSet};
use dg_table::Seat;
use std::marker::Model;

/// The history after the last line, and the entries that the lines have made so far, in their order.
#[derive(Drop)]
pub(crate) struct EntriesSoFar<N: Name> {
    history: Prefix<N>,
    entered: ReceiptSet<N>,
}

impl<N: Name> Model for EntriesSoFar<N> {
    ghost use Rattle.std.specs.Prelude.{length};
    ghost use Rattle.dg_table.specs.Histories.{IsHistoryOf};
    ghost use Rattle.dg_session.specs.State.{EntriesSoFarView};

    ghost Value = { EntriesSoFarView };

    ghost view = { λ c. record { history = c.history; entered = c.entered } };

    ghost invariant = { λ c. IsHistoryOf N.table c.history };
}

impl<N: Name> EntriesSoFar<N> {
    /// What no lines have come to.
    pub(crate) fn new() -> EntriesSoFar<N>
        ensures history { result.history ≡ [] }
        ensures entered { result.entered ≡ [] }
    {
        EntriesSoFar {
            history: Prefix::new(),
            entered: ReceiptSet::new(),
        }
    }

    /// Tells the seat of the history as the last line left it.
    pub(crate) fn tell(&self, seat: &mut Seat<N>)
        ensures { HasMet self.now.history seat.old seat.new }
    {
        seat.meet(&self.history);
    }

    /// Follows one more line, of the seat, which had made so many calls before it.
    pub(crate) fn follow(&mut self, seat: &Seat<N>, calls: u64)
        ensures history { self.new.history ≡ seat.now.met }
        ensures entered { (before made : List (ℕ × EntryData)) → length before ≡ calls →
            seat.now.mine ≡ before ++ made → length made ≤ 1 →
            self.new.entered ≡ self.old.entered ++ made }
    {
        self.history = seat.met().copy();
        if seat.calls() > calls {
            if let Some(receipt) = seat.last_call() {
                self.entered = self.entered.with(receipt);
            }
        }
    }
}
