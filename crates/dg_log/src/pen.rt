//! The pen: who has it writes the history.
ghost use Rattle.std.specs.Prelude.{◌≡◌, ◌<◌, ◌≤◌, [], ◌∷◌, ◌++◌, length, map, take, MatchResult, true, false};
ghost use Rattle.std.specs.List.{slice_get};
ghost use Rattle.std.specs.declared.option.Option.TheVariants.{Some};
ghost use Rattle.dg_rules.specs.declared.game.TheConstants.{MAX_ENTRIES};
ghost use Rattle.dg_log.specs.Numbered.{AreBelow, StandIn, IsPrefixOf};
ghost use Rattle.dg_log.specs.Written.{nothing_written, with_entry, after_refusal};

use crate::log::Log;
use crate::name::Name;
use crate::prefix::Prefix;
use crate::receipt::Receipt;
use crate::receipt_set::ReceiptSet;
use crate::witness::Witness;
use crate::witnesses::Witnesses;
use dg_rules::Entry;
use std::marker::{Model, PhantomData};

/// The one pen of the table N. A contract sees the history that it wrote, and whether the last entry was refused.
#[derive(Drop)]
pub struct Pen<N: Name> {
    witnesses: Witnesses<Entry>,
    len: u32,
    stuck: bool,
    of: PhantomData<N>,
}

impl<N: Name> Model for Pen<N> {
    ghost use Rattle.std.specs.Prelude.{◌≡◌, ◌≤◌, length, map, take};
    ghost use Rattle.dg_rules.specs.declared.game.TheConstants.{MAX_ENTRIES};
    ghost use Rattle.dg_log.specs.Written.{Written};

    ghost Value = { Written };

    ghost view = { λ p. record { entries = map (λ x. x.2) p.witnesses.items; stuck = p.stuck } };

    ghost invariant = { λ p. (p.len ≡ length p.witnesses.items) × (p.len ≤ N.table.capacity) × (N.table.capacity ≤ MAX_ENTRIES) ×
        (map (λ x. x.1) p.witnesses.items ≡ take (length p.witnesses.items) N.names.cells) };
}

impl<N: Name> Pen<N> {
    /// A pen that wrote nothing.
    pub(crate) fn new() -> Pen<N>
        requires { N.table.capacity ≤ MAX_ENTRIES }
        ensures { result ≡ nothing_written }
    {
        Pen {
            witnesses: Witnesses::new(),
            len: 0,
            stuck: false,
            of: PhantomData,
        }
    }

    /// Sets the next cell to the entry in the box, and answers its receipt. Hands the box back, and is stuck, if the cell
    /// refuses it. It takes no memory, but uses the box. The condition is that a cell is left.
    pub fn put(&mut self, log: &Log<N>, entry: Box<Entry>) -> Result<Receipt<N>, Box<Entry>>
        requires { length self.old.entries < N.table.capacity }
        ensures { MatchResult result
            (λ r. (r ≡ (length self.old.entries, entry.value)) × (self.new ≡ with_entry self.old entry.value))
            (λ b. (b.value ≡ entry.value) × (self.new ≡ after_refusal self.old)) }
    {
        let cell = &log.cells[self.len as usize];
        let mut note = cell.note();
        match cell.set_as(entry, &mut note) {
            Ok(()) => {
                let witness = Witness::of(&mut note);
                let number = self.len;
                self.witnesses = self.witnesses.with(number, &witness);
                self.len += 1;
                self.stuck = false;
                Ok(Receipt::of(number, witness))
            }
            Err(entry) => {
                self.stuck = true;
                Err(entry)
            }
        }
    }

    /// Whether the last entry was refused.
    pub fn stuck(&self) -> bool
        ensures { result ≡ self.now.stuck }
    {
        self.stuck
    }

    /// How many entries were written.
    pub fn len(&self) -> u32
        ensures length { result ≡ length self.now.entries }
        ensures room { result ≤ N.table.capacity }
        ensures limit { N.table.capacity ≤ MAX_ENTRIES }
    {
        self.len
    }

    /// The receipt of an entry. The condition is that there is an entry of this number.
    pub fn receipt(&self, number: u32) -> Receipt<N>
        requires { number < length self.now.entries }
        ensures number { result.0 ≡ number }
        ensures entry { slice_get self.now.entries number ≡ Some result.1 }
    {
        Receipt::of(number, self.witnesses.at(number))
    }

    /// What receipts say stands in the history that was written. It does nothing. The condition is that their numbers are
    /// less than its length.
    pub fn holds(&self, receipt_set: &ReceiptSet<N>)
        requires { AreBelow (length self.now.entries) receipt_set.now }
        ensures { StandIn self.now.entries receipt_set.now }
    {
        receipt_set.witnesses.agree(&self.witnesses);
    }

    /// The history as it stands.
    pub fn prefix(&self) -> Prefix<N>
        ensures { result ≡ self.now.entries }
    {
        Prefix::of(self.witnesses.copy(), self.len)
    }

    /// The history that was written begins with what was written once. It does nothing. The condition is that it has as
    /// many entries, or more.
    pub fn began(&self, prefix: &Prefix<N>)
        requires { length prefix.now ≤ length self.now.entries }
        ensures { IsPrefixOf prefix.now self.now.entries }
    {
        prefix.witnesses.agree(&self.witnesses);
    }
}
