//! What many receipts say, in a few bytes.
ghost use Rattle.std.specs.Prelude.{◌≡◌, ℕ, ◌<◌, ◌≤◌, List, [], ◌∷◌, ◌++◌, length, IsTrue, ◌↔◌};
ghost use Rattle.dg_rules.specs.declared.entry.Entry.{Entry as EntryData};
ghost use Rattle.dg_log.specs.Numbered.{AreBelow};
ghost use Rattle.dg_log.specs.ReceiptSets.{entries_of, AreNamed, IsSetEnd};

use crate::name::Name;
use crate::receipt::Receipt;
use crate::witnesses::Witnesses;
use dg_rules::Entry;
use std::marker::{Model, PhantomData};

/// What a list of receipts says. A contract sees the list; in memory there is only the least number that is greater than
/// all of theirs. So many receipts are compared with a history at once, in a time that does not grow with their number.
#[derive(Drop)]
pub struct ReceiptSet<N: Name> {
    pub(crate) witnesses: Witnesses<Entry>,
    end: u64,
    of: PhantomData<N>,
}

impl<N: Name> Model for ReceiptSet<N> {
    ghost Value = { List (ℕ × EntryData) };

    ghost view = { λ d. entries_of d.witnesses.items };

    ghost invariant = { λ d. AreNamed N.names.cells d.witnesses.items
        × IsSetEnd d.end (entries_of d.witnesses.items) };
}

impl<N: Name> ReceiptSet<N> {
    /// The set of no receipt.
    pub fn new() -> ReceiptSet<N>
        ensures { result ≡ [] }
    {
        ReceiptSet {
            witnesses: Witnesses::new(),
            end: 0,
            of: PhantomData,
        }
    }

    /// The set with one receipt more.
    pub fn with(&self, receipt: &Receipt<N>) -> ReceiptSet<N>
        ensures { result ≡ self.now ++ receipt.now ∷ [] }
    {
        let prefix = u64::from(receipt.number()) + 1;
        ReceiptSet {
            witnesses: self.witnesses.with(receipt.number(), &receipt.witness),
            end: if prefix > self.end { prefix } else { self.end },
            of: PhantomData,
        }
    }

    /// Whether all numbers are less than the given one. They are if that is the number of cells, or greater.
    pub fn all_below(&self, count: u32) -> bool
        ensures below { IsTrue result ↔ AreBelow count self.now }
        ensures cells { length N.names.cells ≤ count → IsTrue result }
    {
        self.end <= u64::from(count)
    }
}
