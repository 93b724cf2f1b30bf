//! Receipts: what shows that an entry stands in the history at its number.
ghost use Rattle.std.specs.Prelude.{◌≡◌, ℕ, ◌<◌, length};
ghost use Rattle.std.specs.List.{slice_get};
ghost use Rattle.std.specs.declared.option.Option.TheVariants.{Some};
ghost use Rattle.dg_rules.specs.declared.entry.Entry.{Entry as EntryData};

use crate::name::Name;
use crate::witness::Witness;
use dg_rules::Entry;
use std::marker::{Model, PhantomData};

/// A receipt for an entry of the table N. A contract sees the entry's number and the entry. It takes four bytes, and can be
/// copied and handed to other threads.
#[derive(Drop)]
pub struct Receipt<N: Name> {
    number: u32,
    pub(crate) witness: Witness<Entry>,
    of: PhantomData<N>,
}

impl<N: Name> Model for Receipt<N> {
    ghost Value = { ℕ × EntryData };

    ghost view = { λ r. (r.number, r.witness.value) };

    ghost invariant = { λ r. slice_get N.names.cells r.number ≡ Some r.witness.cell };
}

impl<N: Name> Receipt<N> {
    /// A receipt for the entry that the cell of this number is known to hold.
    pub(crate) fn of(number: u32, witness: Witness<Entry>) -> Receipt<N>
        requires { slice_get N.names.cells number ≡ Some witness.cell }
        ensures { result ≡ (number, witness.value) }
    {
        Receipt {
            number,
            witness,
            of: PhantomData,
        }
    }

    /// The entry's number in the history, from 0.
    pub fn number(&self) -> u32
        ensures number { result ≡ self.now.0 }
        ensures cell { result < length N.names.cells }
    {
        self.number
    }

    /// A copy of the receipt: what it knows stays so, and may be known twice.
    pub fn again(&self) -> Receipt<N>
        ensures { result ≡ self.now }
    {
        Receipt::of(self.number, self.witness.copy())
    }

    /// Two receipts of one number are for one entry. It does nothing. The condition is that their numbers are equal.
    pub fn compare(&self, other: &Receipt<N>)
        requires { other.now.0 ≡ self.now.0 }
        ensures { other.now.1 ≡ self.now.1 }
    {
        self.witness.agrees(&other.witness);
    }
}
