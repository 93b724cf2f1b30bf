//! How a history began, in four bytes: by it each call of a seat begins where the last one ended.
ghost use Rattle.std.specs.Prelude.{◌≡◌, ◌⊎◌, [], length, map, take};
ghost use Rattle.dg_log.specs.Numbered.{AreBelow, StandIn, IsPrefixOf, IsLongerPrefix};

use crate::name::Name;
use crate::receipt_set::ReceiptSet;
use crate::witnesses::Witnesses;
use dg_rules::Entry;
use std::marker::{Model, PhantomData};

/// The history of the table N as its pen had written it once. A contract sees these entries; in memory there is only their
/// number. Each later history begins with them, which one comparison tells (`Pen::began`).
#[derive(Drop)]
pub struct Prefix<N: Name> {
    pub(crate) witnesses: Witnesses<Entry>,
    len: u32,
    of: PhantomData<N>,
}

impl<N: Name> Model for Prefix<N> {
    ghost use Rattle.std.specs.Prelude.{◌≡◌, List, length, map, take};
    ghost use Rattle.dg_rules.specs.declared.entry.Entry.{Entry as EntryData};

    ghost Value = { List EntryData };

    ghost view = { λ p. map (λ x. x.2) p.witnesses.items };

    ghost invariant = { λ p. (p.len ≡ length p.witnesses.items) ×
        (map (λ x. x.1) p.witnesses.items ≡ take (length p.witnesses.items) N.names.cells) };
}

impl<N: Name> Prefix<N> {
    /// The history before its first entry.
    pub fn new() -> Prefix<N>
        ensures { result ≡ [] }
    {
        Prefix {
            witnesses: Witnesses::new(),
            len: 0,
            of: PhantomData,
        }
    }

    /// What a pen has written, each entry in the cell of its number.
    pub(crate) fn of(witnesses: Witnesses<Entry>, len: u32) -> Prefix<N>
        requires { (len ≡ length witnesses.items) ×
            (map (λ x. x.1) witnesses.items ≡ take (length witnesses.items) N.names.cells) }
        ensures { result ≡ map (λ x. x.2) witnesses.items }
    {
        Prefix {
            witnesses,
            len,
            of: PhantomData,
        }
    }

    /// How many entries there were.
    pub fn len(&self) -> u32
        ensures { result ≡ length self.now }
    {
        self.len
    }

    /// A copy: a history only grows, so what it begins with stays so.
    pub fn copy(&self) -> Prefix<N>
        ensures { result ≡ self.now }
    {
        Prefix {
            witnesses: self.witnesses.copy(),
            len: self.len,
            of: PhantomData,
        }
    }

    /// The longer of two histories of one table, which begins with the other.
    pub fn longer(&self, other: &Prefix<N>) -> Prefix<N>
        ensures { IsLongerPrefix self.now other.now result }
    {
        if self.len <= other.len {
            self.witnesses.agree(&other.witnesses);
            other.copy()
        } else {
            other.witnesses.agree(&self.witnesses);
            self.copy()
        }
    }

    /// What receipts say stands in the history. It does nothing. The condition is that their numbers are less than its length.
    pub fn holds(&self, receipt_set: &ReceiptSet<N>)
        requires { AreBelow (length self.now) receipt_set.now }
        ensures { StandIn self.now receipt_set.now }
    {
        receipt_set.witnesses.agree(&self.witnesses);
    }

    /// Of two histories of one table, one is the beginning of the other. It does nothing.
    pub fn compare(&self, other: &Prefix<N>)
        ensures { IsPrefixOf self.now other.now ⊎ IsPrefixOf other.now self.now }
    {
        self.witnesses.agree(&other.witnesses);
        other.witnesses.agree(&self.witnesses);
    }
}
