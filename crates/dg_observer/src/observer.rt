//! Observers: what they have read, and what they keep of it.
ghost use Rattle.std.specs.Prelude.{◌≡◌, ◌<◌, ◌≤◌, ◌++◌, ℕ, List, [], ◌∷◌, length, slice_get, Some, IfOk, OnOk, OnErr};
ghost use Rattle.dg_rules.specs.declared.entry.Entry.{Entry as EntryData};
ghost use Rattle.dg_observer.specs.Folds.{Folds, GoesOn, MayCallAnywhere, Observed};

use crate::OutOfMemory;
use crate::watch::Watch;
use dg_log::{Log, Name, Receipt};
use dg_rules::{Entry, MAX_ENTRIES};
use std::alloc::Global;
use std::marker::{Model, PhantomData};
use thiserror::Error;

/// Why an observer reads no further.
#[derive(Clone, Copy, Debug, PartialEq, Eq, Error)]
pub enum ObserverFault {
    /// Memory was refused.
    #[error("out of memory")]
    OutOfMemory,
}

/// Reads the history of the table N from its first entry on, each entry once, in order, and keeps what W says, by the steps of
/// a closure. A contract sees the state, the entries that were read, and the closure.
#[derive(Drop)]
pub struct Observer<N: Name, W: Watch, F> {
    step: F,
    state: W::State,
    receipts: Vec<Receipt<N>>,
    of: PhantomData<W>,
}

impl<N: Name, W: Watch, F> Model for Observer<N, W, F> {
    ghost use Rattle.std.specs.Prelude.{◌≤◌, map, length};
    ghost use Rattle.dg_rules.specs.declared.game.TheConstants.{MAX_ENTRIES};
    ghost use Rattle.dg_observer.specs.Folds.{Observed, Folds, AreNumbered};

    ghost Value = { Observed W.State F };

    ghost view = { λ o. record { state = o.state; entries = map (λ r. r.1) o.receipts.items; step = o.step } };

    ghost invariant = { λ o. Folds W.begins W.goes_on (map (λ r. r.1) o.receipts.items) o.state
        × AreNumbered o.receipts.items
        × (length o.receipts.items ≤ length N.names.cells) × (length o.receipts.items ≤ MAX_ENTRIES) };
}

impl<N, W, F> Observer<N, W, F>
where
    N: Name,
    W: Watch,
    F: Fn(&W::State, &Entry) -> Result<W::State, OutOfMemory>,
{
    /// An observer that has read nothing, and goes on as the closure says. The conditions are that it may begin with `first`,
    /// that the closure may be called at every state and entry, and that it goes on as W says.
    pub fn new(alloc: Global, first: W::State, step: F) -> Observer<N, W, F>
        requires first { W.begins first }
        requires asked { MayCallAnywhere (F.pre step) }
        requires keeps { GoesOn (F.post step) W.goes_on }
        ensures { result ≡ record { state = first; entries = []; step = step } }
    {
        Observer {
            step,
            state: first,
            receipts: Vec::new(alloc),
            of: PhantomData,
        }
    }

    /// What is kept: from a first state on, one step of W for each entry that was read, in order.
    pub fn state(&self) -> &W::State
        ensures state { result.now ≡ self.now.state }
        ensures folds { Folds W.begins W.goes_on self.now.entries self.now.state }
    {
        &self.state
    }

    /// How many entries were read.
    pub fn count(&self) -> u32
        ensures count { result ≡ length self.now.entries }
        ensures cells { result ≤ length N.names.cells }
    {
        self.receipts.len() as u32
    }

    /// The receipt of the entry with this number, which was read. The condition is that so many were read.
    pub fn receipt(&self, number: u32) -> &Receipt<N>
        requires { number < length self.now.entries }
        ensures number { result.now.0 ≡ number }
        ensures entry { slice_get self.now.entries number ≡ Some result.now.1 }
    {
        &self.receipts[number as usize]
    }

    /// Reads on until an entry is not found, and gives how many were read. It takes no lock. The conditions are those of `new` on
    /// the closure.
    ///
    /// Refused with `OutOfMemory` if memory for a receipt is, or if the step answers so; what was read before
    /// stands.
    pub fn catch_up(&mut self, log: &Log<N>) -> Result<u32, ObserverFault>
        requires asked { MayCallAnywhere (F.pre self.old.step) }
        requires keeps { GoesOn (F.post self.old.step) W.goes_on }
        ensures step { self.new.step ≡ self.old.step }
        ensures more { (es : List EntryData) × (self.new.entries ≡ self.old.entries ++ es)
            × IfOk result (λ n. n ≡ length es) }
    {
        let before = self.count();
        let _cells = log.len();
        'entries: while let Some((receipt, entry)) = log.read(self.count()) {
            match self.fold(receipt, entry) {
                Ok(()) => {}
                Err(_) => return Err(ObserverFault::OutOfMemory),
            }
        }
        Ok(self.count() - before)
    }

    /// Goes on with one entry; if memory is refused, everything stays.
    fn fold(&mut self, receipt: Receipt<N>, entry: &Entry) -> Result<(), OutOfMemory>
        requires number { receipt.0 ≡ length self.old.entries }
        requires entry { receipt.1 ≡ entry.now }
        requires cell { length self.old.entries < length N.names.cells }
        requires few { length N.names.cells ≤ MAX_ENTRIES }
        requires asked { MayCallAnywhere (F.pre self.old.step) }
        requires keeps { GoesOn (F.post self.old.step) W.goes_on }
        ensures step { self.new.step ≡ self.old.step }
        ensures ok { OnOk result (self.new.entries ≡ self.old.entries ++ entry.now ∷ []) }
        ensures err { OnErr result (self.new ≡ self.old) }
    {
        let next = (self.step)(&self.state, entry)?;
        self.receipts.push(receipt)?;
        self.state = next;
        Ok(())
    }
}
