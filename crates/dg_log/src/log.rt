//! The cells of a table's history, read by anyone.
ghost use Rattle.std.specs.Prelude.{◌≡◌, ◌<◌, ◌≤◌, List, length, map, MatchOption, ⊤};
ghost use Rattle.std.specs.Vec.{vec_len};
ghost use Rattle.once_cell.specs.Once.{cell_name};
ghost use Rattle.dg_rules.specs.declared.game.TheConstants.{MAX_ENTRIES};
ghost use Rattle.dg_log.specs.Rolls.{IsBlankRoll};
ghost use Rattle.dg_log.specs.Written.{nothing_written};

use crate::name::Name;
use crate::pen::Pen;
use crate::receipt::Receipt;
use crate::roll::Roll;
use crate::row::Row;
use crate::witness::Witness;
use crate::witnesses::Witnesses;
use dg_rules::Entry;
use once_cell::race::OnceBox;
use std::marker::PhantomData;

/// The history of the table N as its cells hold it. Reading takes no lock, and needs no memory.
#[derive(Drop)]
pub struct Log<N: Name> {
    pub(crate) cells: Vec<OnceBox<Entry>>,
    of: PhantomData<N>,
    ghost named: { map cell_name cells.items ≡ N.names.cells },
    ghost capacity: { length N.names.cells ≡ N.table.capacity },
    ghost fits: { vec_len cells ≤ MAX_ENTRIES },
}

impl<N: Name> Log<N> {
    /// The log of an empty history, and the one pen that writes it. The conditions are that N names the row, and that as many
    /// entries may be in the history as the row has cells. No seat can be made for it: that takes the roll of `with_roll`.
    pub fn new(row: Row) -> (Log<N>, Pen<N>)
        requires row { row ≡ N.names }
        requires capacity { length row.cells ≡ N.table.capacity }
        ensures { result.1 ≡ nothing_written }
    {
        let (log, pen, _) = Log::with_roll(row);
        (log, pen)
    }

    /// The log and the pen of `new`, and the roll of its table, whose seats made no call yet. The conditions are those of `new`.
    pub fn with_roll(row: Row) -> (Log<N>, Pen<N>, Roll)
        requires row { row ≡ N.names }
        requires capacity { length row.cells ≡ N.table.capacity }
        ensures pen { result.1 ≡ nothing_written }
        ensures names { result.2.names ≡ N.names.tallies }
        ensures blank { IsBlankRoll result.2.names result.2.tallies result.2.claimed }
    {
        let Row { cells, roll } = row;
        let log = Log {
            cells,
            of: PhantomData,
        };
        (log, Pen::new(), roll)
    }

    /// How many entries the history may have, at most 65,536.
    pub fn len(&self) -> u32
        ensures length { result ≡ length N.names.cells }
        ensures capacity { result ≡ N.table.capacity }
        ensures limit { result ≤ MAX_ENTRIES }
    {
        self.cells.len() as u32
    }

    /// The entry of a receipt. It takes no memory.
    pub fn entry(&self, receipt: &Receipt<N>) -> &Entry
        ensures { result.now ≡ receipt.now.1 }
    {
        let cell = &self.cells[receipt.number() as usize];
        let mut note = cell.note();
        receipt.witness.tell(&mut note);
        match cell.get_as(&mut note) {
            Some(entry) => entry,
            None => unreachable!(),
        }
    }

    /// The entry of a number, with a receipt for it; `None` past the last cell, and where the cell is found empty. It takes
    /// no memory.
    pub fn read(&self, number: u32) -> Option<(Receipt<N>, &Entry)>
        ensures { MatchOption result ⊤
            (λ r. (r.0.0 ≡ number) × (r.1.now ≡ r.0.1) × (number < length N.names.cells)) }
    {
        let cell = self.cells.get(number as usize)?;
        let mut note = cell.note();
        let entry = cell.get_as(&mut note)?;
        let witness = Witness::of(&mut note);
        Some((Receipt::of(number, witness), entry))
    }
}
