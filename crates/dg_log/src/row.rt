//! The cells of a history, before a table has them.
ghost use Rattle.std.specs.Prelude.{◌≡◌, ℕ, ◌≤◌, List, length, map, MatchResult, IfOk};
ghost use Rattle.std.specs.Vec.{vec_len};
ghost use Rattle.once_cell.specs.Once.{cell_name};
ghost use Rattle.dg_log.specs.Rows.{IsCapacity, IsLogFault};
ghost use Rattle.dg_rules.specs.declared.game.TheConstants.{MAX_ENTRIES};

use crate::roll::Roll;
use dg_rules::{Entry, MAX_ENTRIES};
use once_cell::race::OnceBox;
use std::alloc::{AllocError, Global};
use std::marker::Model;
use thiserror::Error;

/// Why there is no row of cells.
#[derive(Clone, Copy, Debug, PartialEq, Eq, Error)]
pub enum LogFault {
    /// It would have no cell, or more than 65,536.
    #[error("number of cells")]
    Capacity,
    /// There is not enough memory.
    #[error("out of memory")]
    OutOfMemory,
}

/// Empty cells, one for each entry that the history of a table may have, and the roll of its seats, who made no call yet. A
/// contract sees the names of the cells and of the tallies.
#[derive(Drop)]
pub struct Row {
    pub(crate) cells: Vec<OnceBox<Entry>>,
    pub(crate) roll: Roll,
}

impl Model for Row {
    ghost use Rattle.std.specs.Prelude.{◌≤◌, map};
    ghost use Rattle.std.specs.Vec.{vec_len};
    ghost use Rattle.once_cell.specs.Once.{cell_name};
    ghost use Rattle.dg_log.specs.Rolls.{IsBlankRoll};
    ghost use Rattle.dg_log.specs.Rows.{RowNames};
    ghost use Rattle.dg_rules.specs.declared.game.TheConstants.{MAX_ENTRIES};

    ghost Value = { RowNames };

    ghost view = { λ r. record { cells = map cell_name r.cells.items; tallies = r.roll.names } };

    ghost invariant = { λ r. (vec_len r.cells ≤ MAX_ENTRIES) ×
        IsBlankRoll r.roll.names r.roll.tallies r.roll.claimed };
}

impl Row {
    /// A row of this many cells, 1 to 65,536.
    ///
    /// Refused with `Capacity` if the number is another, and with `OutOfMemory`.
    pub fn new(alloc: Global, capacity: u32) -> Result<Row, LogFault>
        ensures { MatchResult result (λ r. (length r.cells ≡ capacity) × IsCapacity capacity)
            (IsLogFault capacity) }
    {
        let count = capacity as usize;
        if count == 0 || count > MAX_ENTRIES {
            return Err(LogFault::Capacity);
        }
        match Row::empty_cells(alloc, count) {
            Ok(cells) => Ok(Row {
                cells,
                roll: Roll::new(),
            }),
            Err(AllocError) => Err(LogFault::OutOfMemory),
        }
    }

    // So many empty cells.
    fn empty_cells(alloc: Global, count: usize) -> Result<Vec<OnceBox<Entry>>, AllocError>
        ensures { IfOk result (λ cells. vec_len cells ≡ count) }
    {
        let mut cells = Vec::with_capacity(alloc, count)?;
        for _ in 0..count {
            cells.push(OnceBox::new(alloc))?;
        }
        Ok(cells)
    }

    /// How many cells there are.
    pub fn len(&self) -> u32
        ensures { result ≡ length self.now.cells }
    {
        self.cells.len() as u32
    }
}
