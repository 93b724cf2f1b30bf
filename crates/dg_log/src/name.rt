//! Names of tables, which exist in the proofs alone. A name is a type, so that receipts of two tables can't be mixed up.
ghost use Rattle.dg_log.specs.Rows.{RowNames};
ghost use Rattle.dg_log.specs.Tables.{TableData};
ghost use Rattle.dg_log.specs.Nobody.{no_row_names, no_table};

use std::marker::Brand;

/// A name of one table: it stands for the table's row of cells, its start, its number of seats, and how many entries its history
/// may have. All that belongs to a table has its name in its type. So things of two tables can't be mixed up: that does not
/// compile.
pub trait Name {
    /// The names of the cells and of the seats' tallies, in order.
    ghost names: { RowNames };

    /// The start of the game, how many seats there are, and how many entries there may be: as many as there are cells.
    ghost table: { TableData };
}

impl Name for Brand {
    ghost names = { no_row_names };

    ghost table = { no_table };
}
