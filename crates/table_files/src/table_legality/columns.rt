use crate::table_legality::cells::broken_rule;
use crate::table_legality::rows::{place_of, rows_at};
use edm_types::{Column, Row, Table};
use emc_base::{Memory, Seq};
use entity_state::Found;
use groupings::{Finder, first_among};
use std::alloc::Global;

/// Looks at the cells of a row, column by column.
#[derive(Clone, Copy)]
struct Cells<'a> {
    t: usize,
    table: &'a Table,
    i: usize,
    row: &'a Row,
}

impl<'a> Finder<Column, Found> for Cells<'a> {
    ghost use Rattle.table_files.specs.table_legality.Cells.{IsCellBreach};

    ghost wrong = { λ s j column. IsCellBreach s.t s.table.now s.i s.row.now j column };

    fn find(&self, alloc: Global, j: usize, column: &Column) -> Result<Option<Found>, Memory> {
        let Some(rule) = broken_rule(self.row, j, column) else {
            return Ok(None);
        };
        let place = place_of(alloc, self.table, self.row, &column.name)?;
        let found = Found::at(alloc, rule.number(), &[self.t, self.i, j], place)?;
        Ok(Some(found))
    }
}

/// Looks at the rows of a table, cell by cell.
#[derive(Clone, Copy)]
struct RowCells<'a> {
    t: usize,
    table: &'a Table,
}

impl<'a> Finder<Row, Found> for RowCells<'a> {
    ghost use Rattle.groupings.specs.least_fault.Least.{Among};
    ghost use Rattle.table_files.specs.table_legality.Cells.{IsCellBreach};

    ghost wrong = { λ s i row. Among (IsCellBreach s.t s.table.now i row) s.table.now.cols };

    fn find(&self, alloc: Global, i: usize, row: &Row) -> Result<Option<Found>, Memory> {
        let cells = Cells {
            t: self.t,
            table: self.table,
            i,
            row,
        };
        first_among(alloc, &cells, self.table.cols.as_slice())
    }
}

/// Looks at the tables, row by row: the cells that break B1 or B2.
#[derive(Clone, Copy)]
pub struct TableCells<'a> {
    pub tables: &'a [Seq<Row>],
}

impl<'a> Finder<Table, Found> for TableCells<'a> {
    ghost use Rattle.groupings.specs.least_fault.Least.{Among};
    ghost use Rattle.round_trip.specs.Words.{rows_in};
    ghost use Rattle.table_files.specs.table_legality.Cells.{IsCellBreach};

    ghost wrong = { λ s t table. Among (λ i row. Among (IsCellBreach t table i row) table.cols) (rows_in s.tables.now (record { index = t })) };

    fn find(&self, alloc: Global, t: usize, table: &Table) -> Result<Option<Found>, Memory> {
        first_among(alloc, &RowCells { t, table }, rows_at(self.tables, t))
    }
}
