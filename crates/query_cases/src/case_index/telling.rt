ghost use Rattle.std.specs.Prelude.{◌≡◌, All, IfOk, IsTrue};
ghost use Rattle.std.specs.Option.{option_copied};
ghost use Rattle.cells.specs.Parts.{AreParts};
ghost use Rattle.region_states.specs.region_basis.BasisOf.{basis_of};
ghost use Rattle.query_cases.specs.case_index.Codes.{columns_in};
ghost use Rattle.query_cases.specs.case_index.Telling.{AllTell, CellTells, ColumnTells, HoldsOthers};
ghost use Rattle.query_cases.specs.case_index.Told.{listed_at, shown_told};

use crate::case_cells::may_hold;
use crate::case_index::known::Known;
use crate::case_index::told::{ByTable, ToldRow, rows_by_table};
use case_laws::{Case, CaseCell, CaseRow};
use cells::Parts;
use emc_base::{ColId, Memory, TableId, Value};
use groupings::group;
use regions::Region;
use std::alloc::Global;
use std::collections::BTreeMap;

/// A column that tells cases apart, and the numbers of its known values.
#[derive(Drop)]
pub struct Column {
    pub col: ColId,
    pub numbers: BTreeMap<Value, usize>,
}

/// The telling columns of each table, in their order.
pub type Telling = BTreeMap<u32, Vec<Column>>;

/// Those of the columns with known values that tell these cases apart, by their tables. `Memory` comes where memory ran out.
pub fn telling_columns(
    alloc: Global,
    parts: &Parts<'_>,
    cases: &[Case],
    known: Known,
) -> Result<Telling, Memory>
    requires { AreParts parts.now }
    ensures { IfOk result (AllTell (basis_of parts.now) cases.now) }
{
    let by_table = rows_by_table(alloc, cases)?;
    let mut telling = Vec::new(alloc);
    for (spot, numbers) in known {
        let column = Column {
            col: ColId { index: spot.column },
            numbers,
        };
        if tells(parts, &by_table, spot.table, &column) {
            telling.push((spot.table, column))?;
        }
    }
    let grouped = group(alloc, telling)?;
    Ok(grouped)
}

/// The telling columns of a table, in their order.
pub fn columns_at(telling: &Telling, table: TableId) -> &[Column]
    ensures { result.now ≡ columns_in telling.now table }
{
    match telling.get(&table.index) {
        Some(columns) => columns.as_slice(),
        None => &[],
    }
}

// Whether a column tells what it holds in the rows that are listed of its table.
fn tells(parts: &Parts<'_>, by_table: &ByTable<'_>, table: u32, column: &Column) -> bool
    requires { AreParts parts.now }
    ensures { IsTrue result → All (λ told. ColumnTells (basis_of parts.now) column.now (shown_told told)) (listed_at by_table.now table) }
{
    match by_table.get(&table) {
        Some(rows) => rows_tell(parts, rows.as_slice(), column),
        None => true,
    }
}

// The same of these rows.
fn rows_tell(parts: &Parts<'_>, rows: &[ToldRow<'_>], column: &Column) -> bool
    requires { AreParts parts.now }
    ensures { IsTrue result → All (λ told. ColumnTells (basis_of parts.now) column.now (shown_told told)) rows.now }
{
    rows.iter()
        .all(|told| row_tells(parts, told.region, told.row, column))
}

// The same of one row.
fn row_tells(parts: &Parts<'_>, region: &Region, row: &CaseRow, column: &Column) -> bool
    requires { AreParts parts.now }
    ensures { IsTrue result → ColumnTells (basis_of parts.now) column.now (region.now, row.now) }
{
    let cell = row.cells.get(column.col.index as usize);
    cell_tells(parts, region, cell, &column.numbers)
}

// Whether a cell is a constant, or may hold none of the known values.
fn cell_tells(
    parts: &Parts<'_>,
    region: &Region,
    cell: Option<&CaseCell>,
    numbers: &BTreeMap<Value, usize>,
) -> bool
    requires { AreParts parts.now }
    ensures { IsTrue result → CellTells (basis_of parts.now) region.now numbers.now (option_copied cell.entry) }
{
    match cell {
        None => false,
        Some(CaseCell::Const(_)) => true,
        Some(other) => holds_others(parts, region, other, numbers),
    }
}

// Whether a cell may hold none of the known values.
fn holds_others(
    parts: &Parts<'_>,
    region: &Region,
    cell: &CaseCell,
    numbers: &BTreeMap<Value, usize>,
) -> bool
    requires { AreParts parts.now }
    ensures { IsTrue result → HoldsOthers (basis_of parts.now) region.now numbers.now cell.now }
{
    for value in numbers.keys() {
        if may_hold(parts, region, cell, value) {
            return false;
        }
    }
    true
}
