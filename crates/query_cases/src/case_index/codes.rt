ghost use Rattle.std.specs.Prelude.{◌≡◌, ◌++◌, IfOk};
ghost use Rattle.case_laws.specs.candidates.Rows.{shown_rows};
ghost use Rattle.query_cases.specs.case_index.Codes.{case_code, held_number, number_in, row_code, rows_code, told_number};

use crate::case_index::telling::{Column, Telling, columns_at};
use case_laws::{Case, CaseCell, PlacedRow};
use edm_types::Row;
use emc_base::{Memory, TableId, Value};
use std::alloc::Global;
use std::collections::BTreeMap;

/// The code of rows: for each its table, and what it holds in the telling columns. `Memory` comes where memory ran out.
pub fn rows_code(
    alloc: Global,
    telling: &Telling,
    rows: &[PlacedRow<'_>],
) -> Result<Vec<usize>, Memory>
    ensures { IfOk result (λ code. code.items ≡ rows_code telling.now (shown_rows rows.now)) }
{
    let mut code = Vec::new(alloc);
    for placed in rows {
        add_held(&mut code, telling, placed.table, placed.row)?;
    }
    Ok(code)
}

// Adds the code of a row that is there.
fn add_held(
    code: &mut Vec<usize>,
    telling: &Telling,
    table: TableId,
    row: &Row,
) -> Result<(), Memory>
    ensures { IfOk result (λ _. code.new.items ≡ code.old.items ++ row_code telling.now table (held_number row.now)) }
{
    code.push(table.index as usize)?;
    for column in columns_at(telling, table) {
        code.push(held_number(row, column))?;
    }
    Ok(())
}

// The number of what a row holds in a column.
fn held_number(row: &Row, column: &Column) -> usize
    ensures { result ≡ held_number row.now column.now }
{
    match row.cells.get(column.col.index as usize) {
        Some(value) => number_in(&column.numbers, value),
        None => number_in(&column.numbers, &Value::Null),
    }
}

/// The code of a case: that of all rows that may meet it. `Memory` comes where memory ran out.
pub fn case_code(alloc: Global, telling: &Telling, case: &Case) -> Result<Vec<usize>, Memory>
    ensures { IfOk result (λ code. code.items ≡ case_code telling.now case.now) }
{
    let mut code = Vec::new(alloc);
    for row in case.rows.as_slice() {
        add_told(&mut code, telling, row.table, row.cells.as_slice())?;
    }
    Ok(code)
}

// Adds the code of a row of a case.
fn add_told(
    code: &mut Vec<usize>,
    telling: &Telling,
    table: TableId,
    cells: &[CaseCell],
) -> Result<(), Memory>
    ensures { IfOk result (λ _. code.new.items ≡ code.old.items ++ row_code telling.now table (told_number cells.now)) }
{
    code.push(table.index as usize)?;
    for column in columns_at(telling, table) {
        code.push(told_number(cells, column))?;
    }
    Ok(())
}

// The number of what cells tell of a column.
fn told_number(cells: &[CaseCell], column: &Column) -> usize
    ensures { result ≡ told_number cells.now column.now }
{
    match cells.get(column.col.index as usize) {
        Some(CaseCell::Const(value)) => number_in(&column.numbers, value),
        _ => 0,
    }
}

// The number of a value: 0 where it is none of the known ones.
fn number_in(numbers: &BTreeMap<Value, usize>, value: &Value) -> usize
    ensures { result ≡ number_in numbers.now value.now }
{
    match numbers.get(value) {
        Some(number) => *number,
        None => 0,
    }
}
