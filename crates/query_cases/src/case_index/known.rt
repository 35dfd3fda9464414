use case_laws::{Case, CaseCell, CaseRow};
use emc_base::{Memory, Value};
use std::alloc::Global;
use std::collections::BTreeMap;

/// A column of a table.
#[derive(Clone, Copy, PartialEq, Eq, PartialOrd, Ord)]
pub struct Spot {
    pub table: u32,
    pub column: u32,
}

/// The known values of columns, each with its number.
pub type Known = BTreeMap<Spot, BTreeMap<Value, usize>>;

/// The values that these cases hold for certain in their columns, numbered from 1 in each column as they come. `Memory` comes where memory ran out.
pub fn known_values(alloc: Global, cases: &[Case]) -> Result<Known, Memory> {
    let mut known = BTreeMap::new(alloc);
    for case in cases {
        add_rows(alloc, &mut known, case.rows.as_slice())?;
    }
    Ok(known)
}

// Adds those of rows.
fn add_rows(alloc: Global, known: &mut Known, rows: &[CaseRow]) -> Result<(), Memory> {
    for row in rows {
        add_cells(alloc, known, row)?;
    }
    Ok(())
}

// Adds those of the cells of a row.
fn add_cells(alloc: Global, known: &mut Known, row: &CaseRow) -> Result<(), Memory> {
    for (index, cell) in row.cells.as_slice().iter().enumerate() {
        if let CaseCell::Const(value) = cell {
            let spot = Spot {
                table: row.table.index,
                column: index as u32,
            };
            add_value(alloc, known, spot, value)?;
        }
    }
    Ok(())
}

// Adds a value of a column, with the next number where it is new.
fn add_value(alloc: Global, known: &mut Known, spot: Spot, value: &Value) -> Result<(), Memory> {
    let numbers = known.entry(spot)?.or_insert(BTreeMap::new(alloc));
    if !numbers.contains_key(value) {
        let next = numbers.len() + 1;
        numbers.insert(value.copy(alloc)?, next)?;
    }
    Ok(())
}
