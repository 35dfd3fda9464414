ghost use Rattle.std.specs.Prelude.{◌≡◌, ◌++◌, ◌∷◌, [], IfOk, List, map, ℕ};
ghost use Rattle.round_trip.specs.Words.{ColId};
ghost use Rattle.regions.specs.declared.pattern.Symbol.{Symbol};
ghost use Rattle.regions.specs.Patterns.{pattern_by};
ghost use Rattle.member_groups.specs.group_numbers.Numbers.{HoldsEach};
ghost use Rattle.symbolic_rows.specs.Grouped.{AreIn, row_by, rows_by, with_once};
ghost use Rattle.symbolic_rows.specs.Written.{in_symbols};

use crate::grouped::{by_table, empty_lists};
use crate::symbols::{copy_symbol, stands};
use crate::writing::Writing;
use edm_types::{StoreModel, Table};
use emc_base::{ColId, Memory, Seq, TableId};
use regions::{Pattern, PatternRow, Symbol};
use std::alloc::Global;

/// The rows that these writings make, in the order of tables. `Memory` comes where memory ran out.
pub fn pattern_by(
    alloc: Global,
    store: &StoreModel,
    writings: Vec<Writing>,
) -> Result<Pattern, Memory>
    ensures { IfOk result (λ pattern. pattern ≡ pattern_by store.now (map in_symbols writings.items)) }
{
    let grouped = by_table(alloc, store.tables.len(), writings)?;
    let mut rows = Seq::empty(alloc);
    for (index, table) in store.tables.as_slice().iter().enumerate() {
        let id = TableId {
            index: index as u32,
        };
        add_row(alloc, &mut rows, id, table, grouped[index].as_slice())?;
    }
    Ok(Pattern { rows })
}

// Adds the row that the writings to a table make, if there are any.
fn add_row(
    alloc: Global,
    rows: &mut Seq<PatternRow>,
    id: TableId,
    table: &Table,
    writings: &[Writing],
) -> Result<(), Memory>
    ensures { IfOk result (λ _. rows.new ≡ rows.old ++ rows_by id table.now (map in_symbols writings.now)) }
{
    if writings.is_empty() {
        return Ok(());
    }
    rows.push(row_by(alloc, id, table, writings)?)
}

// The row that the writings to a table make.
fn row_by(
    alloc: Global,
    id: TableId,
    table: &Table,
    writings: &[Writing],
) -> Result<PatternRow, Memory>
    ensures { IfOk result (λ row. row ≡ row_by id table.now (map in_symbols writings.now)) }
{
    let mut cells = empty_lists(alloc, table.cols.len())?;
    for writing in writings {
        put_all(alloc, &mut cells, writing.cells.as_slice())?;
    }
    Ok(PatternRow {
        table: id,
        cells: as_lists(alloc, cells)?,
    })
}

// Puts symbols into their columns.
fn put_all(
    alloc: Global,
    cells: &mut Vec<Vec<Symbol>>,
    given: &[(ColId, Symbol)],
) -> Result<(), Memory>
    ensures { (before : List (ColId × Symbol)) (count : ℕ) → HoldsEach (AreIn before) count cells.old.items
        → IfOk result (λ _. HoldsEach (AreIn (before ++ given.now)) count cells.new.items) }
{
    for cell in given {
        put(alloc, cells, cell.0, &cell.1)?;
    }
    Ok(())
}

// Puts a symbol into its column, unless it stands there already.
fn put(
    alloc: Global,
    cells: &mut Vec<Vec<Symbol>>,
    col: ColId,
    symbol: &Symbol,
) -> Result<(), Memory>
    ensures { (before : List (ColId × Symbol)) (count : ℕ) → HoldsEach (AreIn before) count cells.old.items
        → IfOk result (λ _. HoldsEach (AreIn (before ++ (col, symbol.now) ∷ [])) count cells.new.items) }
{
    if let Some(own) = cells.get_mut(col.index as usize) {
        add_once(alloc, own, symbol)?;
    }
    Ok(())
}

// Adds a symbol to a list, unless it stands there already.
fn add_once(alloc: Global, own: &mut Vec<Symbol>, symbol: &Symbol) -> Result<(), Memory>
    ensures { IfOk result (λ _. own.new.items ≡ with_once symbol.now own.old.items) }
{
    if !stands(own.as_slice(), symbol) {
        own.push(copy_symbol(alloc, symbol)?)?;
    }
    Ok(())
}

// The same as lists.
fn as_lists(alloc: Global, cells: Vec<Vec<Symbol>>) -> Result<Seq<Seq<Symbol>>, Memory>
    ensures { IfOk result (λ lists. lists ≡ map (λ own. own.items) cells.items) }
{
    let mut lists = Seq::empty(alloc);
    for own in cells {
        lists.push(Seq::from_vec(own)?)?;
    }
    Ok(lists)
}
