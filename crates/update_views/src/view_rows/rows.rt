ghost use Rattle.std.specs.Prelude.{◌≡◌, IfOk, map};
ghost use Rattle.cells.specs.Parts.{AreParts};
ghost use Rattle.region_states.specs.region_basis.BasisOf.{basis_of};
ghost use Rattle.update_views.specs.view_rows.Held.{held_by_entity, row_by_entity};
ghost use Rattle.update_views.specs.view_rows.Made.{cell_of, row_of, rows_of_region};

use crate::view_rows::view_cells::{ViewCell, cell_of};
use cells::Parts;
use edm_types::{Entity, EntityModel, Hosted, Row};
use emc_base::{Memory, Seq, TableId, TypeId, Value};
use regions::{PatternRow, Region, Symbol};
use std::alloc::Global;
use symbolic_rows::region_pattern;
use table_files::TableRow;

/// A row of an entity: its table, and for each column what the cell holds.
#[derive(Drop)]
pub struct ViewRow {
    pub table: TableId,
    pub cells: Seq<ViewCell>,
}

/// The rows of the entities of a region, in the order of tables. `Memory` comes where memory ran out.
pub fn rows_of_region(
    alloc: Global,
    parts: &Parts<'_>,
    region: &Region,
) -> Result<Seq<ViewRow>, Memory>
    requires { AreParts parts.now }
    ensures { IfOk result (λ rows. rows ≡ rows_of_region (basis_of parts.now) region.now) }
{
    let pattern = region_pattern(alloc, parts, region)?;
    rows_for(alloc, parts.model, region.ty, pattern.rows.as_slice())
}

// The rows that these rows of a pattern tell, for an entity of the type.
fn rows_for(
    alloc: Global,
    model: &EntityModel,
    ty: TypeId,
    rows: &[PatternRow],
) -> Result<Seq<ViewRow>, Memory>
    ensures { IfOk result (λ made. made ≡ map (row_of model.now ty) rows.now) }
{
    let mut made = Seq::empty(alloc);
    for row in rows {
        made.push(row_of(alloc, model, ty, row)?)?;
    }
    Ok(made)
}

// The row that a row of the pattern tells, for an entity of the type.
fn row_of(
    alloc: Global,
    model: &EntityModel,
    ty: TypeId,
    row: &PatternRow,
) -> Result<ViewRow, Memory>
    ensures { IfOk result (λ made. made ≡ row_of model.now ty row.now) }
{
    let cells = cells_of(alloc, model, ty, row.cells.as_slice())?;
    Ok(ViewRow {
        table: row.table,
        cells,
    })
}

// What the cells hold.
fn cells_of(
    alloc: Global,
    model: &EntityModel,
    ty: TypeId,
    listed: &[Seq<Symbol>],
) -> Result<Seq<ViewCell>, Memory>
    ensures { IfOk result (λ cells. cells ≡ map (cell_of model.now ty) listed.now) }
{
    let mut cells = Seq::empty(alloc);
    for symbols in listed {
        cells.push(cell_of(alloc, model, ty, symbols.as_slice())?)?;
    }
    Ok(cells)
}

/// The rows with the values of an entity and the keys of its partners. `Memory` comes where memory ran out.
pub fn filled(
    alloc: Global,
    rows: &[ViewRow],
    entity: &Entity,
    links: &[Hosted],
) -> Result<Vec<TableRow>, Memory>
    ensures { IfOk result (λ placed. placed.items ≡ map (row_by_entity entity.now links.now) rows.now) }
{
    let mut placed = Vec::new(alloc);
    for row in rows {
        let cells = values_of(alloc, row.cells.as_slice(), entity, links)?;
        placed.push(TableRow {
            table: row.table,
            row: Row { cells },
        })?;
    }
    Ok(placed)
}

// The values of cells.
fn values_of(
    alloc: Global,
    cells: &[ViewCell],
    entity: &Entity,
    links: &[Hosted],
) -> Result<Seq<Value>, Memory>
    ensures { IfOk result (λ values. values ≡ map (held_by_entity entity.now links.now) cells.now) }
{
    let mut values = Seq::empty(alloc);
    for cell in cells {
        values.push(cell.value(alloc, entity, links)?)?;
    }
    Ok(values)
}
