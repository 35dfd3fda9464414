ghost use Rattle.std.specs.Prelude.{◌≡◌, IfOk, map};
ghost use Rattle.cells.specs.Parts.{AreParts};
ghost use Rattle.region_states.specs.region_basis.BasisOf.{basis_of};
ghost use Rattle.update_views.specs.view_rows.Held.{held_by_link, row_by_link};
ghost use Rattle.update_views.specs.view_rows.Made.{first_link_row, link_cell_of, link_row_of};

use crate::view_rows::link_cells::{LinkCell, link_cell_of};
use cells::Parts;
use edm_types::{Assoc, EntityModel, Link, Row};
use emc_base::{AssocId, Memory, Seq, TableId, Value};
use regions::{PatternRow, Symbol};
use std::alloc::Global;
use symbolic_rows::link_pattern;
use table_files::TableRow;

/// The row of a link by itself: its table, and for each column what the cell holds.
#[derive(Drop)]
pub struct LinkRow {
    pub table: TableId,
    pub cells: Seq<LinkCell>,
}

/// The row of the links of an association: the first that its pattern tells; `None` where it tells none. `Memory` comes where memory ran out.
pub fn link_row(
    alloc: Global,
    parts: &Parts<'_>,
    id: AssocId,
    assoc: &Assoc,
) -> Result<Option<LinkRow>, Memory>
    requires { AreParts parts.now }
    ensures { IfOk result (λ row. row ≡ first_link_row (basis_of parts.now) id assoc.now) }
{
    let pattern = link_pattern(alloc, parts, id)?;
    match pattern.rows.as_slice().first() {
        Some(row) => Ok(Some(link_row_of(alloc, parts.model, assoc, row)?)),
        None => Ok(None),
    }
}

// The row that a row of the pattern tells, for a link of the association.
fn link_row_of(
    alloc: Global,
    model: &EntityModel,
    assoc: &Assoc,
    row: &PatternRow,
) -> Result<LinkRow, Memory>
    ensures { IfOk result (λ made. made ≡ link_row_of model.now assoc.now row.now) }
{
    let cells = cells_of(alloc, model, assoc, row.cells.as_slice())?;
    Ok(LinkRow {
        table: row.table,
        cells,
    })
}

// What the cells hold.
fn cells_of(
    alloc: Global,
    model: &EntityModel,
    assoc: &Assoc,
    listed: &[Seq<Symbol>],
) -> Result<Seq<LinkCell>, Memory>
    ensures { IfOk result (λ cells. cells ≡ map (link_cell_of model.now assoc.now) listed.now) }
{
    let mut cells = Seq::empty(alloc);
    for symbols in listed {
        cells.push(link_cell_of(alloc, model, assoc, symbols.as_slice())?)?;
    }
    Ok(cells)
}

impl LinkRow {
    /// The row with the keys of a link. `Memory` comes where memory ran out.
    pub fn filled(&self, alloc: Global, link: &Link) -> Result<TableRow, Memory>
        ensures { IfOk result (λ placed. placed ≡ row_by_link self.now link.now) }
    {
        let cells = values_of(alloc, self.cells.as_slice(), link)?;
        Ok(TableRow {
            table: self.table,
            row: Row { cells },
        })
    }
}

// The values of cells.
fn values_of(alloc: Global, cells: &[LinkCell], link: &Link) -> Result<Seq<Value>, Memory>
    ensures { IfOk result (λ values. values ≡ map (held_by_link link.now) cells.now) }
{
    let mut values = Seq::empty(alloc);
    for cell in cells {
        values.push(cell.value(alloc, link)?)?;
    }
    Ok(values)
}
