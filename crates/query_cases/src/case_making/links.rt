ghost use Rattle.std.specs.Prelude.{◌≡◌, [], Bool, IfOk};
ghost use Rattle.cells.specs.Cells.{is_free_in};
ghost use Rattle.cells.specs.Parts.{AreParts};
ghost use Rattle.region_states.specs.region_basis.BasisOf.{basis_of};
ghost use Rattle.case_laws.specs.region_cases.Links.{end_by_settled, link_case_of, link_cell, link_row};
ghost use Rattle.regions.specs.Settled.{free, settle, settled_by};
ghost use Rattle.symbolic_rows.specs.settled_cells.Lent.{shown_possible};

use case_laws::{LinkCase, LinkCaseCell};
use cells::Parts;
use edm_types::EntityModel;
use emc_base::{AssocId, ColId, Memory, Seq, TableId, Value};
use regions::{PatternRow, Symbol};
use std::alloc::Global;
use symbolic_rows::{CanBe, link_pattern, possible};

/// The case of an association, by the first row of its pattern; `None` exactly where this has no row. `Memory` comes where memory ran out.
pub fn link_case(
    alloc: Global,
    parts: &Parts<'_>,
    assoc: AssocId,
) -> Result<Option<LinkCase>, Memory>
    requires { AreParts parts.now }
    ensures { IfOk result (λ made. made ≡ link_case_of (is_free_in parts.now.cells.now) (basis_of parts.now) assoc) }
{
    let pattern = link_pattern(alloc, parts, assoc)?;
    match pattern.rows.get(0) {
        Some(row) => Ok(Some(link_row(alloc, parts, assoc, row)?)),
        None => Ok(None),
    }
}

// The case by a row.
fn link_row(
    alloc: Global,
    parts: &Parts<'_>,
    assoc: AssocId,
    row: &PatternRow,
) -> Result<LinkCase, Memory>
    ensures { IfOk result (λ made. made ≡ link_row (is_free_in parts.now.cells.now) parts.now.model.now assoc row.now) }
{
    let mut cells = Seq::empty(alloc);
    for (index, symbols) in row.cells.as_slice().iter().enumerate() {
        let col = ColId {
            index: index as u32,
        };
        cells.push(link_cell(alloc, parts, row.table, col, symbols.as_slice())?)?;
    }
    Ok(LinkCase {
        assoc,
        table: row.table,
        cells,
    })
}

// What a cell of a link's row holds.
fn link_cell(
    alloc: Global,
    parts: &Parts<'_>,
    table: TableId,
    col: ColId,
    symbols: &[Symbol],
) -> Result<LinkCaseCell, Memory>
    ensures { IfOk result (λ cell. cell ≡ link_cell (is_free_in parts.now.cells.now) parts.now.model.now table col symbols.now) }
{
    if parts.cells.is_free(table, col) {
        Ok(LinkCaseCell::Free)
    } else {
        settled_cell(alloc, parts.model, symbols)
    }
}

// What a cell holds that isn't free.
fn settled_cell(
    alloc: Global,
    model: &EntityModel,
    symbols: &[Symbol],
) -> Result<LinkCaseCell, Memory>
    ensures { IfOk result (λ cell. cell ≡ end_by_settled (settle model.now [] symbols.now)) }
{
    match symbols.first() {
        Some(symbol) => symbol_cell(alloc, symbol, &possible(model, &[], symbol)),
        None => Ok(LinkCaseCell::Const(Value::Null)),
    }
}

// The same of the symbol by which it is settled.
fn symbol_cell(alloc: Global, symbol: &Symbol, can_be: &CanBe<'_>) -> Result<LinkCaseCell, Memory>
    ensures { IfOk result (λ cell. cell ≡ end_by_settled (settled_by symbol.now (shown_possible can_be.now))) }
{
    match can_be {
        CanBe::Null => Ok(LinkCaseCell::Const(Value::Null)),
        CanBe::One(value) => Ok(LinkCaseCell::Const(value.copy(alloc)?)),
        CanBe::Several { .. } => Ok(shown_cell(symbol)),
    }
}

// The same where the symbol can be several values.
fn shown_cell(symbol: &Symbol) -> LinkCaseCell
    ensures { (nullable : Bool) → result ≡ end_by_settled (free symbol.now nullable) }
{
    match symbol {
        Symbol::End { first, prop, .. } => LinkCaseCell::End {
            first: *first,
            prop: *prop,
        },
        Symbol::Null | Symbol::Const(_) | Symbol::Prop(_) => LinkCaseCell::Const(Value::Null),
    }
}
