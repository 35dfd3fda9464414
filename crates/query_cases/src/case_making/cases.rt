ghost use Rattle.std.specs.Prelude.{◌≡◌, Bool, IfOk, map};
ghost use Rattle.cells.specs.Cells.{is_free_in};
ghost use Rattle.cells.specs.Parts.{AreParts, schema_in};
ghost use Rattle.region_states.specs.region_basis.BasisOf.{basis_of};
ghost use Rattle.case_laws.specs.region_cases.Cases.{by_settled, case_cell, case_of, case_row};
ghost use Rattle.regions.specs.Settled.{free, settle, settled_by};
ghost use Rattle.symbolic_rows.specs.settled_cells.Lent.{shown_possible};

use case_laws::{Case, CaseCell, CaseRow};
use cells::Parts;
use condition_logic::AtomOf;
use edm_types::EntityModel;
use emc_base::{ColId, Memory, Seq, TableId, Value};
use regions::{PatternRow, Region, Symbol};
use std::alloc::Global;
use symbolic_rows::{CanBe, copy_region, possible, region_pattern};

/// The cases of these regions, in their order. `Memory` comes where memory ran out.
pub fn cases_of(alloc: Global, parts: &Parts<'_>, regions: &[Region]) -> Result<Seq<Case>, Memory>
    requires { AreParts parts.now }
    ensures { IfOk result (λ cases. cases ≡ map (case_of (is_free_in parts.now.cells.now) (basis_of parts.now)) regions.now) }
{
    let mut cases = Seq::empty(alloc);
    for region in regions {
        cases.push(case_of(alloc, parts, region)?)?;
    }
    Ok(cases)
}

// The case of a region.
fn case_of(alloc: Global, parts: &Parts<'_>, region: &Region) -> Result<Case, Memory>
    requires { AreParts parts.now }
    ensures { IfOk result (λ made. made ≡ case_of (is_free_in parts.now.cells.now) (basis_of parts.now) region.now) }
{
    let pattern = region_pattern(alloc, parts, region)?;
    let rows = case_rows(
        alloc,
        parts,
        region.atoms.as_slice(),
        pattern.rows.as_slice(),
    )?;
    Ok(Case {
        region: copy_region(region)?,
        rows,
    })
}

// The rows of a region's case.
fn case_rows(
    alloc: Global,
    parts: &Parts<'_>,
    atoms: &[AtomOf],
    rows: &[PatternRow],
) -> Result<Seq<CaseRow>, Memory>
    ensures { IfOk result (λ made. made ≡ map (case_row (is_free_in parts.now.cells.now) parts.now.model.now atoms.now) rows.now) }
{
    let mut made = Seq::empty(alloc);
    for row in rows {
        made.push(case_row(alloc, parts, atoms, row)?)?;
    }
    Ok(made)
}

// A row of a region's case.
fn case_row(
    alloc: Global,
    parts: &Parts<'_>,
    atoms: &[AtomOf],
    row: &PatternRow,
) -> Result<CaseRow, Memory>
    ensures { IfOk result (λ made. made ≡ case_row (is_free_in parts.now.cells.now) parts.now.model.now atoms.now row.now) }
{
    let mut cells = Seq::empty(alloc);
    for (index, symbols) in row.cells.as_slice().iter().enumerate() {
        let col = ColId {
            index: index as u32,
        };
        cells.push(case_cell(alloc, parts, atoms, row.table, col, symbols.as_slice())?)?;
    }
    Ok(CaseRow {
        table: row.table,
        cells,
    })
}

// What a cell of a region's case holds.
fn case_cell(
    alloc: Global,
    parts: &Parts<'_>,
    atoms: &[AtomOf],
    table: TableId,
    col: ColId,
    symbols: &[Symbol],
) -> Result<CaseCell, Memory>
    ensures { IfOk result (λ cell. cell ≡ case_cell (is_free_in parts.now.cells.now) parts.now.model.now atoms.now table col symbols.now) }
{
    if parts.cells.is_free(table, col) {
        Ok(CaseCell::Free)
    } else {
        settled_cell(alloc, parts.model, atoms, symbols)
    }
}

// What a cell holds that isn't free.
fn settled_cell(
    alloc: Global,
    model: &EntityModel,
    atoms: &[AtomOf],
    symbols: &[Symbol],
) -> Result<CaseCell, Memory>
    ensures { IfOk result (λ cell. cell ≡ by_settled (settle model.now atoms.now symbols.now)) }
{
    match symbols.first() {
        Some(symbol) => symbol_cell(alloc, symbol, &possible(model, atoms, symbol)),
        None => Ok(CaseCell::Const(Value::Null)),
    }
}

// The same of the symbol by which it is settled.
fn symbol_cell(alloc: Global, symbol: &Symbol, can_be: &CanBe<'_>) -> Result<CaseCell, Memory>
    ensures { IfOk result (λ cell. cell ≡ by_settled (settled_by symbol.now (shown_possible can_be.now))) }
{
    match can_be {
        CanBe::Null => Ok(CaseCell::Const(Value::Null)),
        CanBe::One(value) => Ok(CaseCell::Const(value.copy(alloc)?)),
        CanBe::Several { .. } => Ok(shown_cell(symbol)),
    }
}

// The same where the symbol can be several values.
fn shown_cell(symbol: &Symbol) -> CaseCell
    ensures { (nullable : Bool) → result ≡ by_settled (free symbol.now nullable) }
{
    match symbol {
        Symbol::Prop(prop) => CaseCell::Prop(*prop),
        Symbol::End { assoc, prop, .. } => CaseCell::Partner {
            assoc: *assoc,
            prop: *prop,
        },
        Symbol::Null | Symbol::Const(_) => CaseCell::Const(Value::Null),
    }
}
