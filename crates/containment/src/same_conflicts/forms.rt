ghost use Rattle.std.specs.Prelude.{◌≡◌, ◌<◌, Contains, IfOk, length, map};
ghost use Rattle.std.specs.List.{enumerate_from};
ghost use Rattle.cells.specs.Parts.{AreParts};
ghost use Rattle.regions.specs.Settled.{settle};
ghost use Rattle.round_trip.specs.soundness.mappings.Joined.{col};
ghost use Rattle.round_trip.specs.soundness.Stores.{IsColId};
ghost use Rattle.region_states.specs.region_basis.BasisOf.{basis_of};
ghost use Rattle.containment.specs.same_conflicts.Forms.{HasColumns, form_of, held, held_at, row_form, shown_form, shown_row};
ghost use Rattle.containment.specs.same_conflicts.Written.{IsWritten};

use crate::same_conflicts::written::Written;
use cells::Parts;
use condition_logic::AtomOf;
use edm_types::EntityModel;
use emc_base::{AssocId, ColId, Memory, Seq, TableId, Value};
use regions::{PatternRow, Symbol};
use std::alloc::Global;
use symbolic_rows::{CanBe, possible};

/// What the entities of a region have for certain: of which associations links are there, and what their rows hold. Entities of two regions
/// with different forms never write the same rows with the same links.
#[derive(PartialEq, Eq, PartialOrd, Ord, Drop)]
pub struct Form {
    linked: Vec<u32>,
    rows: Vec<RowForm>,
}

/// What is certain of a row: its table, and what its cells hold.
#[derive(PartialEq, Eq, PartialOrd, Ord, Drop)]
pub struct RowForm {
    table: u32,
    cells: Vec<Held>,
}

/// What is certain of a cell.
#[derive(PartialEq, Eq, PartialOrd, Ord, Drop)]
pub enum Held {
    /// Nothing: its column isn't tested.
    Unsure,
    /// It holds this value.
    Known(Value),
    /// It holds one of several values, and not null.
    Several,
}

/// The form of a region. `Memory` comes where memory ran out.
pub fn form_of(alloc: Global, parts: &Parts<'_>, one: &Written<'_>) -> Result<Form, Memory>
    requires parts { AreParts parts.now }
    requires written { IsWritten (basis_of parts.now) one.now }
    ensures { IfOk result (λ form. shown_form form ≡ form_of (basis_of parts.now) one.now.region.now) }
{
    let atoms = one.region.atoms.as_slice();
    let mut rows = Vec::new(alloc);
    for row in one.pattern.rows.as_slice() {
        rows.push(row_form(alloc, parts, atoms, row)?)?;
    }
    Ok(Form {
        linked: numbers(alloc, one.region.linked.as_slice())?,
        rows,
    })
}

// The numbers of associations.
fn numbers(alloc: Global, linked: &[AssocId]) -> Result<Vec<u32>, Memory>
    ensures { IfOk result (λ found. found.items ≡ map (λ assoc. assoc.index) linked.now) }
{
    let numbers = linked.iter().map(|assoc| assoc.index).collect(alloc)?;
    Ok(numbers)
}

// What is certain of a row.
fn row_form(
    alloc: Global,
    parts: &Parts<'_>,
    atoms: &[AtomOf],
    row: &PatternRow,
) -> Result<RowForm, Memory>
    requires parts { AreParts parts.now }
    requires columns { HasColumns parts.now.store.now row.now }
    ensures { IfOk result (λ form. shown_row form ≡ row_form (basis_of parts.now) atoms.now row.now) }
{
    let mut cells = Vec::new(alloc);
    for (index, cell) in row.cells.as_slice().iter().enumerate() {
        let column = ColId {
            index: index as u32,
        };
        cells.push(held_at(alloc, parts, atoms, row.table, column, cell.as_slice())?)?;
    }
    Ok(RowForm {
        table: row.table.index,
        cells,
    })
}

// What is certain of a cell of a column.
fn held_at(
    alloc: Global,
    parts: &Parts<'_>,
    atoms: &[AtomOf],
    table: TableId,
    column: ColId,
    cell: &[Symbol],
) -> Result<Held, Memory>
    requires parts { AreParts parts.now }
    requires there { IsColId parts.now.store.now table column }
    ensures { IfOk result (λ found. found ≡ held_at (basis_of parts.now) table atoms.now (column.index, cell.now)) }
{
    if is_tested(parts, table, column) {
        held_in(alloc, parts.model, atoms, cell)
    } else {
        Ok(Held::Unsure)
    }
}

// Whether a column is tested.
fn is_tested(parts: &Parts<'_>, table: TableId, column: ColId) -> bool
    requires parts { AreParts parts.now }
    requires there { IsColId parts.now.store.now table column }
    ensures { result ≡ (basis_of parts.now).tested (col table column) }
{
    parts.cells.tested(parts.cells.group_of_col(table, column))
}

// What a cell of a tested column holds: null where nothing is listed, else what its first symbol can be.
fn held_in(
    alloc: Global,
    model: &EntityModel,
    atoms: &[AtomOf],
    cell: &[Symbol],
) -> Result<Held, Memory>
    ensures { IfOk result (λ found. found ≡ held (settle model.now atoms.now cell.now)) }
{
    let Some(symbol) = cell.first() else {
        return Ok(Held::Known(Value::Null));
    };
    Ok(match possible(model, atoms, symbol) {
        CanBe::Null => Held::Known(Value::Null),
        CanBe::One(value) => Held::Known(value.copy(alloc)?),
        CanBe::Several { .. } => Held::Several,
    })
}
