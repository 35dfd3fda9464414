ghost use Rattle.std.specs.Prelude.{◌≡◌, ◌↔◌, ◌<◌, All, IsTrue, length, unwrap_or};
ghost use Rattle.std.specs.Option.{option_copied};
ghost use Rattle.case_laws.specs.candidates.Rows.{shown_row, shown_rows};
ghost use Rattle.query_cases.specs.case_cells.Holding.{MayHold, MayHoldCells, MayMeet};
ghost use Rattle.query_cases.specs.case_reading.Sources.{cell_at};
ghost use Rattle.cells.specs.Parts.{AreParts};
ghost use Rattle.region_states.specs.region_basis.BasisOf.{basis_of};
ghost use Rattle.round_trip.specs.Words.{Null, cell_of};

use crate::case_cells::may_hold;
use crate::case_reading::reading::{CellPlace, Twins};
use case_laws::{Case, CaseCell, CaseRow, PlacedRow};
use cells::Parts;
use edm_types::Row;
use emc_base::Value;
use regions::Region;

/// Whether the rows are of the case's tables, and each cell may hold its value by itself.
pub(super) fn may_meet(parts: &Parts<'_>, case: &Case, rows: &[PlacedRow<'_>]) -> bool
    requires { AreParts parts.now }
    ensures { IsTrue result ↔ MayMeet (basis_of parts.now) case.now (shown_rows rows.now) }
{
    let told = case.rows.as_slice();
    if told.len() != rows.len() {
        return false;
    }
    for i in 0..told.len() {
        if !may_meet_row(parts, &case.region, &told[i], &rows[i]) {
            return false;
        }
    }
    true
}

// Whether a row is of the table of the case's row, and each of its cells may hold its value.
fn may_meet_row(parts: &Parts<'_>, region: &Region, told: &CaseRow, placed: &PlacedRow<'_>) -> bool
    requires { AreParts parts.now }
    ensures { IsTrue result ↔ ((told.now.table ≡ placed.now.table) × MayHoldCells (basis_of parts.now) region.now told.now.cells placed.now.row.now) }
{
    told.table == placed.table && may_hold_cells(parts, region, told.cells.as_slice(), placed.row)
}

// Whether each cell of a row may hold its value.
fn may_hold_cells(parts: &Parts<'_>, region: &Region, cells: &[CaseCell], held: &Row) -> bool
    requires { AreParts parts.now }
    ensures { IsTrue result ↔ MayHoldCells (basis_of parts.now) region.now cells.now held.now }
{
    for i in 0..cells.len() {
        if !may_hold_cell(parts, region, &cells[i], held, i) {
            return false;
        }
    }
    true
}

// Whether the cell of a row at this column may hold its value.
fn may_hold_cell(
    parts: &Parts<'_>,
    region: &Region,
    told: &CaseCell,
    held: &Row,
    col: usize,
) -> bool
    requires { AreParts parts.now }
    ensures { IsTrue result ↔ MayHold (basis_of parts.now) region.now told.now (cell_of held.now (record { index = col })) }
{
    match held.cells.get(col) {
        Some(value) => may_hold(parts, region, told, value),
        None => may_hold(parts, region, told, &Value::Null),
    }
}

/// Whether each later cell holds what the first of its property does.
pub(super) fn agree(twins: &[Twins], rows: &[PlacedRow<'_>]) -> bool
    ensures { IsTrue result ↔ All (λ two. cell_at (shown_rows rows.now) two.first ≡ cell_at (shown_rows rows.now) two.later) twins.now }
{
    twins.iter().all(|two| are_one(*two, rows))
}

// Whether two cells hold one value.
fn are_one(two: Twins, rows: &[PlacedRow<'_>]) -> bool
    ensures { IsTrue result ↔ (cell_at (shown_rows rows.now) two.first ≡ cell_at (shown_rows rows.now) two.later) }
{
    match cell_at(rows, two.first) {
        Some(value) => holds(rows, two.later, value),
        None => holds(rows, two.later, &Value::Null),
    }
}

// Whether the cell at a place holds the value.
fn holds(rows: &[PlacedRow<'_>], place: CellPlace, value: &Value) -> bool
    ensures { IsTrue result ↔ (value.now ≡ cell_at (shown_rows rows.now) place) }
{
    match cell_at(rows, place) {
        Some(held) => is_same(value, held),
        None => *value == Value::Null,
    }
}

// Whether two values are one.
fn is_same(one: &Value, other: &Value) -> bool
    ensures { IsTrue result ↔ (one.now ≡ other.now) }
{
    one == other
}

/// Lends the cell at a place; `None` where there is none.
pub(super) fn cell_at<'t>(rows: &[PlacedRow<'t>], place: CellPlace) -> Option<&'t Value>
    ensures { unwrap_or (option_copied result) Null ≡ cell_at (shown_rows rows.now) place }
{
    match rows.get(place.row) {
        Some(placed) => placed.row.cells.get(place.col),
        None => None,
    }
}
