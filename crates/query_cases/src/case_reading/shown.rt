ghost use Rattle.std.specs.Prelude.{◌≡◌, ◌++◌, OnOk};
ghost use Rattle.query_cases.specs.case_reading.Shown.{shown_cell, shown_props, shown_row};
ghost use Rattle.std.specs.Prelude.{IfOk};

use crate::case_reading::reading::CellPlace;
use case_laws::{CaseCell, CaseRow};
use emc_base::{Memory, PropId, Seq};
use std::alloc::Global;

/// The cells of these rows that show a property, each with the property, in their order. `Memory` comes where memory ran out.
pub(super) fn shown_props(
    alloc: Global,
    rows: &[CaseRow],
) -> Result<Seq<(PropId, CellPlace)>, Memory>
    ensures { IfOk result (λ shown. shown ≡ shown_props rows.now) }
{
    let mut shown = Seq::empty(alloc);
    for (row, told) in rows.iter().enumerate() {
        add_row(&mut shown, row, told)?;
    }
    Ok(shown)
}

// Adds those of a row.
fn add_row(shown: &mut Seq<(PropId, CellPlace)>, row: usize, told: &CaseRow) -> Result<(), Memory>
    ensures { OnOk result (shown.new ≡ shown.old ++ shown_row (row, told.now)) }
{
    for (col, cell) in told.cells.as_slice().iter().enumerate() {
        add_cell(shown, CellPlace { row, col }, cell)?;
    }
    Ok(())
}

// Adds a cell, if it shows a property.
fn add_cell(
    shown: &mut Seq<(PropId, CellPlace)>,
    place: CellPlace,
    cell: &CaseCell,
) -> Result<(), Memory>
    ensures { OnOk result (shown.new ≡ shown.old ++ shown_cell place.row (place.col, cell.now)) }
{
    match cell {
        CaseCell::Prop(property) => shown.push((*property, place)),
        CaseCell::Const(_) | CaseCell::Partner { .. } | CaseCell::Free => Ok(()),
    }
}
