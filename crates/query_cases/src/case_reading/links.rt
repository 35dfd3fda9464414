ghost use Rattle.std.specs.Prelude.{◌≡◌, All, IfOk, position};
ghost use Rattle.std.specs.List.{AllZip};
ghost use Rattle.case_laws.specs.candidates.Rows.{shown_rows};
ghost use Rattle.cells.specs.Parts.{AreParts};
ghost use Rattle.query_cases.specs.case_reading.Links.{HasPlace, IsHosted, IsLinkReading, IsPartPlace, IsPartnerKey, shows_part};
ghost use Rattle.query_cases.specs.case_reading.Sources.{cell_at};
ghost use Rattle.region_states.specs.region_basis.BasisOf.{basis_of};
ghost use Rattle.round_trip.specs.Words.{key_props};

use crate::case_reading::meeting::cell_at;
use crate::case_reading::reading::{CellPlace, LinkReading};
use case_laws::{Case, CaseCell, PlacedRow};
use cells::{LinkPlace, Parts};
use edm_types::EntityModel;
use emc_base::{AssocId, Memory, PropId, Seq, SetId, TypeId, Value};
use region_states::{partner_end, parts_are_a_basis};
use std::alloc::Global;

/// How the links of a case's region are read. `Memory` comes where memory ran out.
pub(super) fn links_of(
    alloc: Global,
    parts: &Parts<'_>,
    case: &Case,
) -> Result<Seq<LinkReading>, Memory>
    requires parts { AreParts parts.now }
    requires hosted { All (IsHosted (basis_of parts.now) case.now.region.set) case.now.region.linked }
    ensures { IfOk result (AllZip (IsLinkReading (basis_of parts.now) case.now) case.now.region.linked) }
{
    let mut links = Seq::empty(alloc);
    for assoc in case.region.linked.as_slice() {
        links.push(link_of(alloc, parts, case, *assoc)?)?;
    }
    Ok(links)
}

// How the link of an association is read.
fn link_of(
    alloc: Global,
    parts: &Parts<'_>,
    case: &Case,
    assoc: AssocId,
) -> Result<LinkReading, Memory>
    requires parts { AreParts parts.now }
    requires hosted { IsHosted (basis_of parts.now) case.now.region.set assoc }
    ensures { IfOk result (IsLinkReading (basis_of parts.now) case.now assoc) }
{
    let key = partner_key(parts, case.region.set, assoc);
    let parts = part_places(alloc, case, assoc, key)?;
    Ok(LinkReading { assoc, parts })
}

// The key of the partners to which the links of an association lead.
fn partner_key<'m>(parts: &Parts<'m>, set: SetId, assoc: AssocId) -> &'m [PropId]
    requires parts { AreParts parts.now }
    requires hosted { IsHosted (basis_of parts.now) set assoc }
    ensures { IsPartnerKey (basis_of parts.now) set assoc result.now }
{
    parts_are_a_basis();
    let LinkPlace::Hosted { first_hosts, .. } = parts.cells.link_place(assoc) else {
        unreachable!()
    };
    let declared = parts.model.assocs.at(assoc.index as usize);
    key_props(parts.model, partner_end(first_hosts, declared).ty)
}

// The key of a type.
fn key_props(model: &EntityModel, ty: TypeId) -> &[PropId]
    ensures { result.now ≡ key_props model.now ty }
{
    match model.types.get(ty.index as usize) {
        Some(declared) => declared.key.as_slice(),
        None => &[],
    }
}

// The places of the parts of a partner's key.
fn part_places(
    alloc: Global,
    case: &Case,
    assoc: AssocId,
    key: &[PropId],
) -> Result<Seq<CellPlace>, Memory>
    ensures { IfOk result (AllZip (IsPartPlace case.now assoc) key.now) }
{
    let mut places = Seq::empty(alloc);
    for property in key {
        places.push(part_place(case, assoc, *property))?;
    }
    Ok(places)
}

// The place of the first cell that shows a part of a partner's key, and that of the very first cell where none does.
fn part_place(case: &Case, assoc: AssocId, property: PropId) -> CellPlace
    ensures { IsPartPlace case.now assoc property result }
{
    let rows = case.rows.as_slice();
    for row in 0..rows.len() {
        if let Some(col) = part_column(rows[row].cells.as_slice(), assoc, property) {
            return CellPlace { row, col };
        }
    }
    CellPlace { row: 0, col: 0 }
}

// Where it stands in a row.
fn part_column(cells: &[CaseCell], assoc: AssocId, property: PropId) -> Option<usize>
    ensures { result ≡ position (shows_part assoc property) cells.now }
{
    cells
        .iter()
        .position(|cell| shows_part(cell, assoc, property))
}

// Whether a cell shows it.
fn shows_part(cell: &CaseCell, assoc: AssocId, property: PropId) -> bool
    ensures { result ≡ shows_part assoc property cell.now }
{
    match cell {
        CaseCell::Partner { assoc: other, prop } => {
            other.index == assoc.index && prop.index == property.index
        }
        CaseCell::Const(_) | CaseCell::Prop(_) | CaseCell::Free => false,
    }
}

/// A copy of the value of the cell at a place; null where there is none. `Memory` comes where memory ran out.
pub(super) fn copied_at(
    alloc: Global,
    rows: &[PlacedRow<'_>],
    place: CellPlace,
) -> Result<Value, Memory>
    ensures { IfOk result (λ value. value ≡ cell_at (shown_rows rows.now) place) }
{
    match cell_at(rows, place) {
        Some(value) => value.copy(alloc),
        None => Ok(Value::Null),
    }
}

/// Lends the value of the cell at a place.
pub(super) fn value_at<'t>(rows: &[PlacedRow<'t>], place: CellPlace) -> &'t Value
    requires { HasPlace (shown_rows rows.now) place }
    ensures { result.now ≡ cell_at (shown_rows rows.now) place }
{
    let held = rows[place.row].row;
    held.cells.at(place.col)
}
