ghost use Rattle.std.specs.Prelude.{◌≡◌, IfOk};
ghost use Rattle.regions.specs.declared.pattern.Symbol.{Symbol};
ghost use Rattle.region_states.specs.region_basis.BasisOf.{basis_of};
ghost use Rattle.region_states.specs.declared.conflicts.conflict.Conflict.TheVariants as conflict;
ghost use Rattle.witness_state.specs.FirstConflict.{IsFirstConflict};
ghost use Rattle.witness_state.specs.Shown.{IsShownOf, shown_alone};

use crate::failure::Failure;
use crate::fragment_places::fragment_place;
use crate::link_failures::joined_failure;
use crate::places::cell_place;
use crate::region_values::{clash_entity, usual_entity};
use crate::small_links::{link_cell_place, link_keys_place};
use crate::small_regions::region_state;
use cells::Parts;
use emc_base::{ColId, Memory, Place, TableId, Txt};
use entity_state::EntityState;
use regions::{Focus, Symbol};
use round_trip::FailKind;
use std::alloc::Global;

/// The failure by a clash: the entity of the region by whose values the two symbols of the cell differ, or the link. `Memory` comes where memory ran out.
pub fn clash_failure(
    alloc: Global,
    parts: &Parts<'_>,
    focus: &Focus,
    table: TableId,
    col: ColId,
    one: &Symbol,
    two: &Symbol,
) -> Result<Failure, Memory>
    requires { IsFirstConflict parts.now (conflict.Clash focus.now table col one.now two.now) }
    ensures { IfOk result (IsShownOf (basis_of parts.now) (conflict.Clash focus.now table col one.now two.now)) }
{
    match focus {
        Focus::Entity(region) => {
            let entity = clash_entity(alloc, parts, region, one, two)?;
            let place = cell_place(alloc, parts, table, col, &entity)?;
            let state = region_state(alloc, parts, 0, region, entity)?;
            Ok(alone(FailKind::Clash, place, state))
        }
        Focus::Link(assoc) => {
            let place = link_cell_place(alloc, parts, *assoc, table, col)?;
            joined_failure(alloc, parts, FailKind::Clash, *assoc, place)
        }
    }
}

/// The failure by a null: the usual entity of the region, or the link. `Memory` comes where memory ran out.
pub fn null_failure(
    alloc: Global,
    parts: &Parts<'_>,
    focus: &Focus,
    table: TableId,
    col: ColId,
    one: &Symbol,
) -> Result<Failure, Memory>
    requires { IsFirstConflict parts.now (conflict.NullIn focus.now table col one.now) }
    ensures { IfOk result (IsShownOf (basis_of parts.now) (conflict.NullIn focus.now table col one.now)) }
{
    match focus {
        Focus::Entity(region) => {
            let entity = usual_entity(alloc, parts, region)?;
            let place = cell_place(alloc, parts, table, col, &entity)?;
            let state = region_state(alloc, parts, 0, region, entity)?;
            Ok(alone(FailKind::Null, place, state))
        }
        Focus::Link(assoc) => {
            let place = link_cell_place(alloc, parts, *assoc, table, col)?;
            joined_failure(alloc, parts, FailKind::Null, *assoc, place)
        }
    }
}

/// The failure by a disagreement with the fragment of this name: the usual entity of the region, or the link. `Memory` comes where memory ran out.
pub fn disagreement_failure(
    alloc: Global,
    parts: &Parts<'_>,
    focus: &Focus,
    name: &Txt,
) -> Result<Failure, Memory>
    requires { IsFirstConflict parts.now (conflict.Disagree focus.now name.now) }
    ensures { IfOk result (IsShownOf (basis_of parts.now) (conflict.Disagree focus.now name.now)) }
{
    match focus {
        Focus::Entity(region) => {
            let entity = usual_entity(alloc, parts, region)?;
            let place = fragment_place(alloc, parts, region, name, &entity)?;
            let state = region_state(alloc, parts, 0, region, entity)?;
            Ok(alone(FailKind::Disagrees, place, state))
        }
        Focus::Link(assoc) => {
            let declared = parts.model.assocs.at(assoc.index as usize);
            let place = link_keys_place(alloc, parts.model, name, declared)?;
            joined_failure(alloc, parts, FailKind::Disagrees, *assoc, place)
        }
    }
}

/// The failure of one state at a place.
pub fn alone(kind: FailKind, place: Place, state: EntityState) -> Failure
    ensures { result ≡ shown_alone kind place state }
{
    Failure {
        kind,
        place,
        state,
        other: None,
    }
}
