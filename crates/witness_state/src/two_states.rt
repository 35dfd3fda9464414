ghost use Rattle.std.specs.Prelude.{◌≡◌, IfOk};
ghost use Rattle.cells.specs.Parts.{AreParts};
ghost use Rattle.region_states.specs.region_basis.BasisOf.{basis_of};
ghost use Rattle.round_trip.specs.Words.{At, EntitySet, key_of, place_at};
ghost use Rattle.std.specs.Prelude.{◌<◌, [], length};
ghost use Rattle.region_states.specs.declared.conflicts.conflict.Conflict.TheVariants as conflict;
ghost use Rattle.witness_state.specs.FirstConflict.{IsFirstConflict};
ghost use Rattle.witness_state.specs.Shown.{IsShownOf, shown_beside};

use crate::differing::first_several;
use crate::failure::Failure;
use crate::places::key_place;
use crate::region_values::{lost_entities, rival_entities, usual_entity};
use crate::small_regions::{leaving_states, pair_of_states};
use cells::Parts;
use edm_types::{Entity, EntityModel};
use emc_base::{Memory, Place, PropId};
use entity_state::EntityState;
use regions::Region;
use round_trip::FailKind;
use std::alloc::Global;

/// The failure by two rivals: an entity of each with the same rows. `Memory` comes where memory ran out.
pub fn rival_failure(
    alloc: Global,
    parts: &Parts<'_>,
    one: &Region,
    two: &Region,
) -> Result<Failure, Memory>
    requires { IsFirstConflict parts.now (conflict.Rival one.now two.now) }
    ensures { IfOk result (IsShownOf (basis_of parts.now) (conflict.Rival one.now two.now)) }
{
    let (first, second) = rival_entities(alloc, parts, one, two)?;
    let place = set_place(alloc, parts.model, one, &first)?;
    let states = pair_of_states(alloc, parts, one, first, two, second)?;
    Ok(beside(place, states))
}

/// The failure by a lost property: two entities of the region that differ in it alone. `Memory` comes where memory ran out.
pub fn lost_failure(
    alloc: Global,
    parts: &Parts<'_>,
    region: &Region,
    property: PropId,
) -> Result<Failure, Memory>
    requires { IsFirstConflict parts.now (conflict.Lost region.now property) }
    ensures { IfOk result (IsShownOf (basis_of parts.now) (conflict.Lost region.now property)) }
{
    let (one, two) = lost_entities(alloc, parts, region, property)?;
    let place = set_place(alloc, parts.model, region, &one)?;
    let states = pair_of_states(alloc, parts, region, one, region, two)?;
    Ok(beside(place, states))
}

/// The failure by a region without rows: two of its entities that differ in a property alone, where one may have several values, and else the usual entity
/// and none. `Memory` comes where memory ran out.
pub fn absence_failure(alloc: Global, parts: &Parts<'_>, region: &Region) -> Result<Failure, Memory>
    requires { IsFirstConflict parts.now (conflict.Absent region.now) }
    ensures { IfOk result (IsShownOf (basis_of parts.now) (conflict.Absent region.now)) }
{
    if let Some(property) = first_several(parts, region) {
        return lost_failure(alloc, parts, region, property);
    }
    let entity = usual_entity(alloc, parts, region)?;
    let place = set_place(alloc, parts.model, region, &entity)?;
    let states = leaving_states(alloc, parts, region, entity)?;
    Ok(beside(place, states))
}

/// The failure of two states with the same tables, at a place at which they differ.
pub fn beside(place: Place, states: (EntityState, EntityState)) -> Failure
    ensures { result ≡ shown_beside place states.0 states.1 }
{
    Failure {
        kind: FailKind::Same,
        place,
        state: states.0,
        other: Some(states.1),
    }
}

// The place of an entity in the set of its region.
fn set_place(
    alloc: Global,
    model: &EntityModel,
    region: &Region,
    entity: &Entity,
) -> Result<Place, Memory>
    requires { region.now.set.index < length model.now.sets }
    ensures { (set : EntitySet) → At model.now.sets region.now.set.index set
        → IfOk result (λ place. place ≡ place_at set.name (key_of model.now entity.now) []) }
{
    let declared = model.sets.at(region.set.index as usize);
    key_place(alloc, model, &declared.name, entity)
}
