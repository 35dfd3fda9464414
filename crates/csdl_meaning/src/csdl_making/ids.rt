ghost use Rattle.std.specs.Prelude.{◌≡◌, ◌+◌, ◌<◌, length, IfOk, IfSome, option_map};
ghost use Rattle.edm_types.specs.Forest.{type_numbered};
ghost use Rattle.csdl_meaning.specs.Meaning.{declared_before};
ghost use Rattle.csdl_meaning.specs.ModelMeaning.{set_numbered};
ghost use Rattle.csdl_meaning.specs.csdl_making.Making.{AreStarts, id_of_place};

use csdl_names::{Lookups, PropPlace, RawModel};
use emc_base::{Memory, PropId, Seq, SetId, TypeId, narrow};
use std::alloc::Global;

/// The id of the type at a place. A place past the ids counts as want of memory.
pub(super) fn type_id(place: usize) -> Result<TypeId, Memory>
    ensures { IfOk result (λ id. id ≡ type_numbered place) }
{
    let index = narrow(place)?;
    Ok(TypeId { index })
}

/// The id of the type at a place, where there is one.
pub(super) fn base_id(place: Option<usize>) -> Result<Option<TypeId>, Memory>
    ensures { IfOk result (λ id. id ≡ option_map type_numbered place) }
{
    match place {
        None => Ok(None),
        Some(place) => Ok(Some(type_id(place)?)),
    }
}

/// The id of the entity set at a place.
pub(super) fn set_id(place: usize) -> Result<SetId, Memory>
    ensures { IfOk result (λ id. id ≡ set_numbered place) }
{
    let index = narrow(place)?;
    Ok(SetId { index })
}

/// The id of the property at a place.
pub(super) fn prop_id(
    lookups: &Lookups<'_>,
    starts: &Seq<usize>,
    found: PropPlace,
) -> Result<PropId, Memory>
    requires starts { AreStarts lookups.now.model.now starts.now }
    requires inside { found.owner < length lookups.now.model.now.types }
    ensures { IfOk result (λ id. id ≡ id_of_place lookups.now.model.now found) }
{
    let _model = lookups.model;
    let start = starts.as_slice()[found.owner];
    let index = narrow(sum_of(start, found.place)?)?;
    Ok(PropId { index })
}

/// The id of the property at a place, where there is one.
pub(super) fn found_id(
    lookups: &Lookups<'_>,
    starts: &Seq<usize>,
    found: Option<PropPlace>,
) -> Result<Option<PropId>, Memory>
    requires starts { AreStarts lookups.now.model.now starts.now }
    requires inside { IfSome found (λ place. place.owner < length lookups.now.model.now.types) }
    ensures { IfOk result (λ id. id ≡ option_map (id_of_place lookups.now.model.now) found) }
{
    match found {
        None => Ok(None),
        Some(found) => Ok(Some(prop_id(lookups, starts, found)?)),
    }
}

/// For each type, how many properties the types before it declare.
pub(super) fn starts_of(alloc: Global, model: &RawModel) -> Result<Seq<usize>, Memory>
    ensures { IfOk result (λ starts. AreStarts model.now starts) }
{
    let mut starts = Seq::empty(alloc);
    let mut before: usize = 0;
    for ty in model.types.as_slice() {
        starts.push(before)?;
        before = sum_of(before, ty.props.len())?;
    }
    Ok(starts)
}

fn sum_of(one: usize, other: usize) -> Result<usize, Memory>
    ensures { IfOk result (λ sum. sum ≡ one + other) }
{
    match one.checked_add(other) {
        None => Err(Memory),
        Some(sum) => Ok(sum),
    }
}
