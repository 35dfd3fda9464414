ghost use Rattle.std.specs.Prelude.{◌≡◌, ◌↔◌, IsTrue};
ghost use Rattle.edm_types.specs.Forest.{type_numbered};
ghost use Rattle.edm_types.specs.IsA.{IsA};
ghost use Rattle.schema_names.specs.Inherited.{base_place};

use edm_types::EntityModel;
use emc_base::TypeId;
use schema_names::SchemaNames;

/// Whether the type at a place is another or derived from it. The time is linear in the number of types above it.
pub fn is_derived(names: &SchemaNames<'_>, ty: usize, other: TypeId) -> bool
    ensures { IsTrue result ↔ IsA names.now.model.now (type_numbered ty) other }
{
    let mut next = Some(ty);
    while let Some(place) = next {
        if place == other.index as usize {
            return true;
        }
        next = base_of(names.model, place);
    }
    false
}

/// How many types stand at a place and above it.
pub fn height(names: &SchemaNames<'_>, ty: usize) -> usize {
    let mut count: usize = 0;
    let mut next = Some(ty);
    while let Some(place) = next {
        count = count.saturating_add(1);
        next = base_of(names.model, place);
    }
    count
}

// The base type of the type at a place.
fn base_of(model: &EntityModel, ty: usize) -> Option<usize>
    ensures { result ≡ base_place model.now ty }
{
    let base = model.types.get(ty)?.base?;
    Some(base.index as usize)
}
