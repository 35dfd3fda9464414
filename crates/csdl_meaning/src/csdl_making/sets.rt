ghost use Rattle.std.specs.Prelude.{◌≡◌, map, IfOk};
ghost use Rattle.csdl_meaning.specs.ModelMeaning.{set_of};

use crate::csdl_making::ids::type_id;
use csdl_names::{Lookups, RawSet};
use edm_types::EntitySet;
use emc_base::{Memory, Seq};
use std::alloc::Global;

/// The entity sets.
pub(super) fn sets_in(alloc: Global, lookups: &Lookups<'_>) -> Result<Seq<EntitySet>, Memory>
    ensures { IfOk result (λ sets. sets ≡ map (set_of lookups.now.model.now) lookups.now.model.now.container.sets) }
{
    let mut sets = Seq::empty(alloc);
    for set in lookups.model.container.sets.as_slice() {
        sets.push(make_set(alloc, lookups, set)?)?;
    }
    Ok(sets)
}

fn make_set(alloc: Global, lookups: &Lookups<'_>, set: &RawSet) -> Result<EntitySet, Memory>
    ensures { IfOk result (λ made. made ≡ set_of lookups.now.model.now set.now) }
{
    let place = lookups.type_named(&set.element).unwrap_or(0);
    Ok(EntitySet {
        name: set.name.copy(alloc)?,
        element: type_id(place)?,
    })
}
