ghost use Rattle.std.specs.Prelude.{◌≡◌, IfOk};
ghost use Rattle.round_trip.specs.soundness.mappings.Mappings.{IsSoundSchema};
ghost use Rattle.round_trip.specs.Between.{schema_of};
ghost use Rattle.table_owners.specs.Owners.{TellOwners};
ghost use Rattle.table_owners.specs.Sources.{owner_by, owner_of_links};

use crate::sources::{Source, Standing, sources_of};
use crate::table_writers::Owner;
use edm_types::{Assoc, EntityModel, LinkFragment, Mapping, StoreModel};
use emc_base::{Memory, Seq};
use std::alloc::Global;

/// Whom each table belongs to, if the schema is sound: `None` where nothing writes it. `Memory` comes where memory ran out.
pub fn owners_of(
    alloc: Global,
    model: &EntityModel,
    store: &StoreModel,
    mapping: &Mapping,
) -> Result<Seq<Option<Owner>>, Memory>
    ensures { IsSoundSchema (schema_of model.now store.now mapping.now) → IfOk result (TellOwners (schema_of model.now store.now mapping.now)) }
{
    let sources = sources_of(alloc, store, mapping)?;
    let mut owners = Seq::empty(alloc);
    for source in sources.as_slice() {
        owners.push(owner_by(model, mapping, *source))?;
    }
    Ok(owners)
}

// Whose rows are written so.
fn owner_by(model: &EntityModel, mapping: &Mapping, source: Option<Source>) -> Option<Owner>
    ensures { result ≡ owner_by model.now mapping.now source }
{
    match source? {
        Source::Entities(number) => {
            let fragment = mapping.fragments.get(number.index as usize)?;
            Some(Owner::Set(fragment.set))
        }
        Source::Links(number, standing) => {
            let fragment = mapping.links.get(number.index as usize)?;
            let assoc = model.assocs.get(fragment.assoc.index as usize)?;
            Some(owner_of_links(fragment, assoc, standing))
        }
    }
}

// In whose rows the links of a fragment stand.
fn owner_of_links(fragment: &LinkFragment, assoc: &Assoc, standing: Standing) -> Owner
    ensures { result ≡ owner_of_links fragment.now assoc.now standing }
{
    match standing {
        Standing::AtFirst => Owner::Set(assoc.first.set),
        Standing::AtSecond => Owner::Set(assoc.second.set),
        Standing::Apart => Owner::Assoc(fragment.assoc),
    }
}
