ghost use Rattle.std.specs.Prelude.{◌≡◌, map, IfOk};
ghost use Rattle.round_trip.specs.soundness.mappings.Mappings.{IsSoundSchema};
ghost use Rattle.round_trip.specs.Between.{schema_of};
ghost use Rattle.table_owners.specs.Places.{TellPlaces, place_by, place_without};

use crate::putting::put;
use crate::sources::{Standing, standing_of};
use edm_types::{Assoc, EntityModel, Mapping, StoreModel};
use emc_base::{LinkFragId, Memory, Seq};
use std::alloc::Global;

/// Where the links of an association set stand.
#[derive(Clone, Copy, Debug, PartialEq, Eq)]
pub enum LinkPlace {
    /// With the entities at one end.
    Hosted {
        /// Whether this is the first end.
        first_hosts: bool,
        /// The fragment that writes the links.
        fragment: LinkFragId,
    },
    /// In rows of their own, which this fragment writes.
    Joined(LinkFragId),
    /// Nowhere: no fragment writes them.
    Unmapped,
    /// In the properties of a constraint.
    Constraint,
}

/// Where the links of each association set stand, if the schema is sound. `Memory` comes where memory ran out.
pub fn places_of(
    alloc: Global,
    model: &EntityModel,
    store: &StoreModel,
    mapping: &Mapping,
) -> Result<Seq<LinkPlace>, Memory>
    ensures { IsSoundSchema (schema_of model.now store.now mapping.now) → IfOk result (TellPlaces (schema_of model.now store.now mapping.now)) }
{
    let mut places = places_without(alloc, model)?;
    for (number, fragment) in mapping.links.as_slice().iter().enumerate() {
        let id = LinkFragId {
            index: number as u32,
        };
        let place = place_by(id, standing_of(store, fragment));
        put(&mut places, fragment.assoc.index, place);
    }
    Seq::from_vec(places)
}

// Where they stand as long as no fragment writes any.
fn places_without(alloc: Global, model: &EntityModel) -> Result<Vec<LinkPlace>, Memory>
    ensures { IfOk result (λ places. places.items ≡ map place_without model.now.assocs) }
{
    let mut places = Vec::new(alloc);
    for assoc in model.assocs.as_slice() {
        places.push(place_without(assoc))?;
    }
    Ok(places)
}

// Where the links of an association set stand that no fragment writes.
fn place_without(assoc: &Assoc) -> LinkPlace
    ensures { result ≡ place_without assoc.now }
{
    match assoc.constraint {
        Some(_) => LinkPlace::Constraint,
        None => LinkPlace::Unmapped,
    }
}

// Where the links stand that a fragment writes.
fn place_by(fragment: LinkFragId, standing: Standing) -> LinkPlace
    ensures { result ≡ place_by fragment standing }
{
    match standing {
        Standing::AtFirst => LinkPlace::Hosted {
            first_hosts: true,
            fragment,
        },
        Standing::AtSecond => LinkPlace::Hosted {
            first_hosts: false,
            fragment,
        },
        Standing::Apart => LinkPlace::Joined(fragment),
    }
}
