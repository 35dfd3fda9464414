ghost use Rattle.std.specs.Prelude.{◌≡◌, IfOk, map};
ghost use Rattle.groupings.specs.name_places.PlacesIn.{place_in};
ghost use Rattle.csdl_names.specs.PropPlaces.{place_of_prop};

use crate::csdl_lists::RawType;
use emc_base::{Memory, Seq};
use groupings::{Places, places_of};
use std::alloc::Global;

/// The places of the properties of each type.
pub fn props_of(alloc: Global, types: &Seq<RawType>) -> Result<Seq<Places>, Memory>
    ensures { IfOk result (λ props. map place_in props ≡ map place_of_prop types.now) }
{
    let mut props = Seq::empty(alloc);
    for ty in types.as_slice() {
        props.push(places_of(alloc, &ty.props)?)?;
    }
    Ok(props)
}
