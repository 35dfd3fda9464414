ghost use Rattle.std.specs.Prelude.{IfOk};
ghost use Rattle.schema_names.specs.LentNames.{ArePlacesBy};

use emc_base::{Memory, Txt};
use groupings::{Places, first_places};
use std::alloc::Global;

/// Where the name of each item is given first.
pub fn places_by<'a, T, F: Fn(&'a T) -> &'a Txt>(
    alloc: Global,
    items: &'a [T],
    name_of: F,
) -> Result<Places, Memory>
    requires { F.IsAlwaysCallable name_of }
    ensures { IfOk result (ArePlacesBy (F.post name_of) items.now) }
{
    let mut names = Vec::new(alloc);
    for item in items {
        names.push(name_of(item))?;
    }
    first_places(alloc, names.as_slice())
}
