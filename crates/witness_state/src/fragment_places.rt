ghost use Rattle.std.specs.Prelude.{◌≡◌, IfOk, find};
ghost use Rattle.std.specs.List.{list_any};
ghost use Rattle.std.specs.Option.{option_copied};
ghost use Rattle.std.specs.Str.{bytes_eq};
ghost use Rattle.regions.specs.declared.pattern.Focus.TheVariants as focus;
ghost use Rattle.region_states.specs.defaults.Defaults.{default_valuation};
ghost use Rattle.region_states.specs.Entities.{focus_entity};
ghost use Rattle.region_states.specs.region_basis.BasisOf.{basis_of};
ghost use Rattle.region_states.specs.declared.conflicts.conflict.Conflict.TheVariants as conflict;
ghost use Rattle.failure_laws.specs.Places.{IsFragment};
ghost use Rattle.witness_state.specs.FirstConflict.{IsFirstConflict};

use crate::places::key_place;
use crate::small_links::host_row_place;
use cells::Parts;
use edm_types::{Entity, LinkFragment, Mapping};
use emc_base::{Memory, Place, Txt};
use regions::Region;
use std::alloc::Global;
use symbolic_rows::region_pattern;

/// The place of the fragment of this name: with the key of the usual entity of a region, where entities are written by it, else with the keys of both ends as
/// the entity's row holds them. `Memory` comes where memory ran out.
pub fn fragment_place(
    alloc: Global,
    parts: &Parts<'_>,
    region: &Region,
    name: &Txt,
    entity: &Entity,
) -> Result<Place, Memory>
    requires first { IsFirstConflict parts.now (conflict.Disagree (focus.Entity region.now) name.now) }
    requires usual { entity.now ≡ focus_entity (basis_of parts.now) region.now (default_valuation (basis_of parts.now) 0 region.now) }
    ensures { IfOk result (IsFragment (basis_of parts.now) (focus.Entity region.now) name.now) }
{
    if has_named(parts.mapping, name) {
        return key_place(alloc, parts.model, name, entity);
    }
    let Some(fragment) = named_links(parts.mapping, name) else {
        unreachable!()
    };
    let pattern = region_pattern(alloc, parts, region)?;
    host_row_place(alloc, parts, region, name, fragment, &pattern)
}

// Whether a fragment of entities has this name.
fn has_named(mapping: &Mapping, name: &Txt) -> bool
    ensures { result ≡ list_any (λ one. bytes_eq one.place name.now) mapping.now.fragments }
{
    mapping
        .fragments
        .as_slice()
        .iter()
        .any(|one| is_named(&one.place, name))
}

// The fragment of links that has this name.
fn named_links<'m>(mapping: &'m Mapping, name: &Txt) -> Option<&'m LinkFragment>
    ensures { option_copied result ≡ find (λ one. bytes_eq one.place name.now) mapping.now.links }
{
    mapping
        .links
        .as_slice()
        .iter()
        .find(|one| is_named(&one.place, name))
}

// Whether a place is this name.
fn is_named(place: &Txt, name: &Txt) -> bool
    ensures { result ≡ bytes_eq place.now name.now }
{
    place.as_str() == name.as_str()
}
