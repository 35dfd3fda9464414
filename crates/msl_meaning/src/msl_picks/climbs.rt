ghost use Rattle.std.specs.Prelude.{IfOk};
ghost use Rattle.msl_rules.specs.KeepsMapping.{HasFewItems, HasShortLists, IsShort};

use crate::msl_picks::derived::height;
use emc_base::Memory;
use msl_rules::{
    RawEndMapping, RawLinkMapping, RawMapping, RawPick, RawSetMapping, RawTypeMapping,
};
use schema_names::SchemaNames;

/// How many types may be looked at for the names of properties in one mapping.
const MOST_CLIMBS: usize = 67_108_864;

/// `Memory` where more than 67,108,864 types would be looked at for the names in a mapping: for each fragment, and each pair and condition in it,
/// the types above each type of its TypeName, and for each pair at an end those above the end's type. It decides nothing but that; and since it
/// walks over the lists, it tells that they are no longer than this program reads.
pub fn allow_climbs(names: &SchemaNames<'_>, raw: &RawMapping) -> Result<(), Memory>
    ensures few { IfOk result (λ _. HasFewItems raw.now) }
{
    let mut left = MOST_CLIMBS;
    for set in raw.sets.as_slice() {
        left = without_set(names, set, left)?;
    }
    for link in raw.links.as_slice() {
        left = without_link(names, link, left)?;
    }
    Ok(())
}

// What is left when the names in the mapping of an entity set are looked up.
fn without_set(
    names: &SchemaNames<'_>,
    set: &RawSetMapping,
    mut left: usize,
) -> Result<usize, Memory>
    ensures { IfOk result (λ _. HasShortLists set.now) }
{
    for types in set.types.as_slice() {
        left = without_picks(names, types.picks.as_slice(), names_in(types), left)?;
    }
    Ok(left)
}

// What is left when so many names are looked up in each of the picked types.
fn without_picks(
    names: &SchemaNames<'_>,
    picks: &[RawPick],
    count: usize,
    mut left: usize,
) -> Result<usize, Memory> {
    for pick in picks {
        if let Some(ty) = names.type_named(pick.reference.as_str()) {
            left = without(height(names, ty), count, left)?;
        }
    }
    Ok(left)
}

// What is left when the names at the ends of an association are looked up.
fn without_link(
    names: &SchemaNames<'_>,
    link: &RawLinkMapping,
    left: usize,
) -> Result<usize, Memory> {
    let Some(set) = names.association_set_named(link.name.as_str()) else {
        return Ok(left);
    };
    let Some(assoc) = names.model.assocs.get(set) else {
        return Ok(left);
    };
    let first = height(names, assoc.first.ty.index as usize);
    let second = height(names, assoc.second.ty.index as usize);
    without(first.max(second), names_at(link.ends.as_slice()), left)
}

// What is left when so many names are looked up over so many types.
fn without(height: usize, count: usize, left: usize) -> Result<usize, Memory> {
    let steps = height.saturating_mul(count.saturating_add(1));
    left.checked_sub(steps).ok_or(Memory)
}

// How many fragments a type mapping has, with their pairs and conditions.
fn names_in(types: &RawTypeMapping) -> usize
    ensures { IsShort types.now.fragments }
{
    let mut count: usize = 0;
    for fragment in types.fragments.as_slice() {
        let named = fragment.pairs.len().saturating_add(fragment.conds.len());
        count = count.saturating_add(named).saturating_add(1);
    }
    count
}

// How many names stand at these ends.
fn names_at(ends: &[RawEndMapping]) -> usize {
    let mut count: usize = 0;
    for end in ends {
        count = count.saturating_add(end.pairs.len());
    }
    count
}
