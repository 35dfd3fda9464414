ghost use Rattle.std.specs.Prelude.{◌≡◌, ◌++◌, IfOk, OnOk, option_map};
ghost use Rattle.std.specs.List.{filter_map};
ghost use Rattle.msl_rules.specs.MappingMeaning.{fragment_at, link_at, mapping_in};
ghost use Rattle.msl_rules.specs.Sites.{link_place, link_sites, sites, sites_of_set};
ghost use Rattle.msl_meaning.specs.msl_making.Walk.{fragment_of, fragments_of};

use crate::msl_making::fragments::make_fragment;
use crate::msl_making::links::make_link;
use crate::msl_making::places::{fragment_place, link_place};
use edm_types::{Fragment, LinkFragment, Mapping};
use emc_base::{Memory, Seq, Txt, put_found};
use msl_rules::{RawFragment, RawLinkMapping, RawMapping, RawSetMapping, RawTypeMapping};
use schema_names::SchemaNames;
use std::alloc::Global;

/// The mapping that a document means. What stands for nothing is left out. `Memory` comes where memory ran out.
pub fn make_mapping(
    alloc: Global,
    names: &SchemaNames<'_>,
    raw: &RawMapping,
) -> Result<Mapping, Memory>
    ensures { IfOk result (λ mapping. mapping ≡ mapping_in names.now.model.now names.now.store.now raw.now) }
{
    Ok(Mapping {
        fragments: fragments_in(alloc, names, raw)?,
        links: links_in(alloc, names, raw)?,
    })
}

// The fragments of all sets.
fn fragments_in(
    alloc: Global,
    names: &SchemaNames<'_>,
    raw: &RawMapping,
) -> Result<Seq<Fragment>, Memory>
    ensures { IfOk result (λ made. made ≡ filter_map (fragment_at names.now.model.now names.now.store.now) (sites raw.now)) }
{
    let mut made = Seq::empty(alloc);
    for (place, set) in raw.sets.as_slice().iter().enumerate() {
        put_set(alloc, names, &mut made, place, set)?;
    }
    Ok(made)
}

// Puts the fragments of the set's mapping at a place behind the others.
fn put_set(
    alloc: Global,
    names: &SchemaNames<'_>,
    made: &mut Seq<Fragment>,
    place: usize,
    mapping: &RawSetMapping,
) -> Result<(), Memory>
    ensures { OnOk result (made.new ≡ made.old ++ filter_map (fragment_at names.now.model.now names.now.store.now) (sites_of_set place mapping.now)) }
{
    let Some(set) = names.set_named(mapping.name.as_str()) else {
        return Ok(());
    };
    for (inside, types) in mapping.types.as_slice().iter().enumerate() {
        put_types(alloc, names, made, set, (place, inside), types)?;
    }
    Ok(())
}

// Puts the fragments of a type mapping behind the others. It stands at the second place in the set's mapping at the first.
fn put_types(
    alloc: Global,
    names: &SchemaNames<'_>,
    made: &mut Seq<Fragment>,
    set: usize,
    places: (usize, usize),
    types: &RawTypeMapping,
) -> Result<(), Memory>
    ensures { OnOk result (made.new ≡ made.old ++ fragments_of names.now.model.now names.now.store.now set places.0 places.1 types.now) }
{
    for (last, fragment) in types.fragments.as_slice().iter().enumerate() {
        let place = fragment_place(alloc, places.0, places.1, last)?;
        put_found(
            made,
            fragment_of(alloc, names, set, place, types, fragment)?,
        )?;
    }
    Ok(())
}

// A fragment of the set at a place, where its table is found.
fn fragment_of(
    alloc: Global,
    names: &SchemaNames<'_>,
    set: usize,
    place: Txt,
    types: &RawTypeMapping,
    fragment: &RawFragment,
) -> Result<Option<Fragment>, Memory>
    ensures { IfOk result (λ made. made ≡ fragment_of names.now.model.now names.now.store.now set place types.now fragment.now) }
{
    let Some(table) = names.table_named(fragment.table.as_str()) else {
        return Ok(None);
    };
    let made = make_fragment(alloc, names, place, types, fragment, set, table)?;
    Ok(Some(made))
}

// The mappings of all association sets.
fn links_in(
    alloc: Global,
    names: &SchemaNames<'_>,
    raw: &RawMapping,
) -> Result<Seq<LinkFragment>, Memory>
    ensures { IfOk result (λ made. made ≡ filter_map (link_at names.now.model.now names.now.store.now) (link_sites raw.now)) }
{
    let mut made = Seq::empty(alloc);
    for (place, link) in raw.links.as_slice().iter().enumerate() {
        put_found(&mut made, link_at(alloc, names, place, link)?)?;
    }
    Ok(made)
}

// The mapping of an association set at a place, where its set and its table are found.
fn link_at(
    alloc: Global,
    names: &SchemaNames<'_>,
    place: usize,
    link: &RawLinkMapping,
) -> Result<Option<LinkFragment>, Memory>
    ensures { IfOk result (λ made. made ≡ link_at names.now.model.now names.now.store.now (record { place = link_place place; link = link.now })) }
{
    let Some(set) = names.association_set_named(link.name.as_str()) else {
        return Ok(None);
    };
    let Some(assoc) = names.model.assocs.get(set) else {
        return Ok(None);
    };
    let Some(table) = names.table_named(link.table.as_str()) else {
        return Ok(None);
    };
    let place = link_place(alloc, place)?;
    let made = make_link(alloc, names, place, link, set, assoc, table)?;
    Ok(Some(made))
}
