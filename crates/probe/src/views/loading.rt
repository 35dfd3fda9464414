ghost use Rattle.std.specs.Prelude.{◌≡◌, IfSome, IsTrue, length};
ghost use Rattle.cells.specs.Cells.{is_free_in};
ghost use Rattle.cells.specs.Parts.{AreParts, schema_in};
ghost use Rattle.query_views.specs.Lent.{key_at, lent_state};
ghost use Rattle.query_views.specs.Views.{AreQueryViewsOf};
ghost use Rattle.region_states.specs.region_basis.BasisOf.{basis_of};
ghost use Rattle.region_partition.specs.set_regions.Regions.{AreRegions};
ghost use Rattle.round_trip.specs.Words.{AreLegalTables, AreTables, At, IsState, Link, RoundTrips, key_props, links_in};
ghost use Rattle.round_trip.specs.soundness.Lookups.{set_key};

use crate::asked::Asked;
use crate::printing::{put, put_entity_line, put_value, put_values};
use crate::views::all_regions;
use cells::Parts;
use edm_types::{EntityModel, Hosted};
use emc_base::{AssocId, Key, PropId, Seq, SetId, TypeId, Value, ValueRef};
use mapping_core::first_failure;
use query_views::{EntityFault, Found, Loaded, QueryViews, StateFault};
use regions::Region;
use std::alloc::Global;
use table_files::{Tables, is_legal};

const FIRST: SetId = SetId { index: 0 };

const FIRST_LINKS: AssocId = AssocId { index: 0 };

/// Puts what is asked of legal tables, by the query views of a mapping in which no legal state fails; a line that says so where one does. `None` where the
/// tables aren't legal, or memory ran out.
pub fn put_told(
    alloc: Global,
    text: &mut String,
    asked: Asked,
    parts: &Parts<'_>,
    tables: &Tables,
) -> Option<()>
    requires parts { AreParts parts.now }
    requires tables { AreTables parts.now.store.now tables.now }
{
    if !is_legal(tables.as_slice(), parts.store) {
        return None;
    }
    let regions = all_regions(alloc, parts)?;
    if !keeps_all(alloc, parts, &regions)? {
        return text.push_str("fails\n").ok();
    }
    let views = QueryViews::of(alloc, parts, &regions).ok()?;
    let put = put_by_views(alloc, text, asked, parts, &views, tables);
    drop(views);
    put
}

// Whether no legal state fails.
fn keeps_all(alloc: Global, parts: &Parts<'_>, regions: &Seq<Seq<Region>>) -> Option<bool>
    requires parts { AreParts parts.now }
    requires regions { AreRegions (basis_of parts.now) regions.now }
    ensures { IfSome result (λ keeps. IsTrue keeps → RoundTrips (schema_in parts.now)) }
{
    match first_failure(alloc, parts, regions) {
        Ok(None) => Some(true),
        Ok(Some(failure)) => {
            drop(failure);
            Some(false)
        }
        Err(_) => None,
    }
}

// The same by the views.
fn put_by_views(
    alloc: Global,
    text: &mut String,
    asked: Asked,
    parts: &Parts<'_>,
    views: &QueryViews,
    tables: &Tables,
) -> Option<()>
    requires parts { AreParts parts.now }
    requires views { AreQueryViewsOf (basis_of parts.now) (is_free_in parts.now.cells.now) views.now }
    requires round_trips { RoundTrips (schema_in parts.now) }
    requires legal { AreLegalTables parts.now.store.now tables.now }
{
    match asked {
        Asked::Keys => put_keys(alloc, text, parts, views, tables),
        Asked::Lent => put_lent(alloc, text, parts, views, tables),
        _ => None,
    }
}

// Puts a line for each of the keys 1 to 3, with the entity of the first set that is told there: its type and its values, and behind it a line for each link that
// it hosts; or that there is none, or that the rows there meet no case.
fn put_keys(
    alloc: Global,
    text: &mut String,
    parts: &Parts<'_>,
    views: &QueryViews,
    tables: &Tables,
) -> Option<()>
    requires parts { AreParts parts.now }
    requires views { AreQueryViewsOf (basis_of parts.now) (is_free_in parts.now.cells.now) views.now }
    requires round_trips { RoundTrips (schema_in parts.now) }
    requires legal { AreLegalTables parts.now.store.now tables.now }
{
    put_key(alloc, text, parts, views, tables, 1)?;
    put_key(alloc, text, parts, views, tables, 2)?;
    put_key(alloc, text, parts, views, tables, 3)
}

// Puts a line for each entity of the first set, in the order of keys, with its type and its second property, and one for each link of the first association set,
// with both keys; or that the rows at a key meet no case.
fn put_lent(
    alloc: Global,
    text: &mut String,
    parts: &Parts<'_>,
    views: &QueryViews,
    tables: &Tables,
) -> Option<()>
    requires parts { AreParts parts.now }
    requires views { AreQueryViewsOf (basis_of parts.now) (is_free_in parts.now.cells.now) views.now }
    requires round_trips { RoundTrips (schema_in parts.now) }
    requires legal { AreLegalTables parts.now.store.now tables.now }
{
    match Loaded::of(alloc, views, parts, tables) {
        Ok(loaded) => {
            let put = put_loaded(alloc, text, parts.model, &loaded);
            drop(loaded);
            put
        }
        Err(fault) => {
            let is_told = matches!(&fault, StateFault::NoCase(_));
            drop(fault);
            put_no_case(text, is_told)
        }
    }
}

// Puts that the rows at a key meet no case, where that is told.
fn put_no_case(text: &mut String, is_told: bool) -> Option<()> {
    if !is_told {
        return None;
    }
    text.push_str("no case\n").ok()
}

// The query views of a mapping.
pub(crate) fn views_of(alloc: Global, parts: &Parts<'_>) -> Option<QueryViews>
    requires parts { AreParts parts.now }
    ensures { IfSome result (AreQueryViewsOf (basis_of parts.now) (is_free_in parts.now.cells.now)) }
{
    let regions = all_regions(alloc, parts)?;
    let views = QueryViews::of(alloc, parts, &regions).ok();
    drop(regions);
    views
}

// How many parts the key of a set has.
fn key_length(model: &EntityModel, set: SetId) -> usize
    ensures { result ≡ length (set_key model.now set) }
{
    match model.sets.get(set.index as usize) {
        Some(entry) => part_count(model, entry.element),
        None => 0,
    }
}

// Puts the line of a key.
fn put_key(
    alloc: Global,
    text: &mut String,
    parts: &Parts<'_>,
    views: &QueryViews,
    tables: &Tables,
    number: i64,
) -> Option<()>
    requires parts { AreParts parts.now }
    requires views { AreQueryViewsOf (basis_of parts.now) (is_free_in parts.now.cells.now) views.now }
    requires round_trips { RoundTrips (schema_in parts.now) }
    requires legal { AreLegalTables parts.now.store.now tables.now }
{
    let mut key: Key = Seq::empty(alloc);
    key.push(Value::Whole(number)).ok()?;
    if FIRST.index as usize >= parts.model.sets.len()
        || key.len() != key_length(parts.model, FIRST)
    {
        return None;
    }
    match views.entity_at(alloc, parts, tables, FIRST, &key) {
        Ok(found) => {
            let put = put_found(alloc, text, &found);
            drop(found);
            put
        }
        Err(EntityFault::Absent) => text.push_str("absent\n").ok(),
        Err(EntityFault::NoCase) => text.push_str("no case\n").ok(),
        Err(EntityFault::Memory) => None,
    }
}

// Puts the line of an entity that is found, and those of its links.
fn put_found(alloc: Global, text: &mut String, found: &Found) -> Option<()> {
    put_entity_line(alloc, text, &found.entity)?;
    for hosted in found.links.as_slice() {
        put_hosted(alloc, text, hosted)?;
    }
    Some(())
}

// Puts the line of a link that an entity hosts: its association set and its partner's key.
fn put_hosted(alloc: Global, text: &mut String, hosted: &Hosted) -> Option<()> {
    put(alloc, text, "link ", u64::from(hosted.assoc.index))?;
    put_values(alloc, text, &hosted.partner)?;
    text.push_str("\n").ok()
}

// Puts the lines of entities and links that are lent.
fn put_loaded(
    alloc: Global,
    text: &mut String,
    model: &EntityModel,
    loaded: &Loaded<'_>,
) -> Option<()>
    requires { IsState model.now (lent_state loaded.now) }
{
    for place in 0..loaded.len(FIRST) {
        let ty = loaded.type_of(FIRST, place);
        let value = loaded.property(FIRST, place, PropId { index: 1 });
        put_lent_entity(alloc, text, ty, &value)?;
    }
    put_lent_links(alloc, text, model, loaded)
}

// Puts the lines of the links of the first association set.
fn put_lent_links(
    alloc: Global,
    text: &mut String,
    model: &EntityModel,
    loaded: &Loaded<'_>,
) -> Option<()>
    requires { IsState model.now (lent_state loaded.now) }
{
    let Some(declared) = model.assocs.get(0) else {
        return Some(());
    };
    let first_len = part_count(model, declared.first.ty);
    let second_len = part_count(model, declared.second.ty);
    for place in 0..loaded.link_len(FIRST_LINKS) {
        text.push_str("link").ok()?;
        put_lent_key(alloc, text, loaded, place, true, first_len)?;
        put_lent_key(alloc, text, loaded, place, false, second_len)?;
        text.push_str("\n").ok()?;
    }
    Some(())
}

// Puts the parts of a link's key at an end.
fn put_lent_key(
    alloc: Global,
    text: &mut String,
    loaded: &Loaded<'_>,
    place: usize,
    first: bool,
    len: usize,
) -> Option<()>
    requires { (link : Link) × At (links_in (lent_state loaded.now) (record { index = 0 })) place link × (len ≡ length (key_at first link)) }
{
    for part in 0..len {
        let value = loaded.link_part(FIRST_LINKS, place, first, part);
        put_lent_value(alloc, text, &value)?;
    }
    Some(())
}

// Puts a value that is lent, behind a space.
fn put_lent_value(alloc: Global, text: &mut String, value: &ValueRef<'_>) -> Option<()> {
    text.push_str(" ").ok()?;
    let value = value.copy(alloc).ok()?;
    let put = put_value(alloc, text, &value);
    drop(value);
    put
}

// How many parts the key of a type has.
fn part_count(model: &EntityModel, ty: TypeId) -> usize
    ensures { result ≡ length (key_props model.now ty) }
{
    match model.types.get(ty.index as usize) {
        Some(declared) => declared.key.len(),
        None => 0,
    }
}

// Puts the line of an entity that is lent: its type and a value.
fn put_lent_entity(
    alloc: Global,
    text: &mut String,
    ty: TypeId,
    value: &ValueRef<'_>,
) -> Option<()> {
    put(alloc, text, "", u64::from(ty.index))?;
    put_lent_value(alloc, text, value)?;
    text.push_str("\n").ok()
}
