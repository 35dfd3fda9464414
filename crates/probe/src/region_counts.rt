ghost use Rattle.std.specs.Prelude.{◌≡◌};
ghost use Rattle.cells.specs.Parts.{AreParts};
ghost use Rattle.region_states.specs.region_basis.BasisOf.{basis_of};
ghost use Rattle.regions.specs.Regions.{regions_of};

use crate::printing::{put, put_values};
use cells::{Parts, hosted_links};
use edm_types::{Entity, Hosted, key_of};
use emc_base::{AssocId, Seq, SetId};
use entity_state::EntityState;
use region_partition::{RegionsFault, find_region, regions};
use regions::{Focus, Pattern, Region};
use std::alloc::Global;
use symbolic_rows::{pattern, region_pattern};

/// The most regions of a set.
pub const MOST_REGIONS: u64 = 16_384;

/// Puts a line for each set, with how many regions it has where the most are allowed, just so many, and one fewer; and last one for no set.
pub fn put_counts(alloc: Global, text: &mut String, parts: &Parts<'_>) -> Option<()>
    requires { AreParts parts.now }
{
    let sets = parts.model.sets.len();
    for place in 0..sets {
        let set = SetId {
            index: place as u32,
        };
        let counted = put_count(alloc, text, parts, set, MOST_REGIONS)?;
        put_count(alloc, text, parts, set, counted)?;
        put_count(alloc, text, parts, set, counted.saturating_sub(1))?;
        text.push_str("\n").ok()?;
    }
    let none = SetId { index: sets as u32 };
    put_count(alloc, text, parts, none, 0)?;
    text.push_str("\n").ok()
}

// Puts how many regions a set has, or that these are more than are allowed, and answers how many.
fn put_count(
    alloc: Global,
    text: &mut String,
    parts: &Parts<'_>,
    set: SetId,
    allowed: u64,
) -> Option<u64>
    requires { AreParts parts.now }
{
    if allowed > MOST_REGIONS {
        return None;
    }
    let (word, counted) = match regions(alloc, parts, set, allowed) {
        Ok(found) => ("regions ", found.len() as u64),
        Err(RegionsFault::Limit { counted, .. }) => ("limit ", counted),
        Err(RegionsFault::Memory) => return None,
    };
    put(alloc, text, word, counted)?;
    text.push_str(";").ok()?;
    Some(counted)
}

/// Puts a line for each set, with how many regions it has and how many rows their patterns have, which are held at once.
pub fn put_regions(alloc: Global, text: &mut String, parts: &Parts<'_>) -> Option<()>
    requires { AreParts parts.now }
{
    for place in 0..parts.model.sets.len() {
        let set = SetId {
            index: place as u32,
        };
        put_sizes(alloc, text, parts, set)?;
        text.push_str(" rows\n").ok()?;
    }
    Some(())
}

// Puts how many regions a set has, and how many rows.
fn put_sizes(alloc: Global, text: &mut String, parts: &Parts<'_>, set: SetId) -> Option<()>
    requires { AreParts parts.now }
{
    let found = regions(alloc, parts, set, MOST_REGIONS).ok()?;
    let counted = found.len();
    let patterns = patterns_of(alloc, parts, &found);
    drop(found);
    let patterns = patterns?;
    let rows = rows_in(&patterns);
    drop(patterns);
    put(alloc, text, "", counted as u64)?;
    put(alloc, text, " regions, ", rows as u64)
}

// How many rows there are, as far as a machine counts.
fn rows_in(patterns: &Seq<Pattern>) -> usize {
    let mut rows: usize = 0;
    for pattern in patterns.as_slice() {
        rows = rows.saturating_add(pattern.rows.len());
    }
    rows
}

// The patterns of regions.
fn patterns_of(alloc: Global, parts: &Parts<'_>, regions: &Seq<Region>) -> Option<Seq<Pattern>>
    requires { AreParts parts.now }
{
    let mut patterns = Seq::empty(alloc);
    for region in regions.as_slice() {
        patterns
            .push(region_pattern(alloc, parts, region).ok()?)
            .ok()?;
    }
    Some(patterns)
}

/// Puts a line for each association set, with the rows in the pattern of its links: the table of each, and how many cells it has.
pub fn put_links(alloc: Global, text: &mut String, parts: &Parts<'_>) -> Option<()>
    requires { AreParts parts.now }
{
    for place in 0..parts.model.assocs.len() {
        let assoc = AssocId {
            index: place as u32,
        };
        put_link(alloc, text, parts, assoc)?;
        text.push_str("\n").ok()?;
    }
    Some(())
}

// Puts the rows in the pattern of a link.
fn put_link(alloc: Global, text: &mut String, parts: &Parts<'_>, assoc: AssocId) -> Option<()>
    requires { AreParts parts.now }
{
    let focus = Focus::Link(assoc);
    let made = pattern(alloc, parts, &focus);
    drop(focus);
    let made = made.ok()?;
    let put = put_pattern(alloc, text, &made);
    drop(made);
    put
}

// Puts the rows of a pattern.
fn put_pattern(alloc: Global, text: &mut String, made: &Pattern) -> Option<()> {
    for row in made.rows.as_slice() {
        put(alloc, text, "table ", u64::from(row.table.index))?;
        put(alloc, text, " cells ", row.cells.len() as u64)?;
    }
    Some(())
}

/// Puts a line for each entity of each set, with the links that it hosts in a state, and the place of its region.
pub fn put_found(
    alloc: Global,
    text: &mut String,
    parts: &Parts<'_>,
    state: &EntityState,
) -> Option<()>
    requires { AreParts parts.now }
{
    for place in 0..parts.model.sets.len() {
        let set = SetId {
            index: place as u32,
        };
        let found = regions(alloc, parts, set, MOST_REGIONS).ok()?;
        let put = put_set(alloc, text, parts, set, state, &found);
        drop(found);
        put?;
    }
    Some(())
}

// The same of a set, by its regions.
fn put_set(
    alloc: Global,
    text: &mut String,
    parts: &Parts<'_>,
    set: SetId,
    state: &EntityState,
    regions: &Seq<Region>,
) -> Option<()>
    requires parts { AreParts parts.now }
    requires regions { regions.now ≡ regions_of (basis_of parts.now) set }
{
    let entities = state.entity_lists().get(set.index as usize)?;
    for entity in entities.as_slice() {
        put_entity(alloc, text, parts, set, state, regions, entity)?;
    }
    Some(())
}

// The same of an entity.
fn put_entity(
    alloc: Global,
    text: &mut String,
    parts: &Parts<'_>,
    set: SetId,
    state: &EntityState,
    regions: &Seq<Region>,
    entity: &Entity,
) -> Option<()>
    requires parts { AreParts parts.now }
    requires regions { regions.now ≡ regions_of (basis_of parts.now) set }
{
    let key = key_of(alloc, parts.model, entity).ok()?;
    let links = hosted_links(alloc, parts.model, parts.cells, state, set, &key).ok()?;
    put_hosted(alloc, text, links.as_slice())?;
    put_place(
        alloc,
        text,
        find_region(parts, regions, set, entity, &links),
    )
}

// Puts the place of a region.
fn put_place(alloc: Global, text: &mut String, found: Option<usize>) -> Option<()> {
    match found {
        Some(place) => put(alloc, text, "at ", place as u64)?,
        None => text.push_str("nowhere").ok()?,
    }
    text.push_str("\n").ok()
}

// Puts hosted links: the association set of each, and the key of the partner.
fn put_hosted(alloc: Global, text: &mut String, links: &[Hosted]) -> Option<()> {
    for link in links {
        put(alloc, text, "", u64::from(link.assoc.index))?;
        put_values(alloc, text, &link.partner)?;
        text.push_str(", ").ok()?;
    }
    Some(())
}
