ghost use Rattle.cells.specs.Parts.{AreParts};

use crate::printing::put;
use crate::views::all_regions;
use cells::Parts;
use emc_base::{AssocId, PropId, Seq};
use forced_entities::{Forced, forced};
use regions::{Focus, Region, Symbol};
use std::alloc::Global;
use symbolic_rows::copy_region;

/// Puts what is forced by each region of each set, first where nothing is known of what may be null, then where no property is null; and by the links of
/// each association.
pub fn put_forced(alloc: Global, text: &mut String, parts: &Parts<'_>) -> Option<()>
    requires { AreParts parts.now }
{
    let regions = all_regions(alloc, parts)?;
    let all = all_properties(alloc, parts)?;
    let done = put_sets(alloc, text, parts, regions.as_slice(), all.as_slice());
    drop(regions);
    drop(all);
    done?;
    for place in 0..parts.model.assocs.len() {
        put(alloc, text, "links ", place as u64)?;
        let assoc = AssocId {
            index: place as u32,
        };
        put_focus(alloc, text, parts, &Focus::Link(assoc), &[])?;
    }
    Some(())
}

// The numbers of all properties.
fn all_properties(alloc: Global, parts: &Parts<'_>) -> Option<Vec<PropId>> {
    let mut all = Vec::new(alloc);
    for place in 0..parts.model.props.len() {
        all.push(PropId {
            index: place as u32,
        })
        .ok()?;
    }
    Some(all)
}

// Puts what the regions of each set force.
fn put_sets(
    alloc: Global,
    text: &mut String,
    parts: &Parts<'_>,
    sets: &[Seq<Region>],
    all: &[PropId],
) -> Option<()>
    requires { AreParts parts.now }
{
    for regions in sets.iter() {
        put_regions(alloc, text, parts, regions.as_slice(), all)?;
    }
    Some(())
}

// Puts two lines for each of these regions.
fn put_regions(
    alloc: Global,
    text: &mut String,
    parts: &Parts<'_>,
    regions: &[Region],
    all: &[PropId],
) -> Option<()>
    requires { AreParts parts.now }
{
    for region in regions.iter() {
        put_region(alloc, text, parts, region, all)?;
    }
    Some(())
}

// Puts what a region forces.
fn put_region(
    alloc: Global,
    text: &mut String,
    parts: &Parts<'_>,
    region: &Region,
    all: &[PropId],
) -> Option<()>
    requires { AreParts parts.now }
{
    let of = Focus::Entity(copy_region(region).ok()?);
    put(alloc, text, "set ", u64::from(region.set.index))?;
    put(alloc, text, " type ", u64::from(region.ty.index))?;
    put_focus(alloc, text, parts, &of, &[])?;
    text.push_str("  without null").ok()?;
    put_focus(alloc, text, parts, &of, all)
}

// Puts what a focus forces, and ends the line.
fn put_focus(
    alloc: Global,
    text: &mut String,
    parts: &Parts<'_>,
    of: &Focus,
    not_null: &[PropId],
) -> Option<()>
    requires { AreParts parts.now }
{
    let list = forced(alloc, parts, of, not_null).ok()?;
    let done = put_members(alloc, text, list.as_slice());
    drop(list);
    done?;
    text.push_str("\n").ok()
}

// Puts forced entities.
fn put_members(alloc: Global, text: &mut String, list: &[Forced]) -> Option<()> {
    for one in list.iter() {
        put(alloc, text, "; set ", u64::from(one.set.index))?;
        put(alloc, text, " type ", u64::from(one.ty.index))?;
        put_key(alloc, text, one.key.as_slice())?;
    }
    Some(())
}

// Puts the parts of a key.
fn put_key(alloc: Global, text: &mut String, key: &[Option<Symbol>]) -> Option<()> {
    for part in key.iter() {
        match part {
            Some(Symbol::Prop(prop)) => put(alloc, text, " property ", u64::from(prop.index))?,
            Some(
                Symbol::End {
                    assoc,
                    first,
                    prop,
                    ..
                },
            ) => {
                put(
                    alloc,
                    text,
                    if *first { " first " } else { " second " },
                    u64::from(assoc.index),
                )?;
                put(alloc, text, ".", u64::from(prop.index))?
            }
            Some(_) => text.push_str(" value").ok()?,
            None => text.push_str(" unknown").ok()?,
        }
    }
    Some(())
}

/// How often it is asked what a region forces, where its time is measured.
const TIMES: u32 = 1_000;

/// Puts how many entities the first region of the first set forces, asked a thousand times.
pub fn put_forced_again(alloc: Global, text: &mut String, parts: &Parts<'_>) -> Option<()>
    requires { AreParts parts.now }
{
    let regions = all_regions(alloc, parts)?;
    let counted = match regions.as_slice().first() {
        Some(list) => forced_again(alloc, parts, list.as_slice()),
        None => None,
    };
    drop(regions);
    put(alloc, text, "forced ", counted?)?;
    text.push_str("\n").ok()
}

// How many entities the first of these regions forces, and all times together.
fn forced_again(alloc: Global, parts: &Parts<'_>, regions: &[Region]) -> Option<u64>
    requires { AreParts parts.now }
{
    let of = Focus::Entity(copy_region(regions.first()?).ok()?);
    let mut counted: u64 = 0;
    for _ in 0..TIMES {
        let list = forced(alloc, parts, &of, &[]).ok()?;
        counted = counted.saturating_add(list.len() as u64);
    }
    Some(counted)
}
