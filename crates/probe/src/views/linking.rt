ghost use Rattle.cells.specs.Parts.{AreParts};

use crate::printing::{put, put_bytes, put_values};
use crate::views::all_regions;
use crate::views::loading::views_of;
use case_laws::Case;
use cells::{HostLinks, Parts};
use edm_types::{Entity, EntityModel, Link};
use emc_base::{AssocId, Key, Seq, SetId, Steps};
use entity_state::{EntityState, keys_of};
use std::alloc::Global;
use table_files::{LocalRows, TableRow};
use texts::views_text;
use update_views::UpdateViews;

/// Puts the lines of the query views.
pub fn put_views(alloc: Global, text: &mut String, parts: &Parts<'_>) -> Option<()>
    requires { AreParts parts.now }
{
    let views = views_of(alloc, parts)?;
    let put = put_cases(alloc, text, parts, views.cases());
    drop(views);
    put
}

// Puts the lines of the cases of all sets.
fn put_cases(alloc: Global, text: &mut String, parts: &Parts<'_>, cases: &[Seq<Case>]) -> Option<()>
    requires { AreParts parts.now }
{
    if cases.len() != parts.model.sets.len() {
        return None;
    }
    let lines = views_text(alloc, parts, cases).ok()?;
    let put = put_bytes(text, lines.as_slice());
    drop(lines);
    put
}

/// Puts a line for each row of a state: those of each entity with the links that it hosts, and then those of each link by itself.
pub fn put_rows(
    alloc: Global,
    text: &mut String,
    parts: &Parts<'_>,
    state: &EntityState,
) -> Option<()>
    requires { AreParts parts.now }
{
    let regions = all_regions(alloc, parts)?;
    let views = UpdateViews::of(alloc, parts, &regions).ok();
    drop(regions);
    let views = views?;
    let put = put_rows_by(alloc, text, parts, &views, state);
    drop(views);
    put
}

// The same by the views.
fn put_rows_by(
    alloc: Global,
    text: &mut String,
    parts: &Parts<'_>,
    views: &UpdateViews,
    state: &EntityState,
) -> Option<()>
    requires { AreParts parts.now }
{
    let keys = keys_in_sets(alloc, parts.model, state.entity_lists())?;
    let hosts = HostLinks::of(alloc, parts.model, parts.cells, state).ok()?;
    let put = put_sets(alloc, text, parts, views, &hosts, &keys, state);
    drop(hosts);
    put?;
    put_associations(alloc, text, parts, views, state)
}

// Puts the rows of the entities of each set.
fn put_sets<'s>(
    alloc: Global,
    text: &mut String,
    parts: &Parts<'_>,
    views: &UpdateViews,
    hosts: &HostLinks<'s>,
    keys: &'s [Vec<Key>],
    state: &EntityState,
) -> Option<()> {
    for place in 0..parts.model.sets.len() {
        let set = SetId {
            index: place as u32,
        };
        let entities = state.entity_lists().get(place)?;
        let keys = keys.get(place)?;
        put_entities(alloc, text, views, hosts, set, keys, entities.as_slice())?;
    }
    Some(())
}

// Puts the rows of entities of a set.
fn put_entities<'s>(
    alloc: Global,
    text: &mut String,
    views: &UpdateViews,
    hosts: &HostLinks<'s>,
    set: SetId,
    keys: &'s [Key],
    entities: &[Entity],
) -> Option<()> {
    for (place, entity) in entities.iter().enumerate() {
        let links = hosts.at(set, keys.get(place)?);
        let rows = views
            .local(alloc, set, entity, links, &mut Steps::new())
            .ok()?;
        put_lines(alloc, text, rows.as_slice())?;
    }
    Some(())
}

// The keys of the entities of each set.
fn keys_in_sets(
    alloc: Global,
    model: &EntityModel,
    entities: &[Seq<Entity>],
) -> Option<Vec<Vec<Key>>> {
    let mut keys = Vec::new(alloc);
    for of_set in entities {
        let of_set = keys_of(alloc, model, of_set.as_slice()).ok()?;
        keys.push(of_set).ok()?;
    }
    Some(keys)
}

// Puts a line for each row.
fn put_lines(alloc: Global, text: &mut String, rows: &[TableRow]) -> Option<()> {
    for row in rows {
        put_line(alloc, text, row)?;
    }
    Some(())
}

// Puts the line of a row: the number of its table, and its cells.
fn put_line(alloc: Global, text: &mut String, placed: &TableRow) -> Option<()> {
    put(alloc, text, "", u64::from(placed.table.index))?;
    put_values(alloc, text, &placed.row.cells)?;
    text.push_str("\n").ok()
}

// Puts the rows of the links of each association set.
fn put_associations(
    alloc: Global,
    text: &mut String,
    parts: &Parts<'_>,
    views: &UpdateViews,
    state: &EntityState,
) -> Option<()> {
    for place in 0..parts.model.assocs.len() {
        let assoc = AssocId {
            index: place as u32,
        };
        let links = state.link_lists().get(place)?;
        put_links(alloc, text, views, assoc, links.as_slice())?;
    }
    Some(())
}

// Puts the rows of links.
fn put_links(
    alloc: Global,
    text: &mut String,
    views: &UpdateViews,
    assoc: AssocId,
    links: &[Link],
) -> Option<()> {
    for link in links {
        if let Some(row) = views.joined(alloc, assoc, link).ok()? {
            put_line(alloc, text, &row)?;
        }
    }
    Some(())
}
