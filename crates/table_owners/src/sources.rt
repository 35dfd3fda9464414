ghost use Rattle.std.specs.Prelude.{◌≡◌, length, IfOk};
ghost use Rattle.round_trip.specs.Words.{EntityModel, Mapping};
ghost use Rattle.round_trip.specs.Between.{schema_of};
ghost use Rattle.table_owners.specs.Puts.{Puts};
ghost use Rattle.table_owners.specs.Sources.{AreSources, IsEntitySource, IsLinkSource, Stands, links_to, writes_to};

use crate::link_places::is_hosted;
use crate::putting::put;
use edm_types::{LinkFragment, Mapping, StoreModel};
use emc_base::{FragId, LinkFragId, Memory};
use std::alloc::Global;

/// Where the links of a fragment stand in its table.
#[derive(Clone, Copy, PartialEq, Eq)]
pub enum Standing {
    /// With the entities at the first end.
    AtFirst,
    /// With the entities at the second end.
    AtSecond,
    /// In rows of their own.
    Apart,
}

/// Something that writes a table.
#[derive(Clone, Copy, PartialEq, Eq)]
pub enum Source {
    /// A fragment of entities.
    Entities(FragId),
    /// A fragment of links, and where they stand.
    Links(LinkFragId, Standing),
}

/// For each table something that writes it, where anything does. One pass over the fragments. `Memory` comes where memory ran out.
pub fn sources_of(
    alloc: Global,
    store: &StoreModel,
    mapping: &Mapping,
) -> Result<Vec<Option<Source>>, Memory>
    ensures size { IfOk result (λ sources. length sources.items ≡ length store.now.tables) }
    ensures sources { IfOk result (λ sources. (model : EntityModel) → AreSources (schema_of model store.now mapping.now) sources.items) }
{
    let mut sources = vec![in alloc; None; store.tables.len()]?;
    put_entities(&mut sources, mapping);
    put_links(&mut sources, store, mapping);
    Ok(sources)
}

// Puts each fragment of entities to its table.
fn put_entities(sources: &mut Vec<Option<Source>>, mapping: &Mapping)
    ensures { Puts writes_to IsEntitySource mapping.now.fragments (length mapping.now.fragments) sources.old.items sources.new.items }
{
    for (number, fragment) in mapping.fragments.as_slice().iter().enumerate() {
        let id = FragId {
            index: number as u32,
        };
        put(sources, fragment.table.index, Some(Source::Entities(id)));
    }
}

// Puts each fragment of links to its table.
fn put_links(sources: &mut Vec<Option<Source>>, store: &StoreModel, mapping: &Mapping)
    ensures size { length sources.new.items ≡ length sources.old.items }
    ensures puts { (model : EntityModel)
        → Puts links_to (IsLinkSource (schema_of model store.now mapping.now)) mapping.now.links (length mapping.now.links) sources.old.items sources.new.items }
{
    for (number, fragment) in mapping.links.as_slice().iter().enumerate() {
        let id = LinkFragId {
            index: number as u32,
        };
        let source = Source::Links(id, standing_of(store, fragment));
        put(sources, fragment.table.index, Some(source));
    }
}

/// Where the links of a fragment stand in its table.
pub fn standing_of(store: &StoreModel, fragment: &LinkFragment) -> Standing
    ensures { (model : EntityModel) (mapping : Mapping) → Stands (schema_of model store.now mapping) fragment.now result }
{
    if is_hosted(store, fragment.table, fragment.first.as_slice()) {
        return Standing::AtFirst;
    }
    if is_hosted(store, fragment.table, fragment.second.as_slice()) {
        return Standing::AtSecond;
    }
    Standing::Apart
}
