ghost use Rattle.std.specs.Prelude.{◌<◌, length};
ghost use Rattle.cells.specs.Parts.{AreParts};

use crate::printing::put;
use cells::{LinkPlace, Owner, Parts};
use emc_base::{AssocId, TableId};
use std::alloc::Global;

/// Puts a line for each table, with whose it is and the properties that are paired with its key, and one for each association set, with where
/// its links stand.
pub fn put_owners(alloc: Global, text: &mut String, parts: &Parts<'_>) -> Option<()>
    requires { AreParts parts.now }
{
    for place in 0..parts.store.tables.len() {
        let table = TableId {
            index: place as u32,
        };
        put_table(alloc, text, parts, table)?;
    }
    put_places(alloc, text, parts)
}

// Puts whose a table is, and the properties that are paired with its key.
fn put_table(alloc: Global, text: &mut String, parts: &Parts<'_>, table: TableId) -> Option<()>
    requires parts { AreParts parts.now }
    requires within { table.index < length parts.now.store.now.tables }
{
    put_owner(alloc, text, parts.cells.owner(table))?;
    for property in parts.cells.pairing(table).as_slice() {
        put(alloc, text, " ", u64::from(property.index))?;
    }
    text.push_str("\n").ok()
}

// Puts whose a table is.
fn put_owner(alloc: Global, text: &mut String, owner: Option<Owner>) -> Option<()> {
    match owner {
        Some(Owner::Set(set)) => put(alloc, text, "set ", u64::from(set.index)),
        Some(Owner::Assoc(assoc)) => put(alloc, text, "links ", u64::from(assoc.index)),
        None => text.push_str("none").ok(),
    }
}

// Puts where the links of all association sets stand.
fn put_places(alloc: Global, text: &mut String, parts: &Parts<'_>) -> Option<()>
    requires { AreParts parts.now }
{
    for place in 0..parts.model.assocs.len() {
        let assoc = AssocId {
            index: place as u32,
        };
        put_place(alloc, text, parts.cells.link_place(assoc))?;
        text.push_str("\n").ok()?;
    }
    Some(())
}

// Puts where the links of an association set stand.
fn put_place(alloc: Global, text: &mut String, place: LinkPlace) -> Option<()> {
    match place {
        LinkPlace::Hosted {
            first_hosts: true,
            fragment,
        } => put(alloc, text, "first ", u64::from(fragment.index)),
        LinkPlace::Hosted { fragment, .. } => put(
            alloc,
            text,
            "second ",
            u64::from(fragment.index),
        ),
        LinkPlace::Joined(fragment) => put(alloc, text, "joined ", u64::from(fragment.index)),
        LinkPlace::Unmapped => text.push_str("unmapped").ok(),
        LinkPlace::Constraint => text.push_str("constraint").ok(),
    }
}
