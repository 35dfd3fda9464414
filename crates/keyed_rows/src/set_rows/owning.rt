ghost use Rattle.std.specs.Prelude.{◌≡◌, ◌<◌, ◌↔◌, All, Contains, IfOk, IsTrue, Some, length, map};
ghost use Rattle.std.specs.List.{AllZip};
ghost use Rattle.cells.specs.Parts.{AreParts, schema_in};
ghost use Rattle.round_trip.specs.Words.{key_columns, value_beside};
ghost use Rattle.table_owners.specs.declared.table_writers.writer.Owner.TheVariants.{Set};
ghost use Rattle.round_trip.specs.soundness.Lookups.{set_key};
ghost use Rattle.keyed_rows.specs.set_rows.Owning.{IsBeside, IsKeyOrder, IsOwnedBy, IsPairing, IsTableKey};

use crate::set_rows::lookups::{column_beside, key_columns, set_key, value_beside};
use cells::{Owner, Parts};
use emc_base::{ColId, Key, Memory, PropId, Seq, SetId, TableId, Value};
use std::alloc::Global;

/// Whether a set owns a table.
pub(super) fn is_owned_by(parts: &Parts<'_>, table: TableId, set: SetId) -> bool
    requires parts { AreParts parts.now }
    requires within { table.index < length parts.now.store.now.tables }
    ensures { IsTrue result ↔ IsOwnedBy (schema_in parts.now) table set }
{
    is_set(parts.cells.owner(table), set)
}

// Whether an owner is the set.
fn is_set(owner: Option<Owner>, set: SetId) -> bool
    ensures { IsTrue result ↔ (owner ≡ Some (Set set)) }
{
    match owner {
        Some(Owner::Set(other)) => other == set,
        Some(Owner::Assoc(_)) | None => false,
    }
}

// The properties that the set which owns a table writes to its primary key, in the order of this key.
fn pairing<'a>(parts: &Parts<'a>, table: TableId, set: SetId) -> &'a [PropId]
    requires parts { AreParts parts.now }
    requires within { table.index < length parts.now.store.now.tables }
    requires owned { IsOwnedBy (schema_in parts.now) table set }
    ensures { IsPairing (schema_in parts.now) table set result.now }
{
    parts.cells.pairing(table).as_slice()
}

/// The columns in which the parts of a set's key stand in a table that the set owns, in the order of the set's key. `Memory` comes where memory ran out.
pub(super) fn key_order(
    alloc: Global,
    parts: &Parts<'_>,
    table: TableId,
    set: SetId,
) -> Result<Vec<ColId>, Memory>
    requires parts { AreParts parts.now }
    requires within { table.index < length parts.now.store.now.tables }
    requires owned { IsOwnedBy (schema_in parts.now) table set }
    ensures { IfOk result (λ order. IsKeyOrder (schema_in parts.now) table set order.items) }
{
    let props = pairing(parts, table, set);
    let cols = key_columns(parts.store, table);
    columns_beside(alloc, props, cols, set_key(parts.model, set))
}

// The columns that stand beside some properties.
fn columns_beside(
    alloc: Global,
    props: &[PropId],
    cols: &[ColId],
    wanted: &[PropId],
) -> Result<Vec<ColId>, Memory>
    requires long { length cols.now ≡ length props.now }
    requires among { All (Contains props.now) wanted.now }
    ensures { IfOk result (λ found. AllZip (IsBeside props.now cols.now) wanted.now found.items) }
{
    let mut found = Vec::new(alloc);
    for prop in wanted {
        found.push(column_beside(props, cols, *prop))?;
    }
    Ok(found)
}

/// The primary key that rows at a key of a set have in a table that the set owns. `Memory` comes where memory ran out.
pub(super) fn table_key(
    alloc: Global,
    parts: &Parts<'_>,
    table: TableId,
    set: SetId,
    key: &Key,
) -> Result<Key, Memory>
    requires parts { AreParts parts.now }
    requires within { table.index < length parts.now.store.now.tables }
    requires owned { IsOwnedBy (schema_in parts.now) table set }
    ensures { IfOk result (λ own. IsTableKey (schema_in parts.now) table set key.now own) }
{
    let props = pairing(parts, table, set);
    values_beside(alloc, props, set_key(parts.model, set), key.as_slice())
}

// Copies of the values that stand beside some properties.
fn values_beside(
    alloc: Global,
    paired: &[PropId],
    props: &[PropId],
    values: &[Value],
) -> Result<Key, Memory>
    ensures { IfOk result (λ key. key ≡ map (λ prop. value_beside prop props.now values.now) paired.now) }
{
    let mut key = Seq::empty(alloc);
    for prop in paired {
        let value = value_beside(alloc, *prop, props, values)?;
        key.push(value)?;
    }
    Ok(key)
}
