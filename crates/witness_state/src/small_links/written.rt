ghost use Rattle.std.specs.Prelude.{◌≡◌, ◌==◌, IfOk, find, map};
ghost use Rattle.std.specs.Option.{option_copied, option_map_or};
ghost use Rattle.cells.specs.Parts.{AreParts, schema_in};
ghost use Rattle.region_states.specs.conflicts.Conflicts.{IsTableOf};
ghost use Rattle.region_states.specs.region_basis.BasisOf.{basis_of};
ghost use Rattle.round_trip.specs.Words.{AssocId, Null, key_props, link_cells, value_beside, written_to};

use cells::Parts;
use edm_types::{Assoc, EntityModel, Link, LinkFragment, Pair};
use emc_base::{ColId, Key, Memory, PropId, Seq, TableId, TypeId, Value};
use std::alloc::Global;

/// The link fragment that writes an association's own table.
pub fn fragment_of<'m>(parts: &Parts<'m>, table: TableId) -> &'m LinkFragment
    requires { (assoc : AssocId) × IsTableOf (basis_of parts.now) assoc table }
    ensures { (assoc : AssocId) (of : IsTableOf (basis_of parts.now) assoc table) → result.now ≡ of.fragment }
{
    match fragment_to(parts, table) {
        Some(fragment) => fragment,
        None => unreachable!(),
    }
}

// The first link fragment to a table.
fn fragment_to<'m>(parts: &Parts<'m>, table: TableId) -> Option<&'m LinkFragment>
    ensures { option_copied result ≡ find (λ fragment. fragment.table.index == table.index) (schema_in parts.now).mapping.links }
{
    parts
        .mapping
        .links
        .as_slice()
        .iter()
        .find(|fragment| fragment.table.index == table.index)
}

/// What a link writes to these columns. `Memory` comes where memory ran out.
pub fn written_values(
    alloc: Global,
    model: &EntityModel,
    declared: &Assoc,
    fragment: &LinkFragment,
    link: &Link,
    cols: &[ColId],
) -> Result<Key, Memory>
    ensures { IfOk result (λ key. key ≡ map (written_to (link_cells model.now declared.now fragment.now link.now)) cols.now) }
{
    let mut key = Seq::empty(alloc);
    for col in cols {
        key.push(written_value(alloc, model, declared, fragment, link, *col)?)?;
    }
    Ok(key)
}

// What it writes to a column; null where it writes nothing.
fn written_value(
    alloc: Global,
    model: &EntityModel,
    declared: &Assoc,
    fragment: &LinkFragment,
    link: &Link,
    col: ColId,
) -> Result<Value, Memory>
    ensures { IfOk result (λ value. value ≡ written_to (link_cells model.now declared.now fragment.now link.now) col) }
{
    if let Some(pair) = pair_to(fragment.first.as_slice(), col) {
        return part_of(alloc, model, declared.first.ty, pair, &link.first);
    }
    match pair_to(fragment.second.as_slice(), col) {
        Some(pair) => part_of(alloc, model, declared.second.ty, pair, &link.second),
        None => Ok(Value::Null),
    }
}

// The first pair that writes a column.
fn pair_to(pairs: &[Pair], col: ColId) -> Option<&Pair>
    ensures { option_copied result ≡ find (λ pair. pair.col.index == col.index) pairs.now }
{
    pairs.iter().find(|pair| pair.col.index == col.index)
}

// The part of a type's key that a pair writes.
fn part_of(
    alloc: Global,
    model: &EntityModel,
    ty: TypeId,
    pair: &Pair,
    key: &Key,
) -> Result<Value, Memory>
    ensures { IfOk result (λ value. value ≡ value_beside pair.now.prop (key_props model.now ty) key.now) }
{
    value_beside(alloc, pair.prop, key_props(model, ty), key.as_slice())
}

/// The value that stands beside a property, and null for none. `Memory` comes where memory ran out.
pub fn value_beside(
    alloc: Global,
    prop: PropId,
    props: &[PropId],
    values: &[Value],
) -> Result<Value, Memory>
    ensures { IfOk result (λ value. value ≡ value_beside prop props.now values.now) }
{
    for (other, value) in props.iter().zip(values) {
        if *other == prop {
            return value.copy(alloc);
        }
    }
    Ok(Value::Null)
}

/// The key of a type; none where there is no such type.
pub(crate) fn key_props(model: &EntityModel, ty: TypeId) -> &[PropId]
    ensures { result.now ≡ key_props model.now ty }
{
    match model.types.get(ty.index as usize) {
        Some(declared) => declared.key.as_slice(),
        None => &[],
    }
}
