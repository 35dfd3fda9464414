ghost use Rattle.std.specs.Prelude.{◌≡◌, IfOk};
ghost use Rattle.std.specs.List.{list_any};
ghost use Rattle.round_trip.specs.soundness.Lookups.{set_key};
ghost use Rattle.round_trip.specs.Words.{key_columns};
ghost use Rattle.msl_meaning.specs.msl_found.NamedAt.{named_at};
ghost use Rattle.msl_rules.specs.Found.{pair_in, pairs_in};
ghost use Rattle.msl_rules.specs.OwnerRules.{is_among_cols, is_among_props, key_pairs};
ghost use Rattle.msl_fragments.specs.msl_owners.KeyPairs.{is_column_named, of_key};

use edm_types::{EntityModel, Pair, StoreModel, Table};
use emc_base::{ColId, Memory, PropId, Seq, SetId, TableId, Txt, put_found};
use msl_meaning::InTable;
use msl_rules::RawPair;
use std::alloc::Global;

/// The key of an entity set's entities.
pub fn set_key(model: &EntityModel, set: SetId) -> &[PropId]
    ensures { result.now ≡ set_key model.now set }
{
    let Some(entry) = model.sets.get(set.index as usize) else {
        return &[];
    };
    match model.types.get(entry.element.index as usize) {
        Some(ty) => ty.key.as_slice(),
        None => &[],
    }
}

/// The primary key of a table.
pub fn key_columns(store: &StoreModel, table: TableId) -> &[ColId]
    ensures { result.now ≡ key_columns store.now table }
{
    match store.tables.get(table.index as usize) {
        Some(entry) => entry.key.as_slice(),
        None => &[],
    }
}

/// The pairs of a property of this key with a column of this primary key. `Memory` comes where memory ran out.
pub fn key_pairs(
    alloc: Global,
    key: &[PropId],
    cols: &[ColId],
    pairs: &[Pair],
) -> Result<Seq<Pair>, Memory>
    ensures { IfOk result (λ kept. kept ≡ key_pairs key.now cols.now pairs.now) }
{
    let mut kept = Seq::empty(alloc);
    for pair in pairs {
        if has_prop(key, pair.prop) && has_col(cols, pair.col) {
            kept.push(*pair)?;
        }
    }
    Ok(kept)
}

/// The same of the pairs of a list of which both are found. What is named otherwise than all columns of the primary key isn't looked up.
/// `Memory` comes where memory ran out.
pub fn found_key_pairs(
    alloc: Global,
    place: &InTable<'_>,
    key: &[PropId],
    cols: &[ColId],
    pairs: &[RawPair],
) -> Result<Seq<Pair>, Memory>
    ensures { IfOk result (λ kept. kept ≡ key_pairs key.now cols.now (pairs_in place.now.names.now.model.now place.now.names.now.store.now (named_at place.now.names.now.model.now place.now.ty) place.now.table pairs.now)) }
{
    let mut kept = Seq::empty(alloc);
    for pair in pairs {
        put_found(&mut kept, found_key_pair(place, key, cols, pair))?;
    }
    Ok(kept)
}

// A pair, where both are found and it is one of the key.
fn found_key_pair(
    place: &InTable<'_>,
    key: &[PropId],
    cols: &[ColId],
    pair: &RawPair,
) -> Option<Pair>
    ensures { result ≡ of_key key.now cols.now (pair_in place.now.names.now.model.now place.now.names.now.store.now (named_at place.now.names.now.model.now place.now.ty) place.now.table pair.now) }
{
    let table = place.names.store.tables.get(place.table)?;
    if !is_one_named(table, cols, &pair.col) {
        return None;
    }
    let found = place.pair(pair, 0)?;
    if has_prop(key, found.prop) && has_col(cols, found.col) {
        Some(found)
    } else {
        None
    }
}

// Whether one of the columns has the name.
fn is_one_named(table: &Table, cols: &[ColId], name: &Txt) -> bool
    ensures { result ≡ list_any (is_column_named table.now name.now) cols.now }
{
    cols.iter().any(|col| is_column_named(table, name, *col))
}

fn is_column_named(table: &Table, name: &Txt, col: ColId) -> bool
    ensures { result ≡ is_column_named table.now name.now col }
{
    match table.cols.get(col.index as usize) {
        Some(column) => name.as_str() == column.name.as_str(),
        None => false,
    }
}

// Whether the property is one of these.
fn has_prop(props: &[PropId], prop: PropId) -> bool
    ensures { result ≡ is_among_props props.now prop }
{
    props.iter().any(|other| other.index == prop.index)
}

// Whether the column is one of these.
fn has_col(cols: &[ColId], col: ColId) -> bool
    ensures { result ≡ is_among_cols cols.now col }
{
    cols.iter().any(|other| other.index == col.index)
}
