ghost use Rattle.std.specs.Prelude.{◌≡◌, ◌≢◌, ◌⊎◌, ◌++◌, ◌↔◌, All, Contains, IsTrue, map};
ghost use Rattle.round_trip.specs.Words.{EntityModel, Mapping, key_columns};
ghost use Rattle.round_trip.specs.FailsAt.{IsHostedAt};
ghost use Rattle.edm_types.specs.declared.model.Mult.TheVariants.{One};
ghost use Rattle.round_trip.specs.soundness.mappings.Owners.{IsJoined, IsPlaced};
ghost use Rattle.round_trip.specs.Between.{schema_of};

use edm_types::{Assoc, LinkFragment, Mult, Pair, StoreModel};
use emc_base::{ColId, TableId};

/// Whether the columns of these pairs are exactly the primary key of a table.
pub fn is_hosted(store: &StoreModel, table: TableId, pairs: &[Pair]) -> bool
    ensures { (model : EntityModel) (mapping : Mapping) → IsTrue result ↔ IsHostedAt (schema_of model store.now mapping) table pairs.now }
{
    are_key(store, table, pairs, &[])
}

/// Whether the columns of both ends together are exactly the primary key, and neither end is mandatory.
pub fn is_joined(store: &StoreModel, fragment: &LinkFragment, assoc: &Assoc) -> bool
    ensures { (model : EntityModel) (mapping : Mapping) → IsTrue result ↔ IsJoined (schema_of model store.now mapping) fragment.now assoc.now }
{
    let first = fragment.first.as_slice();
    let second = fragment.second.as_slice();
    are_optional(assoc) && are_key(store, fragment.table, first, second)
}

/// Whether the links are hosted at one end, or joined.
pub fn is_placed(store: &StoreModel, fragment: &LinkFragment, assoc: &Assoc) -> bool
    ensures { (model : EntityModel) (mapping : Mapping) → IsTrue result ↔ IsPlaced (schema_of model store.now mapping) fragment.now assoc.now }
{
    is_at_an_end(store, fragment) || is_joined(store, fragment, assoc)
}

// Whether the links are hosted at one end.
fn is_at_an_end(store: &StoreModel, fragment: &LinkFragment) -> bool
    ensures { (model : EntityModel) (mapping : Mapping) → IsTrue result ↔ (IsHostedAt (schema_of model store.now mapping) fragment.now.table fragment.now.first ⊎ IsHostedAt (schema_of model store.now mapping) fragment.now.table fragment.now.second) }
{
    is_hosted(store, fragment.table, fragment.first.as_slice())
        || is_hosted(store, fragment.table, fragment.second.as_slice())
}

// Whether neither end of an association is mandatory.
fn are_optional(assoc: &Assoc) -> bool
    ensures { IsTrue result ↔ ((assoc.now.first.mult ≢ One) × (assoc.now.second.mult ≢ One)) }
{
    assoc.first.mult != Mult::One && assoc.second.mult != Mult::One
}

// Whether the columns of two lists of pairs together are exactly the primary key of a table.
fn are_key(store: &StoreModel, table: TableId, one: &[Pair], other: &[Pair]) -> bool
    ensures { (model : EntityModel) (mapping : Mapping) → IsTrue result ↔ IsHostedAt (schema_of model store.now mapping) table (one.now ++ other.now) }
{
    let key = key_of(store, table);
    are_both_within(key, one, other) && are_written(key, one, other)
}

// The primary key of a table. It is empty where there is no such table.
fn key_of(store: &StoreModel, table: TableId) -> &[ColId]
    ensures { result.now ≡ key_columns store.now table }
{
    match store.tables.get(table.index as usize) {
        Some(entry) => entry.key.as_slice(),
        None => &[],
    }
}

// Whether the column of each pair of two lists is one of these.
fn are_both_within(cols: &[ColId], one: &[Pair], other: &[Pair]) -> bool
    ensures { IsTrue result ↔ All (λ pair. Contains cols.now pair.col) (one.now ++ other.now) }
{
    are_within(cols, one) && are_within(cols, other)
}

// Whether the column of each pair is one of these.
fn are_within(cols: &[ColId], pairs: &[Pair]) -> bool
    ensures { IsTrue result ↔ All (λ pair. Contains cols.now pair.col) pairs.now }
{
    pairs.iter().all(|pair| cols.contains(&pair.col))
}

// Whether each of these columns is that of some pair of two lists.
fn are_written(cols: &[ColId], one: &[Pair], other: &[Pair]) -> bool
    ensures { IsTrue result ↔ All (λ col. Contains (map (λ pair. pair.col) (one.now ++ other.now)) col) cols.now }
{
    cols.iter().all(|col| is_written_in(one, other, *col))
}

// Whether the column is that of some pair of two lists.
fn is_written_in(one: &[Pair], other: &[Pair], col: ColId) -> bool
    ensures { IsTrue result ↔ Contains (map (λ pair. pair.col) (one.now ++ other.now)) col }
{
    is_written(one, col) || is_written(other, col)
}

// Whether the column is that of some pair.
fn is_written(pairs: &[Pair], col: ColId) -> bool
    ensures { IsTrue result ↔ Contains (map (λ pair. pair.col) pairs.now) col }
{
    pairs.iter().any(|pair| pair.col == col)
}
