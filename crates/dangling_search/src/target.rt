ghost use Rattle.std.specs.Prelude.{◌≡◌, ◌<◌, IfOk, length};
ghost use Rattle.std.specs.List.{filter_map};
ghost use Rattle.cells.specs.Parts.{AreParts, schema_in};
ghost use Rattle.round_trip.specs.Words.{key_columns};
ghost use Rattle.region_states.specs.region_basis.BasisOf.{basis_of};
ghost use Rattle.dangling_keys.specs.Dangling.{OwnsTable};
ghost use Rattle.dangling_search.specs.Found.{IsOwnedBy, OwnedHere, TargetHere, pairs_by};
ghost use Rattle.dangling_search.specs.Rows.{AreRows, lacking};

use crate::region_rows::{RegionRows, writes};
use cells::{Owner, Parts};
use edm_types::{ForeignKey, Pair, StoreModel};
use emc_base::{ColId, Memory, PropId, Seq, SetId, TableId, put_found};
use regions::Region;
use std::alloc::Global;
use symbolic_rows::copy_region;

/// The set that owns a table, and the pairs of its key with the table's.
#[derive(Drop)]
pub struct Owned {
    /// The set.
    pub set: SetId,
    /// In the order of the primary key.
    pub pairing: Seq<Pair>,
}

/// To what a foreign key points, where a set owns the table.
#[derive(Drop)]
pub struct Target {
    pub owned: Owned,
    /// The regions of the set that have no row of the table, in their order.
    pub lacking: Seq<Region>,
}

/// To what a key points; `None` where no set owns the table, as where nothing writes it. `Memory` comes where memory ran out.
pub fn target_of(
    alloc: Global,
    parts: &Parts<'_>,
    rows: &Seq<Seq<RegionRows>>,
    key: &ForeignKey,
) -> Result<Option<Target>, Memory>
    requires parts { AreParts parts.now }
    requires rows { AreRows (basis_of parts.now) rows.now }
    requires within { key.now.to.index < length parts.now.store.now.tables }
    ensures { IfOk result (TargetHere (basis_of parts.now) key.now) }
{
    let Some(owned) = owned_by(alloc, parts, key.to)? else {
        return Ok(None);
    };
    let lacking = match rows.get(owned.set.index as usize) {
        Some(of_set) => lacking_in(alloc, of_set, key.to)?,
        None => Seq::empty(alloc),
    };
    Ok(Some(Target { owned, lacking }))
}

// The regions that have no row of a table.
fn lacking_in(alloc: Global, rows: &Seq<RegionRows>, table: TableId) -> Result<Seq<Region>, Memory>
    ensures { IfOk result (λ list. list ≡ filter_map (lacking table) rows.now) }
{
    let mut list = Seq::empty(alloc);
    for of_region in rows.as_slice() {
        put_found(&mut list, lacking(of_region, table)?)?;
    }
    Ok(list)
}

// The region, where its entities have no row of a table.
fn lacking(rows: &RegionRows, table: TableId) -> Result<Option<Region>, Memory>
    ensures { IfOk result (λ found. found ≡ lacking table rows.now) }
{
    if writes(rows, table) {
        Ok(None)
    } else {
        Ok(Some(copy_region(&rows.region)?))
    }
}

/// The set that owns a table, with the pairs of their keys; `None` where no set owns it, as where nothing writes it. `Memory` comes where memory ran out.
pub fn owned_by(alloc: Global, parts: &Parts<'_>, table: TableId) -> Result<Option<Owned>, Memory>
    requires parts { AreParts parts.now }
    requires within { table.index < length parts.now.store.now.tables }
    ensures { IfOk result (OwnedHere (basis_of parts.now) table) }
{
    match parts.cells.owner(table) {
        Some(Owner::Set(set)) => Ok(Some(Owned {
            set,
            pairing: pairing_of(alloc, parts, table, set)?,
        })),
        Some(Owner::Assoc(_)) => Ok(None),
        None => Ok(None),
    }
}

// The pairs of the key of the set that owns a table with the table's.
fn pairing_of(
    alloc: Global,
    parts: &Parts<'_>,
    table: TableId,
    set: SetId,
) -> Result<Seq<Pair>, Memory>
    requires parts { AreParts parts.now }
    requires within { table.index < length parts.now.store.now.tables }
    requires owned { IsOwnedBy (schema_in parts.now) table set }
    ensures { IfOk result (OwnsTable (basis_of parts.now) table set) }
{
    let cols = key_columns(parts.store, table);
    let props = parts.cells.pairing(table);
    pairs_by(alloc, cols, props.as_slice())
}

// The columns of a table's primary key.
fn key_columns(store: &StoreModel, table: TableId) -> &[ColId]
    ensures { result.now ≡ key_columns store.now table }
{
    match store.tables.get(table.index as usize) {
        Some(declared) => declared.key.as_slice(),
        None => &[],
    }
}

// Each column with the property that stands beside it.
fn pairs_by(alloc: Global, cols: &[ColId], props: &[PropId]) -> Result<Seq<Pair>, Memory>
    ensures { IfOk result (λ pairs. pairs ≡ pairs_by cols.now props.now) }
{
    let mut pairs = Seq::empty(alloc);
    for (col, prop) in cols.iter().zip(props) {
        pairs.push(Pair {
            prop: *prop,
            col: *col,
        })?;
    }
    Ok(pairs)
}
