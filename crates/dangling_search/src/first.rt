ghost use Rattle.std.specs.Prelude.{◌≡◌, ◌<◌, ◌↔◌, IfOk, IsSome, IsTrue, None, Some, length, map};
ghost use Rattle.std.specs.Option.{option_copied};
ghost use Rattle.cells.specs.Parts.{AreParts, schema_in};
ghost use Rattle.round_trip.specs.Words.{SetId};
ghost use Rattle.round_trip.specs.declared.FailKind.TheVariants as fails;
ghost use Rattle.regions.specs.Regions.{regions_of};
ghost use Rattle.regions.specs.declared.pattern.Focus.TheVariants as focus;
ghost use Rattle.region_partition.specs.set_regions.Regions.{AreRegions};
ghost use Rattle.region_states.specs.region_basis.BasisOf.{basis_of};
ghost use Rattle.region_states.specs.conflicts.There.{NoneFailsBy};
ghost use Rattle.dangling_keys.specs.Dangling.{IsRowFocus, IsDangling};
ghost use Rattle.dangling_keys.specs.declared.key.DanglingKey.{DanglingKey};
ghost use Rattle.dangling_search.specs.Found.{TargetHere};
ghost use Rattle.dangling_search.specs.Rows.{AreRows, region_rows};
ghost use Rattle.dangling_search.specs.Searched.{FindsAt, FindsIn, FindsKey, FindsRegion, IsJoinedPlace, SomeFails};

use crate::at_focus::at_focus;
use crate::region_rows::{RegionRows, rows_of_sets, writes};
use crate::target::{Target, target_of};
use cells::{LinkPlace, Owner, Parts};
use dangling_keys::DanglingKey;
use edm_types::ForeignKey;
use emc_base::{AssocId, FkId, Memory, Seq, SetId};
use region_states::parts_are_a_basis;
use regions::{Focus, Region};
use std::alloc::Global;
use symbolic_rows::focus_on;

// A focus at which a key dangles, and whose row is missing.
#[derive(Drop)]
struct Spot {
    of: Focus,
    principal: Option<Region>,
}

/// The first foreign key that dangles, with a focus at which it does; `None` exactly where none dangles. The regions are to be those of all sets. Where no
/// legal state clashes, that is exactly where no legal state has a row that refers by a key and finds none. At which of several focuses it is told no clause
/// says. Looked at are the regions of the set that owns the key's table, or the links of the association that does. `Memory` comes where memory ran out.
pub fn first_dangling(
    alloc: Global,
    parts: &Parts<'_>,
    regions: &Seq<Seq<Region>>,
) -> Result<Option<DanglingKey>, Memory>
    requires parts { AreParts parts.now }
    requires regions { AreRegions (basis_of parts.now) regions.now }
    ensures told { IfOk result (λ found. (told : DanglingKey) → found ≡ Some told → IsDangling (basis_of parts.now) told) }
    ensures free { IfOk result (λ found. found ≡ None → (told : DanglingKey) → ¬ IsDangling (basis_of parts.now) told) }
    ensures exact { NoneFailsBy (schema_in parts.now) fails.Clash → IfOk result (λ found. IsSome found ↔ SomeFails (schema_in parts.now)) }
{
    parts_are_a_basis();
    search(alloc, parts, regions)
}

// The same, by the facts alone.
fn search(
    alloc: Global,
    parts: &Parts<'_>,
    regions: &Seq<Seq<Region>>,
) -> Result<Option<DanglingKey>, Memory>
    requires parts { AreParts parts.now }
    requires regions { AreRegions (basis_of parts.now) regions.now }
    ensures told { IfOk result (λ found. (told : DanglingKey) → found ≡ Some told → IsDangling (basis_of parts.now) told) }
    ensures free { IfOk result (λ found. found ≡ None → (told : DanglingKey) → ¬ IsDangling (basis_of parts.now) told) }
{
    if parts.store.keys.is_empty() {
        return Ok(None);
    }
    let rows = rows_of_sets(alloc, parts, regions)?;
    let found = by_keys(alloc, parts, &rows);
    drop(rows);
    found
}

// The same, by the tables of each region.
fn by_keys(
    alloc: Global,
    parts: &Parts<'_>,
    rows: &Seq<Seq<RegionRows>>,
) -> Result<Option<DanglingKey>, Memory>
    requires parts { AreParts parts.now }
    requires rows { AreRows (basis_of parts.now) rows.now }
    ensures told { IfOk result (λ found. (told : DanglingKey) → found ≡ Some told → IsDangling (basis_of parts.now) told) }
    ensures free { IfOk result (λ found. found ≡ None → (told : DanglingKey) → ¬ IsDangling (basis_of parts.now) told) }
{
    for (index, key) in parts.store.keys.as_slice().iter().enumerate() {
        if let Some(spot) = by_key(alloc, parts, rows, key)? {
            return Ok(Some(DanglingKey {
                focus: spot.of,
                key: FkId {
                    index: index as u32,
                },
                principal: spot.principal,
            }));
        }
    }
    Ok(None)
}

// A focus at which a key dangles.
fn by_key(
    alloc: Global,
    parts: &Parts<'_>,
    rows: &Seq<Seq<RegionRows>>,
    key: &ForeignKey,
) -> Result<Option<Spot>, Memory>
    requires parts { AreParts parts.now }
    requires rows { AreRows (basis_of parts.now) rows.now }
    requires within { key.now.to.index < length parts.now.store.now.tables }
    requires from { key.now.from.index < length parts.now.store.now.tables }
    ensures { IfOk result (FindsKey (basis_of parts.now) key.now) }
{
    let target = target_of(alloc, parts, rows, key)?;
    by_target(alloc, parts, rows, key, target.as_ref())
}

// The same, where it is known to what the key points. Only the set or the association that owns the table from which it points has rows there.
fn by_target(
    alloc: Global,
    parts: &Parts<'_>,
    rows: &Seq<Seq<RegionRows>>,
    key: &ForeignKey,
    target: Option<&Target>,
) -> Result<Option<Spot>, Memory>
    requires parts { AreParts parts.now }
    requires rows { AreRows (basis_of parts.now) rows.now }
    requires within { key.now.from.index < length parts.now.store.now.tables }
    requires target { TargetHere (basis_of parts.now) key.now (option_copied target) }
    ensures { IfOk result (FindsKey (basis_of parts.now) key.now) }
{
    match parts.cells.owner(key.from) {
        Some(Owner::Set(set)) => in_owner(alloc, parts, rows, key, target, set),
        Some(Owner::Assoc(assoc)) => at_links(alloc, parts, key, target, assoc),
        None => Ok(None),
    }
}

// One of the regions of the set that owns the table.
fn in_owner(
    alloc: Global,
    parts: &Parts<'_>,
    rows: &Seq<Seq<RegionRows>>,
    key: &ForeignKey,
    target: Option<&Target>,
    set: SetId,
) -> Result<Option<Spot>, Memory>
    requires parts { AreParts parts.now }
    requires rows { AreRows (basis_of parts.now) rows.now }
    requires target { TargetHere (basis_of parts.now) key.now (option_copied target) }
    ensures { IfOk result (FindsIn (basis_of parts.now) key.now (regions_of (basis_of parts.now) set)) }
{
    match rows.get(set.index as usize) {
        Some(of_set) => in_set(alloc, parts, key, target, of_set),
        None => Ok(None),
    }
}

// One of the regions of a set at which it does.
fn in_set(
    alloc: Global,
    parts: &Parts<'_>,
    key: &ForeignKey,
    target: Option<&Target>,
    rows: &Seq<RegionRows>,
) -> Result<Option<Spot>, Memory>
    requires parts { AreParts parts.now }
    requires target { TargetHere (basis_of parts.now) key.now (option_copied target) }
    requires rows { (s : SetId) × (rows.now ≡ map (region_rows (basis_of parts.now)) (regions_of (basis_of parts.now) s)) }
    ensures { IfOk result (FindsIn (basis_of parts.now) key.now (map (λ one. one.region) rows.now)) }
{
    for of_region in rows.as_slice() {
        if let Some(spot) = at_region(alloc, parts, key, target, of_region)? {
            return Ok(Some(spot));
        }
    }
    Ok(None)
}

// The entity of a region, where it dangles there. Only where it has a row of the key's table its pattern is made again.
fn at_region(
    alloc: Global,
    parts: &Parts<'_>,
    key: &ForeignKey,
    target: Option<&Target>,
    rows: &RegionRows,
) -> Result<Option<Spot>, Memory>
    requires parts { AreParts parts.now }
    requires target { TargetHere (basis_of parts.now) key.now (option_copied target) }
    requires rows { rows.now ≡ region_rows (basis_of parts.now) rows.now.region }
    requires focus { IsRowFocus (basis_of parts.now) (focus.Entity rows.now.region) }
    ensures { IfOk result (FindsRegion (basis_of parts.now) key.now rows.now.region) }
{
    if !writes(rows, key.from) {
        return Ok(None);
    }
    let of = focus_on(&rows.region)?;
    match at_focus(alloc, parts, key, target, &of)? {
        Some(principal) => Ok(Some(Spot { of, principal })),
        None => Ok(None),
    }
}

// The links of an association, where it dangles there.
fn at_links(
    alloc: Global,
    parts: &Parts<'_>,
    key: &ForeignKey,
    target: Option<&Target>,
    assoc: AssocId,
) -> Result<Option<Spot>, Memory>
    requires parts { AreParts parts.now }
    requires target { TargetHere (basis_of parts.now) key.now (option_copied target) }
    requires within { assoc.index < length parts.now.model.now.assocs }
    ensures { IfOk result (FindsAt (basis_of parts.now) key.now assoc) }
{
    if !has_table(parts, assoc) {
        return Ok(None);
    }
    let of = Focus::Link(assoc);
    match at_focus(alloc, parts, key, target, &of)? {
        Some(principal) => Ok(Some(Spot { of, principal })),
        None => Ok(None),
    }
}

// Whether the links of an association have a table of their own.
fn has_table(parts: &Parts<'_>, assoc: AssocId) -> bool
    requires parts { AreParts parts.now }
    requires within { assoc.index < length parts.now.model.now.assocs }
    ensures { IsTrue result ↔ IsRowFocus (basis_of parts.now) (focus.Link assoc) }
{
    is_joined(parts.cells.link_place(assoc))
}

// Whether links are rows of a table of their own.
fn is_joined(place: LinkPlace) -> bool
    ensures { IsTrue result ↔ IsJoinedPlace place }
{
    match place {
        LinkPlace::Joined(_) => true,
        _ => false,
    }
}
