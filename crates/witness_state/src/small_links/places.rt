ghost use Rattle.std.specs.Prelude.{◌≡◌, ◌<◌, ◌++◌, [], Contains, IfOk, if◌then◌else◌, length};
ghost use Rattle.cells.specs.Parts.{AreParts, schema_in};
ghost use Rattle.failure_laws.specs.Places.{IsFragment, IsLinkCell, IsSharedCell};
ghost use Rattle.population.specs.LinkStates.{plain_link};
ghost use Rattle.region_states.specs.conflicts.Conflicts.{IsTableOf};
ghost use Rattle.region_states.specs.focus.Held.{HasRow};
ghost use Rattle.region_states.specs.region_basis.BasisOf.{basis_of};
ghost use Rattle.regions.specs.Patterns.{pattern_of};
ghost use Rattle.regions.specs.declared.pattern.Focus.TheVariants as focus;
ghost use Rattle.round_trip.specs.FailsAt.{HasColumn};
ghost use Rattle.round_trip.specs.Words.{At, Column, Table, place_at};
ghost use Rattle.table_owners.specs.declared.places.LinkPlace.TheVariants as place;

use crate::small_links::ends::{at_end, entity_at, plain_link};
use crate::small_links::host_rows::{end_in_row, row_in};
use crate::small_links::written::{fragment_of, written_values};
use cells::Parts;
use edm_types::{Assoc, EntityModel, LinkFragment, Pair};
use emc_base::{AssocId, ColId, Key, LinkFragId, Memory, Place, Seq, TableId, Txt};
use entity_state::values_of;
use regions::{Pattern, Region};
use std::alloc::Global;

/// The keys of both ends of the plain link, at a fragment of this name. `Memory` comes where memory ran out.
pub fn link_keys_place(
    alloc: Global,
    model: &EntityModel,
    name: &Txt,
    declared: &Assoc,
) -> Result<Place, Memory>
    ensures { IfOk result (λ place. place
        ≡ place_at name.now ((plain_link model.now 0 declared.now).first ++ (plain_link model.now 0 declared.now).second) []) }
{
    let link = plain_link(alloc, model, 0, declared)?;
    Ok(Place {
        name: name.copy(alloc)?,
        key: joined(alloc, &link.first, &link.second)?,
        part: Txt::of(alloc, "")?,
    })
}

// One key behind the other.
fn joined(alloc: Global, first: &Key, second: &Key) -> Result<Key, Memory>
    ensures { IfOk result (λ key. key ≡ first.now ++ second.now) }
{
    let mut key = first.copy(alloc)?;
    for value in second.as_slice() {
        key.push(value.copy(alloc)?)?;
    }
    Ok(key)
}

/// The place of an unmapped association set as a whole: its name, and no key. `Memory` comes where memory ran out.
pub fn unmapped_place(alloc: Global, declared: &Assoc) -> Result<Place, Memory>
    ensures { IfOk result (λ place. place ≡ place_at declared.now.set_name [] []) }
{
    Ok(Place {
        name: declared.set_name.copy(alloc)?,
        key: Seq::empty(alloc),
        part: Txt::of(alloc, "")?,
    })
}

/// The place of a cell in the row of the plain link of an association, in its own table. `Memory` comes where memory ran out.
pub fn link_cell_place(
    alloc: Global,
    parts: &Parts<'_>,
    assoc: AssocId,
    table: TableId,
    col: ColId,
) -> Result<Place, Memory>
    requires parts { AreParts parts.now }
    requires of_table { IsTableOf (basis_of parts.now) assoc table }
    requires column { (one : Table) × (column : Column) × HasColumn (schema_in parts.now) table one col column }
    ensures { IfOk result (λ place. IsLinkCell (basis_of parts.now) assoc table col place) }
{
    let entry = parts.store.tables.at(table.index as usize);
    let column = entry.cols.at(col.index as usize);
    let declared = parts.model.assocs.at(assoc.index as usize);
    let fragment = fragment_of(parts, table);
    let link = plain_link(alloc, parts.model, 0, declared)?;
    let cols = entry.key.as_slice();
    Ok(Place {
        name: entry.name.copy(alloc)?,
        key: written_values(alloc, parts.model, declared, fragment, &link, cols)?,
        part: column.name.copy(alloc)?,
    })
}

/// A cell in the row of the entity that has two partners, where the association's link fragment writes a part of a partner's key. `Memory`
/// comes where memory ran out.
pub fn shared_cell_place(
    alloc: Global,
    parts: &Parts<'_>,
    assoc: AssocId,
    first_hosts: bool,
    fragment: LinkFragId,
) -> Result<Place, Memory>
    requires parts { AreParts parts.now }
    requires told { At parts.now.cells.now.places assoc.index (place.Hosted first_hosts fragment) }
    ensures { IfOk result (IsSharedCell (basis_of parts.now) assoc) }
{
    let declared = parts.model.assocs.at(assoc.index as usize);
    let writing = parts.mapping.links.at(fragment.index as usize);
    let pair = partner_pair(first_hosts, writing);
    let table = parts.store.tables.at(writing.table.index as usize);
    let column = table.cols.at(pair.col.index as usize);
    let pairing = parts.cells.pairing(writing.table);
    let entity = entity_at(alloc, parts.model, 0, &at_end(first_hosts, declared))?;
    Ok(Place {
        name: table.name.copy(alloc)?,
        key: values_of(alloc, parts.model, &entity, pairing.as_slice())?,
        part: column.name.copy(alloc)?,
    })
}

// The first pair of the end at which the partner stands.
fn partner_pair(first_hosts: bool, fragment: &LinkFragment) -> &Pair
    requires { 0 < length (if first_hosts then fragment.now.second else fragment.now.first) }
    ensures { At (if first_hosts then fragment.now.second else fragment.now.first) 0 result.now }
{
    if first_hosts {
        fragment.second.at(0)
    } else {
        fragment.first.at(0)
    }
}

/// The place of a link fragment of a table of the region's set, with the keys of both ends as the row of the usual entity holds them.
/// `Memory` comes where memory ran out.
pub fn host_row_place(
    alloc: Global,
    parts: &Parts<'_>,
    region: &Region,
    name: &Txt,
    fragment: &LinkFragment,
    pattern: &Pattern,
) -> Result<Place, Memory>
    requires parts { AreParts parts.now }
    requires pattern { pattern.now ≡ pattern_of (basis_of parts.now) (focus.Entity region.now) }
    requires mapped { Contains (schema_in parts.now).mapping.links fragment.now }
    requires row { HasRow (pattern_of (basis_of parts.now) (focus.Entity region.now)) fragment.now.table }
    requires named { fragment.now.place ≡ name.now }
    ensures { IfOk result (IsFragment (basis_of parts.now) (focus.Entity region.now) name.now) }
{
    let declared = parts.model.assocs.at(fragment.assoc.index as usize);
    let row = row_in(pattern, fragment.table);
    let pairs = fragment.first.as_slice();
    let first = end_in_row(alloc, parts, region, row, declared.first.ty, pairs)?;
    let pairs = fragment.second.as_slice();
    let second = end_in_row(alloc, parts, region, row, declared.second.ty, pairs)?;
    Ok(Place {
        name: name.copy(alloc)?,
        key: joined(alloc, &first, &second)?,
        part: Txt::of(alloc, "")?,
    })
}
