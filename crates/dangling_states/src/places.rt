ghost use Rattle.std.specs.Prelude.{◌≡◌, IfOk, map};
ghost use Rattle.cells.specs.Parts.{AreParts};
ghost use Rattle.region_states.specs.region_basis.BasisOf.{basis_of};
ghost use Rattle.region_states.specs.Entities.{focus_entity};
ghost use Rattle.regions.specs.declared.pattern.Focus.TheVariants as focus;
ghost use Rattle.schema_laws.specs.state_demand.Owners.{paired_key};
ghost use Rattle.dangling_keys.specs.DanglingStates.{IsRowPlace};
ghost use Rattle.dangling_states.specs.Referring.{IsReferring, Refers};

use crate::referring::Referring;
use crate::values::flow_entity;
use cells::Parts;
use dangling_search::owned_by;
use edm_types::{Entity, EntityModel, Pair};
use emc_base::{AssocId, Key, Memory, Place, Seq};
use entity_state::value_of;
use regions::{Focus, Region};
use std::alloc::Global;
use witness_state::{fragment_of, plain_link, written_values};

/// The place of the row of the focus in the table from which the key points, with the key's name. `Memory` comes where memory ran out.
pub fn row_place(
    alloc: Global,
    parts: &Parts<'_>,
    referring: Referring<'_>,
) -> Result<Place, Memory>
    requires parts { AreParts parts.now }
    requires referring { IsReferring (basis_of parts.now) referring }
    requires refers { Refers (basis_of parts.now) referring.look.of.now referring.key.now }
    ensures { IfOk result (IsRowPlace (basis_of parts.now) referring.entry.look.of.now referring.entry.key.now) }
{
    match referring.look.of {
        Focus::Entity(region) => entity_place(alloc, parts, referring, region),
        Focus::Link(assoc) => link_place(alloc, parts, referring, *assoc),
    }
}

// The place of the row of an entity.
fn entity_place(
    alloc: Global,
    parts: &Parts<'_>,
    referring: Referring<'_>,
    region: &Region,
) -> Result<Place, Memory>
    requires parts { AreParts parts.now }
    requires referring { IsReferring (basis_of parts.now) referring }
    requires refers { Refers (basis_of parts.now) referring.look.of.now referring.key.now }
    requires of { referring.look.of.now ≡ focus.Entity region.now }
    ensures { IfOk result (IsRowPlace (basis_of parts.now) (focus.Entity region.now) referring.entry.key.now) }
{
    let table = parts.store.tables.at(referring.key.from.index as usize);
    let Some(owned) = owned_by(alloc, parts, referring.key.from)? else {
        unreachable!()
    };
    let entity = flow_entity(alloc, parts, referring.row, region, referring.not_null)?;
    Ok(Place {
        name: table.name.copy(alloc)?,
        key: paired_values(alloc, parts.model, &entity, owned.pairing.as_slice())?,
        part: referring.key.name.copy(alloc)?,
    })
}

// The values of an entity in these pairs.
fn paired_values(
    alloc: Global,
    model: &EntityModel,
    entity: &Entity,
    pairs: &[Pair],
) -> Result<Key, Memory>
    ensures { IfOk result (λ key. key ≡ paired_key model.now pairs.now entity.now) }
{
    let mut key = Seq::empty(alloc);
    for pair in pairs {
        key.push(value_of(alloc, model, entity, pair.prop)?)?;
    }
    Ok(key)
}

// The place of the row of a link.
fn link_place(
    alloc: Global,
    parts: &Parts<'_>,
    referring: Referring<'_>,
    assoc: AssocId,
) -> Result<Place, Memory>
    requires parts { AreParts parts.now }
    requires referring { IsReferring (basis_of parts.now) referring }
    requires refers { Refers (basis_of parts.now) referring.look.of.now referring.key.now }
    requires of { referring.look.of.now ≡ focus.Link assoc }
    ensures { IfOk result (IsRowPlace (basis_of parts.now) (focus.Link assoc) referring.entry.key.now) }
{
    let table = parts.store.tables.at(referring.key.from.index as usize);
    let declared = parts.model.assocs.at(assoc.index as usize);
    let fragment = fragment_of(parts, referring.key.from);
    let link = plain_link(alloc, parts.model, referring.row, declared)?;
    let cols = table.key.as_slice();
    Ok(Place {
        name: table.name.copy(alloc)?,
        key: written_values(alloc, parts.model, declared, fragment, &link, cols)?,
        part: referring.key.name.copy(alloc)?,
    })
}
