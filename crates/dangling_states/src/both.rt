ghost use Rattle.std.specs.Prelude.{◌≡◌, ◌∷◌, ◌≤◌, [], IfOk, filter, flat_map};
ghost use Rattle.std.specs.List.{cons_option};
ghost use Rattle.cells.specs.Parts.{AreParts};
ghost use Rattle.population.specs.Principals.{principals};
ghost use Rattle.region_states.specs.region_basis.BasisOf.{basis_of};
ghost use Rattle.witness_state.specs.SmallRegions.{supporting};
ghost use Rattle.dangling_keys.specs.DanglingStates.{IsSupportedWhole, both_state};
ghost use Rattle.dangling_states.specs.Numbers.{stays};
ghost use Rattle.dangling_states.specs.Referring.{IsReferring};

use crate::lone::lone_given;
use crate::partners::{add_partner_links, add_partner_roots};
use crate::principal::principal_entity;
use crate::referring::Referring;
use cells::Parts;
use edm_types::{Entity, EntityModel, Pair};
use emc_base::{Key, Memory, Seq, SetId, put_found};
use entity_state::{EntityState, key_of};
use population::{Placed, PlacedKey, PlacedLink, Supporting};
use regions::Region;
use std::alloc::Global;
use supported_states::{small_state, support};
use witness_state::{add_keys, add_principals, linked_hosts};

/// The small state of the focus and of the entity of a region that has the key that is shown, in place of a partner or an end of the link at this key: with its
/// links to entities of numbers, and what both need. `Memory` comes where memory ran out.
pub fn both_state(
    alloc: Global,
    parts: &Parts<'_>,
    referring: Referring<'_>,
    pairing: &[Pair],
    region: &Region,
) -> Result<EntityState, Memory>
    requires parts { AreParts parts.now }
    requires referring { IsReferring (basis_of parts.now) referring }
    requires supported { IsSupportedWhole (basis_of parts.now) referring.look.of.now referring.key.now pairing.now region.now }
    ensures { IfOk result (λ state. state ≡ both_state (basis_of parts.now) referring.entry.look.of.now referring.entry.key.now pairing.now region.now) }
{
    let entity = principal_entity(alloc, parts, referring, pairing, region)?;
    let key = key_of(alloc, parts.model, &entity)?;
    let hosts = linked_hosts(alloc, parts, region)?;
    let lone = lone_given(alloc, parts, referring)?;
    let mut roots = Seq::empty(alloc);
    add_keys(alloc, parts.model, lone.given.as_slice(), &mut roots)?;
    let mut links = lone.links;
    add_partner_links(
        alloc,
        parts,
        referring.row,
        hosts.as_slice(),
        &key,
        &mut links,
    )?;
    let given = in_place(alloc, parts.model, region.set, entity, &key, lone.given)?;
    roots.push(PlacedKey {
        set: region.set,
        key,
    })?;
    add_partner_roots(alloc, parts, referring.row, hosts.as_slice(), &mut roots)?;
    let one = with_support(alloc, parts.model, referring.row, given, links)?;
    small_state(alloc, parts.model, referring.row, &one, &roots)
}

// An entity of a set, and those of these that have another key, or are of another set.
fn in_place(
    alloc: Global,
    model: &EntityModel,
    set: SetId,
    entity: Entity,
    key: &Key,
    given: Seq<Placed>,
) -> Result<Seq<Placed>, Memory>
    ensures { IfOk result (λ all. all ≡ record { set = set; entity = entity } ∷ filter (stays model.now set key.now) given) }
{
    let mut all = Seq::empty(alloc);
    all.push(Placed { set, entity })?;
    for placed in given.into_vec() {
        put_found(&mut all, staying(alloc, model, set, key, placed)?)?;
    }
    Ok(all)
}

// The entity, where it has another key, or is of another set.
fn staying(
    alloc: Global,
    model: &EntityModel,
    set: SetId,
    key: &Key,
    placed: Placed,
) -> Result<Option<Placed>, Memory>
    ensures { IfOk result (λ found. cons_option found [] ≡ filter (stays model.now set key.now) (placed ∷ [])) }
{
    if stays(alloc, model, set, key, &placed)? {
        Ok(Some(placed))
    } else {
        Ok(None)
    }
}

// Whether an entity has another key, or is of another set.
fn stays(
    alloc: Global,
    model: &EntityModel,
    set: SetId,
    key: &Key,
    placed: &Placed,
) -> Result<bool, Memory>
    ensures { IfOk result (λ kept. kept ≡ stays model.now set key.now placed.now) }
{
    if placed.set.index != set.index {
        return Ok(true);
    }
    let own = key_of(alloc, model, &placed.entity)?;
    Ok(own != *key)
}

// Entities and links, with the support of what these entities ask for.
fn with_support(
    alloc: Global,
    model: &EntityModel,
    row: u32,
    given: Seq<Placed>,
    links: Seq<PlacedLink>,
) -> Result<Supporting, Memory>
    requires { row ≤ 4 }
    ensures { IfOk result (λ one. one
        ≡ supporting model.now row given (flat_map (λ placed. principals model.now placed.set placed.entity) given) links) }
{
    let mut wanted = Seq::empty(alloc);
    add_principals(alloc, model, given.as_slice(), &mut wanted)?;
    let keys = support(alloc, model, row, &given, &wanted)?;
    Ok(Supporting { given, keys, links })
}
