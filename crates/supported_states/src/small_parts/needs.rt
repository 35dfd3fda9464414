ghost use Rattle.std.specs.Prelude.{◌≡◌, ◌≤◌, ◌++◌, ◌∷◌, [], IfOk};
ghost use Rattle.population.specs.Made.{needs_of};
ghost use Rattle.population.specs.Supported.{has_own_link, lacks_link, links_of};
ghost use Rattle.supported_states.specs.small_parts.Sides.{added_partners, far_key, given_partners, is_asking, is_own_link, needs_beside, partners_at_side, partners_beside, partners_of_assoc};

use crate::asking::add_principals;
use crate::declared::{derives, end_key, end_of, has_key, is_independent, is_one};
use crate::numbers::{end_number, numbered_key};
use crate::small_parts::sought::{Sought, entities_sought};
use crate::spots::Pick;
use edm_types::{Assoc, Entity, EntityModel};
use emc_base::{AssocId, Key, Memory, Seq, SetId};
use population::{PlacedKey, PlacedLink, Supporting};
use std::alloc::Global;

/// One side of an association: whether it is the first, and the association.
#[derive(Clone, Copy)]
pub(crate) struct Side<'m> {
    pub(crate) first: bool,
    pub(crate) id: AssocId,
    pub(crate) assoc: &'m Assoc,
}

// The entities of a key in a set, and of what the state is made in which they stand.
#[derive(Clone, Copy)]
struct Seat<'s> {
    model: &'s EntityModel,
    row: u32,
    one: &'s Supporting,
    placed: &'s PlacedKey,
    entities: &'s [Entity],
}

/// What the entity with a key needs in a supported state: its principals, and the partners that are asked of it. `Memory` comes where memory
/// ran out.
pub(crate) fn needs_of(
    alloc: Global,
    model: &EntityModel,
    row: u32,
    one: &Supporting,
    placed: &PlacedKey,
) -> Result<Seq<PlacedKey>, Memory>
    requires { row ≤ 4 }
    ensures { IfOk result (λ needs. needs ≡ needs_of model.now row one.now placed.now) }
{
    let sought = Sought {
        model,
        row,
        one,
        pick: Pick::At(&placed.key),
    };
    let entities = entities_sought(alloc, &sought, placed.set)?;
    let seat = Seat {
        model,
        row,
        one,
        placed,
        entities: entities.as_slice(),
    };
    needs_at(alloc, &seat)
}

// What these entities need.
fn needs_at(alloc: Global, seat: &Seat<'_>) -> Result<Seq<PlacedKey>, Memory>
    requires { seat.now.row ≤ 4 }
    ensures { IfOk result (λ needs. needs ≡ needs_beside seat.now) }
{
    let mut needs = Seq::empty(alloc);
    for entity in seat.entities {
        add_principals(alloc, seat.model, seat.placed.set, entity, &mut needs)?;
    }
    add_partners(alloc, seat, &mut needs)?;
    Ok(needs)
}

// Adds the partners that are asked of them.
fn add_partners(alloc: Global, seat: &Seat<'_>, needs: &mut Seq<PlacedKey>) -> Result<(), Memory>
    requires { seat.now.row ≤ 4 }
    ensures { IfOk result (λ _. needs.new ≡ needs.old ++ partners_beside seat.now) }
{
    for (index, assoc) in seat.model.assocs.as_slice().iter().enumerate() {
        let id = AssocId {
            index: index as u32,
        };
        add_both(alloc, seat, id, assoc, needs)?;
    }
    Ok(())
}

// Adds the partners that an association asks of them, at either end.
fn add_both(
    alloc: Global,
    seat: &Seat<'_>,
    id: AssocId,
    assoc: &Assoc,
    needs: &mut Seq<PlacedKey>,
) -> Result<(), Memory>
    requires { seat.now.row ≤ 4 }
    ensures { IfOk result (λ _. needs.new ≡ needs.old ++ partners_of_assoc seat.now (id.index, assoc.now)) }
{
    let first = Side {
        first: true,
        id,
        assoc,
    };
    let second = Side {
        first: false,
        id,
        assoc,
    };
    add_at_side(alloc, seat, &first, needs)?;
    add_at_side(alloc, seat, &second, needs)
}

// Adds the partners that the other side asks of them, where its multiplicity is `1`.
fn add_at_side(
    alloc: Global,
    seat: &Seat<'_>,
    side: &Side<'_>,
    needs: &mut Seq<PlacedKey>,
) -> Result<(), Memory>
    requires { seat.now.row ≤ 4 }
    ensures { IfOk result (λ _. needs.new ≡ needs.old ++ partners_at_side seat.now side.now.first side.now.id side.now.assoc.now) }
{
    if !is_asking(side, seat.placed.set) {
        return Ok(());
    }
    add_given_partners(
        alloc,
        side,
        seat.one.links.as_slice(),
        &seat.placed.key,
        needs,
    )?;
    add_added_partners(alloc, seat, side, needs)
}

// Whether the other side asks for exactly one partner of the entities of a set.
fn is_asking(side: &Side<'_>, set: SetId) -> bool
    ensures { result ≡ is_asking side.now.first side.now.id side.now.assoc.now set }
{
    is_independent(side.assoc)
        && is_one(end_of(!side.first, side.assoc).mult)
        && end_of(side.first, side.assoc).set.index == set.index
}

// Adds the partners to which given links lead from a key.
fn add_given_partners(
    alloc: Global,
    side: &Side<'_>,
    links: &[PlacedLink],
    key: &Key,
    needs: &mut Seq<PlacedKey>,
) -> Result<(), Memory>
    ensures { IfOk result (λ _. needs.new ≡ needs.old ++ given_partners side.now.first side.now.id side.now.assoc.now key.now links.now) }
{
    for placed in links {
        add_given_partner(alloc, side, placed, key, needs)?;
    }
    Ok(())
}

// Adds the partner to which a given link leads from a key, if it does.
fn add_given_partner(
    alloc: Global,
    side: &Side<'_>,
    placed: &PlacedLink,
    key: &Key,
    needs: &mut Seq<PlacedKey>,
) -> Result<(), Memory>
    ensures { IfOk result (λ _. needs.new ≡ needs.old ++ given_partners side.now.first side.now.id side.now.assoc.now key.now (placed.now ∷ [])) }
{
    if placed.assoc.index != side.id.index || end_key(side.first, &placed.link) != key {
        return Ok(());
    }
    let partner = end_key(!side.first, &placed.link).copy(alloc)?;
    needs.push(PlacedKey {
        set: end_of(!side.first, side.assoc).set,
        key: partner,
    })
}

// Adds the partners to which links lead that are added for these entities.
fn add_added_partners(
    alloc: Global,
    seat: &Seat<'_>,
    side: &Side<'_>,
    needs: &mut Seq<PlacedKey>,
) -> Result<(), Memory>
    requires { seat.now.row ≤ 4 }
    ensures { IfOk result (λ _. needs.new ≡ needs.old ++ added_partners seat.now side.now.first side.now.id side.now.assoc.now seat.now.entities.now) }
{
    for entity in seat.entities {
        add_added_partner(alloc, seat, side, entity, needs)?;
    }
    Ok(())
}

// Adds the partner to which a link leads that is added for an entity, if one is.
fn add_added_partner(
    alloc: Global,
    seat: &Seat<'_>,
    side: &Side<'_>,
    entity: &Entity,
    needs: &mut Seq<PlacedKey>,
) -> Result<(), Memory>
    requires { seat.now.row ≤ 4 }
    ensures { IfOk result (λ _. needs.new ≡ needs.old ++ added_partners seat.now side.now.first side.now.id side.now.assoc.now (entity.now ∷ [])) }
{
    if !lacks_link(seat.model, side, seat.one.links.as_slice(), entity) {
        return Ok(());
    }
    let key = far_key(alloc, seat.model, seat.row, side)?;
    needs.push(PlacedKey {
        set: end_of(!side.first, side.assoc).set,
        key,
    })
}

/// The key at the other side of a link that is added. `Memory` comes where memory ran out.
pub(crate) fn far_key(
    alloc: Global,
    model: &EntityModel,
    row: u32,
    side: &Side<'_>,
) -> Result<Key, Memory>
    requires { row ≤ 4 }
    ensures { IfOk result (λ key. key ≡ far_key side.now.first side.now.id side.now.assoc.now model.now row) }
{
    let number = end_number(!side.first, side.id)?;
    numbered_key(
        alloc,
        model,
        row,
        end_of(!side.first, side.assoc).set,
        number,
    )
}

/// Whether an entity is to have a link at a side, and none of these is its own.
pub(crate) fn lacks_link(
    model: &EntityModel,
    side: &Side<'_>,
    links: &[PlacedLink],
    entity: &Entity,
) -> bool
    ensures { result ≡ lacks_link model.now side.now.first side.now.assoc.now (links_of links.now side.now.id) entity.now }
{
    derives(model, entity.ty, end_of(side.first, side.assoc).ty)
        && !has_own_link(model, side, links, entity)
}

// Whether one of these links is an entity's own.
fn has_own_link(model: &EntityModel, side: &Side<'_>, links: &[PlacedLink], entity: &Entity) -> bool
    ensures { result ≡ has_own_link model.now side.now.first (links_of links.now side.now.id) entity.now }
{
    links
        .iter()
        .any(|placed| is_own_link(model, side, placed, entity))
}

// Whether a link is one of the association, and an entity's own.
fn is_own_link(model: &EntityModel, side: &Side<'_>, placed: &PlacedLink, entity: &Entity) -> bool
    ensures { result ≡ is_own_link side.now.first side.now.id side.now.assoc.now model.now entity.now placed.now }
{
    placed.assoc.index == side.id.index && has_key(model, entity, end_key(side.first, &placed.link))
}
