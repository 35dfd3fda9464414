ghost use Rattle.std.specs.Prelude.{true, false, ◌≡◌, ◌≤◌, ◌++◌, ◌∷◌, [], ◌&&◌, IfOk, length, map};
ghost use Rattle.schema_laws.specs.short_values.Numbers.{numbers_from};
ghost use Rattle.population.specs.Made.{part_made};
ghost use Rattle.population.specs.Kept.{key_at_end};
ghost use Rattle.population.specs.Supported.{added_link};
ghost use Rattle.supported_states.specs.small_parts.Parts.{are_sought, given_links, links_added, links_at, links_lacking, links_sought};
ghost use Rattle.supported_states.specs.Spots.{holds, passes};

use crate::declared::{end_key, end_of, is_independent, is_one};
use crate::small_parts::needs::{Side, far_key, lacks_link};
use crate::small_parts::sought::{Sought, entities_sought};
use crate::spots::{Pick, Spot, passes};
use edm_types::{Assoc, Entity, EntityModel, Link};
use emc_base::{AssocId, Memory, Seq, SetId};
use entity_state::{EntityState, entities_at, key_of};
use population::{PlacedLink, Supporting};
use std::alloc::Global;
use std::collections::BTreeSet;

/// The part of a supported state that holds what was found. `Memory` comes where memory ran out.
pub(crate) fn part_made(
    alloc: Global,
    model: &EntityModel,
    row: u32,
    one: &Supporting,
    found: &BTreeSet<Spot>,
) -> Result<EntityState, Memory>
    requires { row ≤ 4 }
    ensures { IfOk result (λ state. state ≡ part_made model.now row one.now (holds found.now)) }
{
    let sought = Sought {
        model,
        row,
        one,
        pick: Pick::Among(found),
    };
    let entities = entity_lists(alloc, &sought)?;
    let links = link_lists(alloc, &sought, entities.as_slice())?;
    Ok(EntityState::of_lists(entities, links))
}

// The entities of each set that are looked for.
fn entity_lists(alloc: Global, sought: &Sought<'_>) -> Result<Vec<Seq<Entity>>, Memory>
    requires { sought.now.row ≤ 4 }
    ensures { IfOk result (λ lists. lists.items ≡ are_sought sought.now) }
{
    let mut lists = Vec::new(alloc);
    for index in 0..sought.model.sets.len() {
        let set = SetId {
            index: index as u32,
        };
        lists.push(entities_sought(alloc, sought, set)?)?;
    }
    Ok(lists)
}

// The links of each association between them.
fn link_lists(
    alloc: Global,
    sought: &Sought<'_>,
    entities: &[Seq<Entity>],
) -> Result<Vec<Seq<Link>>, Memory>
    requires row { sought.now.row ≤ 4 }
    requires sought { entities.now ≡ are_sought sought.now }
    ensures { IfOk result (λ lists. lists.items ≡ map (links_at sought.now) (numbers_from 0 (length sought.now.model.now.assocs))) }
{
    let mut lists = Vec::new(alloc);
    for index in 0..sought.model.assocs.len() {
        let id = AssocId {
            index: index as u32,
        };
        lists.push(links_at(alloc, sought, entities, id)?)?;
    }
    Ok(lists)
}

// The links of an association between them; none where there is no such association.
fn links_at(
    alloc: Global,
    sought: &Sought<'_>,
    entities: &[Seq<Entity>],
    id: AssocId,
) -> Result<Seq<Link>, Memory>
    requires row { sought.now.row ≤ 4 }
    requires sought { entities.now ≡ are_sought sought.now }
    ensures { IfOk result (λ links. links ≡ links_at sought.now id.index) }
{
    let mut links = Seq::empty(alloc);
    if let Some(assoc) = sought.model.assocs.get(id.index as usize) {
        if is_independent(assoc) {
            add_links(alloc, sought, entities, id, assoc, &mut links)?;
        }
    }
    Ok(links)
}

// Adds the links of an independent association between them: the given ones, and those that are added at each side.
fn add_links(
    alloc: Global,
    sought: &Sought<'_>,
    entities: &[Seq<Entity>],
    id: AssocId,
    assoc: &Assoc,
    links: &mut Seq<Link>,
) -> Result<(), Memory>
    requires row { sought.now.row ≤ 4 }
    requires sought { entities.now ≡ are_sought sought.now }
    ensures { IfOk result (λ _. links.new ≡ links.old ++ links_sought sought.now id assoc.now) }
{
    let first = Side {
        first: true,
        id,
        assoc,
    };
    let second = Side {
        first: false,
        id,
        assoc,
    };
    add_given_links(alloc, sought, id, assoc, links)?;
    add_added_links(
        alloc,
        sought,
        &first,
        entities_at(entities, assoc.first.set),
        links,
    )?;
    add_added_links(
        alloc,
        sought,
        &second,
        entities_at(entities, assoc.second.set),
        links,
    )
}

// Adds the given links of an association between entities that are looked for.
fn add_given_links(
    alloc: Global,
    sought: &Sought<'_>,
    id: AssocId,
    assoc: &Assoc,
    links: &mut Seq<Link>,
) -> Result<(), Memory>
    ensures { IfOk result (λ _. links.new ≡ links.old ++ given_links sought.now id assoc.now sought.now.one.now.links) }
{
    for placed in sought.one.links.as_slice() {
        add_given_link(alloc, sought, id, assoc, placed, links)?;
    }
    Ok(())
}

// Adds a copy of a given link, if it is one of the association between entities that are looked for.
fn add_given_link(
    alloc: Global,
    sought: &Sought<'_>,
    id: AssocId,
    assoc: &Assoc,
    placed: &PlacedLink,
    links: &mut Seq<Link>,
) -> Result<(), Memory>
    ensures { IfOk result (λ _. links.new ≡ links.old ++ given_links sought.now id assoc.now (placed.now ∷ [])) }
{
    if placed.assoc.index != id.index {
        return Ok(());
    }
    if !has_ends(alloc, &sought.pick, assoc, &placed.link)? {
        return Ok(());
    }
    links.push(copy_link(alloc, &placed.link)?)
}

// Whether the keys at both ends of a link are looked for.
fn has_ends(alloc: Global, pick: &Pick<'_>, assoc: &Assoc, link: &Link) -> Result<bool, Memory>
    ensures { IfOk result (λ has. has ≡ passes pick.now (key_at_end true assoc.now link.now) && passes pick.now (key_at_end false assoc.now link.now)) }
{
    Ok(has_end(alloc, pick, true, assoc, link)? && has_end(alloc, pick, false, assoc, link)?)
}

// Whether the key at an end of a link is looked for.
fn has_end(
    alloc: Global,
    pick: &Pick<'_>,
    first: bool,
    assoc: &Assoc,
    link: &Link,
) -> Result<bool, Memory>
    ensures { IfOk result (λ has. has ≡ passes pick.now (key_at_end first assoc.now link.now)) }
{
    let key = end_key(first, link).copy(alloc)?;
    Ok(passes(pick, end_of(first, assoc).set, key))
}

// The same link.
fn copy_link(alloc: Global, link: &Link) -> Result<Link, Memory>
    ensures { IfOk result (λ copy. copy ≡ link.now) }
{
    let first = link.first.copy(alloc)?;
    let second = link.second.copy(alloc)?;
    Ok(Link { first, second })
}

// Adds the links that are added at a side for these entities, where the other side asks for exactly one partner and that is looked for.
fn add_added_links(
    alloc: Global,
    sought: &Sought<'_>,
    side: &Side<'_>,
    entities: &[Entity],
    links: &mut Seq<Link>,
) -> Result<(), Memory>
    requires { sought.now.row ≤ 4 }
    ensures { IfOk result (λ _. links.new ≡ links.old ++ links_added sought.now side.now.first side.now.id side.now.assoc.now entities.now) }
{
    if !is_one(end_of(!side.first, side.assoc).mult) {
        return Ok(());
    }
    let key = far_key(alloc, sought.model, sought.row, side)?;
    if !passes(&sought.pick, end_of(!side.first, side.assoc).set, key) {
        return Ok(());
    }
    add_lacking(alloc, sought, side, entities, links)
}

// Adds a link for each entity that lacks one.
fn add_lacking(
    alloc: Global,
    sought: &Sought<'_>,
    side: &Side<'_>,
    entities: &[Entity],
    links: &mut Seq<Link>,
) -> Result<(), Memory>
    requires { sought.now.row ≤ 4 }
    ensures { IfOk result (λ _. links.new ≡ links.old ++ links_lacking sought.now side.now.first side.now.id side.now.assoc.now entities.now) }
{
    for entity in entities {
        add_lacking_one(alloc, sought, side, entity, links)?;
    }
    Ok(())
}

// Adds a link for an entity, if it lacks one.
fn add_lacking_one(
    alloc: Global,
    sought: &Sought<'_>,
    side: &Side<'_>,
    entity: &Entity,
    links: &mut Seq<Link>,
) -> Result<(), Memory>
    requires { sought.now.row ≤ 4 }
    ensures { IfOk result (λ _. links.new ≡ links.old ++ links_lacking sought.now side.now.first side.now.id side.now.assoc.now (entity.now ∷ [])) }
{
    if !lacks_link(sought.model, side, sought.one.links.as_slice(), entity) {
        return Ok(());
    }
    links.push(added_link(alloc, sought.model, sought.row, side, entity)?)
}

// The link from an entity to the one that has the number of the other side.
fn added_link(
    alloc: Global,
    model: &EntityModel,
    row: u32,
    side: &Side<'_>,
    entity: &Entity,
) -> Result<Link, Memory>
    requires { row ≤ 4 }
    ensures { IfOk result (λ link. link ≡ added_link model.now row side.now.first side.now.id side.now.assoc.now entity.now) }
{
    let own = key_of(alloc, model, entity)?;
    let far = far_key(alloc, model, row, side)?;
    Ok(if side.first {
        Link {
            first: own,
            second: far,
        }
    } else {
        Link {
            first: far,
            second: own,
        }
    })
}
