ghost use Rattle.std.specs.Prelude.{IfOk, IsTrue, List};
ghost use Rattle.groupings.specs.least_fault.Least.{IsLeast};
ghost use Rattle.round_trip.specs.Words.{At, Entity as Entry, EntityModel, State};
ghost use Rattle.entity_state.specs.breach_order.Founds.{found_cmp};
ghost use Rattle.entity_state.specs.declared.breach_order.found.Found.{Found};
ghost use Rattle.round_trip.specs.soundness.models.ModelIds.{IsTypeId};
ghost use Rattle.round_trip.specs.soundness.models.Models.{IsSoundModel};
ghost use Rattle.state_legality.specs.link_legality.Standing.{AreStanding, IsStandingAt};
ghost use Rattle.state_legality.specs.link_legality.Tells.{BreaksAssoc, BreaksAtSide, BreaksIndependent, BreaksLinks, KeepsIndependent, KeepsLinkRules, state_of};

use crate::link_legality::counts::first_miscounted;
use crate::link_legality::ends::first_loose_link;
use crate::link_legality::in_order::keep_in_order;
use crate::link_legality::once::first_double_link;
use crate::link_legality::principals::first_lost;
use crate::link_legality::side::Side;
use crate::link_legality::standing::{keys_at_ends, standing_in_sets};
use edm_types::{Assoc, Entity, EntityModel, Link};
use emc_base::{AssocId, KeyRef, Memory, Seq, SetId};
use entity_state::{Found, entities_at, links_at};
use groupings::{earlier, earlier_of};
use std::alloc::Global;

/// The first breach of the rules of links and principals, S5 to S8: the least rule that is broken, at its first place. The entities and
/// the links are those of a state, a list for each set and each association set. `Memory` comes where memory ran out.
pub fn first_in_links(
    alloc: Global,
    model: &EntityModel,
    entities: &[Seq<Entity>],
    links: &[Seq<Link>],
) -> Result<Option<Found>, Memory>
    requires sound { IsSoundModel model.now }
    ensures { IfOk result (IsLeast found_cmp (BreaksLinks model.now (state_of entities.now links.now))) }
{
    let keys = keys_at_ends(alloc, model, entities)?;
    let standing = standing_in_sets(alloc, &keys)?;
    first_beside(alloc, model, entities, &standing, links)
}

// The same where it is known, of some sets, which keys stand there.
fn first_beside(
    alloc: Global,
    model: &EntityModel,
    entities: &[Seq<Entity>],
    standing: &[Option<Vec<(KeyRef<'_>, u32)>>],
    links: &[Seq<Link>],
) -> Result<Option<Found>, Memory>
    requires sound { IsSoundModel model.now }
    requires standing { AreStanding model.now entities.now standing.now }
    ensures { IfOk result (IsLeast found_cmp (BreaksLinks model.now (state_of entities.now links.now))) }
{
    let assocs = model.assocs.as_slice();
    let mut found = None;
    for (i, assoc) in assocs.iter().enumerate() {
        let a = AssocId { index: i as u32 };
        let next = first_at_assoc(alloc, model, entities, standing, links, a, assoc)?;
        found = earlier(found, next);
    }
    Ok(found)
}

// The first breach at one association.
fn first_at_assoc(
    alloc: Global,
    model: &EntityModel,
    entities: &[Seq<Entity>],
    standing: &[Option<Vec<(KeyRef<'_>, u32)>>],
    links: &[Seq<Link>],
    a: AssocId,
    assoc: &Assoc,
) -> Result<Option<Found>, Memory>
    requires sound { IsSoundModel model.now }
    requires standing { AreStanding model.now entities.now standing.now }
    requires known { At model.now.assocs a.index assoc.now }
    ensures { IfOk result (IsLeast found_cmp (BreaksAssoc model.now (state_of entities.now links.now) a assoc.now)) }
{
    match &assoc.constraint {
        Some(constraint) => first_lost(alloc, model, entities, a, assoc, constraint),
        None => first_of_links(alloc, model, entities, standing, links, a, assoc),
    }
}

// The first breach of S5 to S7 at an association that is independent.
fn first_of_links(
    alloc: Global,
    model: &EntityModel,
    entities: &[Seq<Entity>],
    standing: &[Option<Vec<(KeyRef<'_>, u32)>>],
    links: &[Seq<Link>],
    a: AssocId,
    assoc: &Assoc,
) -> Result<Option<Found>, Memory>
    requires sound { IsSoundModel model.now }
    requires standing { AreStanding model.now entities.now standing.now }
    requires known { At model.now.assocs a.index assoc.now }
    ensures { IfOk result (IsLeast found_cmp (BreaksIndependent model.now (state_of entities.now links.now) a assoc.now)) }
{
    if keep_links(alloc, model, standing, links_at(links, a), assoc)? {
        return Ok(None);
    }
    let first = first_at_side(alloc, model, entities, links, a, assoc, Side::First);
    let second = first_at_side(alloc, model, entities, links, a, assoc, Side::Second);
    let double = first_double_link(alloc, links_at(links, a), a, assoc);
    earlier_of(earlier_of(first, second), double)
}

// Whether its links keep S5 to S7, as keys in order tell where it is known which stand at its ends. A false answer says nothing.
fn keep_links(
    alloc: Global,
    model: &EntityModel,
    standing: &[Option<Vec<(KeyRef<'_>, u32)>>],
    links: &[Link],
    assoc: &Assoc,
) -> Result<bool, Memory>
    requires sound { IsSoundModel model.now }
    requires first { IsTypeId model.now assoc.now.first.ty }
    requires second { IsTypeId model.now assoc.now.second.ty }
    ensures { (entities : List (List Entry)) → AreStanding model.now entities standing.now
        → IfOk result (λ kept. IsTrue kept → KeepsIndependent model.now entities links.now assoc.now) }
{
    let Some(first) = standing_at(standing, assoc.first.set) else {
        return Ok(false);
    };
    let Some(second) = standing_at(standing, assoc.second.set) else {
        return Ok(false);
    };
    keep_in_order(alloc, model, first, second, links, assoc)
}

// The keys that stand in a set; `None` where they aren't known.
fn standing_at<'l, 'k>(
    standing: &'l [Option<Vec<(KeyRef<'k>, u32)>>],
    set: SetId,
) -> Option<&'l [(KeyRef<'k>, u32)]>
    ensures { IsStandingAt standing.now set result }
{
    match standing.get(set.index as usize) {
        Some(Some(keys)) => Some(keys),
        _ => None,
    }
}

// The first breach of S5 and S7 at one side of it.
fn first_at_side(
    alloc: Global,
    model: &EntityModel,
    entities: &[Seq<Entity>],
    links: &[Seq<Link>],
    a: AssocId,
    assoc: &Assoc,
    side: Side,
) -> Result<Option<Found>, Memory>
    requires sound { IsSoundModel model.now }
    requires known { At model.now.assocs a.index assoc.now }
    ensures { IfOk result (IsLeast found_cmp (BreaksAtSide model.now (state_of entities.now links.now) a assoc.now side)) }
{
    let standing = entities_at(entities, side.end_of(assoc).set);
    let links = links_at(links, a);
    let loose = first_loose_link(alloc, model, standing, links, a, assoc, side);
    let miscounted = first_miscounted(alloc, model, standing, links, a, assoc, side);
    earlier_of(loose, miscounted)
}

/// The law that the rules S5 to S8 are kept exactly where no breach of them is found, in a sound model.
pub fn legal_links_have_no_breach()
    ensures kept { (model : EntityModel) (state : State) → KeepsLinkRules model state → (found : Found) → ¬ BreaksLinks model state found }
    ensures clean { (model : EntityModel) (state : State) → IsSoundModel model → ((found : Found) → ¬ BreaksLinks model state found) → KeepsLinkRules model state }
{}
