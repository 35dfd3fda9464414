ghost use Rattle.std.specs.Prelude.{◌≡◌, ◌≤◌, ◌∷◌, [], IfOk, not};
ghost use Rattle.edm_types.specs.declared.model.Mult.TheVariants.{Many};
ghost use Rattle.failure_laws.specs.SmallLinks.{roots_at, small_link, small_pair, small_shared};
ghost use Rattle.population.specs.LinkStates.{of_assoc, other_link, plain_link};
ghost use Rattle.population.specs.Numbered.{end_of};
ghost use Rattle.witness_state.specs.Small.{IsLinkable};
ghost use Rattle.witness_state.specs.SmallLinks.{linked, shared, three_ends, two_ends, unlinked};

use crate::small_links::ends::{at_first, at_second, other_at, other_link, plain_link};
use crate::small_links::supporting::{roots_at, supporting};
use edm_types::{Assoc, EntityModel};
use emc_base::{AssocId, Memory, Seq};
use entity_state::EntityState;
use population::{PlacedKey, PlacedLink, Supporting};
use std::alloc::Global;
use supported_states::{small_state, small_states};

/// What the plain entities at both ends of an association need where they are linked, by one of the five rows of numbered values. `Memory`
/// comes where memory ran out.
pub fn link_state(
    alloc: Global,
    model: &EntityModel,
    row: u32,
    assoc: AssocId,
    declared: &Assoc,
) -> Result<EntityState, Memory>
    requires { IsLinkable model.now row assoc declared.now }
    ensures { IfOk result (λ state. state ≡ small_link model.now row assoc declared.now) }
{
    let one = linked(alloc, model, row, assoc, declared)?;
    let roots = both_roots(alloc, model, row, declared)?;
    small_state(alloc, model, row, &one, &roots)
}

/// The same with the link and without it, by the first row of numbered values. `Memory` comes where memory ran out.
pub fn pair_of_link_states(
    alloc: Global,
    model: &EntityModel,
    assoc: AssocId,
    declared: &Assoc,
) -> Result<(EntityState, EntityState), Memory>
    requires { IsLinkable model.now 0 assoc declared.now }
    ensures one { IfOk result (λ both. both.0 ≡ (small_pair model.now 0 assoc declared.now).0) }
    ensures two { IfOk result (λ both. both.1 ≡ (small_pair model.now 0 assoc declared.now).1) }
{
    let one = linked(alloc, model, 0, assoc, declared)?;
    let two = unlinked(alloc, model, declared)?;
    let roots = both_roots(alloc, model, 0, declared)?;
    small_states(alloc, model, 0, &one, &two, &roots)
}

/// What the entity at this end and its two partners need, by the first row of numbered values. `Memory` comes where memory ran out.
pub fn shared_state(
    alloc: Global,
    model: &EntityModel,
    assoc: AssocId,
    declared: &Assoc,
    first: bool,
) -> Result<EntityState, Memory>
    requires linkable { IsLinkable model.now 0 assoc declared.now }
    requires many { (end_of (not first) declared.now).mult ≡ Many }
    ensures { IfOk result (λ state. state ≡ small_shared model.now 0 assoc declared.now first) }
{
    let one = shared(alloc, model, assoc, declared, first)?;
    let roots = all_roots(alloc, model, declared, first)?;
    small_state(alloc, model, 0, &one, &roots)
}

// What the state with the link is made of.
fn linked(
    alloc: Global,
    model: &EntityModel,
    row: u32,
    assoc: AssocId,
    declared: &Assoc,
) -> Result<Supporting, Memory>
    requires { row ≤ 4 }
    ensures { IfOk result (λ one. one ≡ linked model.now row assoc declared.now) }
{
    let mut links = Seq::empty(alloc);
    links.push(plain_one(alloc, model, row, assoc, declared)?)?;
    supporting(
        alloc,
        model,
        row,
        &[at_first(declared), at_second(declared)],
        links,
    )
}

// What that without it is made of.
fn unlinked(alloc: Global, model: &EntityModel, declared: &Assoc) -> Result<Supporting, Memory>
    ensures { IfOk result (λ one. one ≡ unlinked model.now 0 declared.now) }
{
    let links = Seq::empty(alloc);
    supporting(
        alloc,
        model,
        0,
        &[at_first(declared), at_second(declared)],
        links,
    )
}

// What that is made of in which the entity at this end has two partners.
fn shared(
    alloc: Global,
    model: &EntityModel,
    assoc: AssocId,
    declared: &Assoc,
    first: bool,
) -> Result<Supporting, Memory>
    ensures { IfOk result (λ one. one ≡ shared model.now 0 assoc declared.now first) }
{
    let mut links = Seq::empty(alloc);
    links.push(plain_one(alloc, model, 0, assoc, declared)?)?;
    links.push(other_one(alloc, model, assoc, declared, first)?)?;
    supporting(
        alloc,
        model,
        0,
        &[
            at_first(declared),
            at_second(declared),
            other_at(!first, declared),
        ],
        links,
    )
}

// The plain link of the association.
fn plain_one(
    alloc: Global,
    model: &EntityModel,
    row: u32,
    assoc: AssocId,
    declared: &Assoc,
) -> Result<PlacedLink, Memory>
    requires { row ≤ 4 }
    ensures { IfOk result (λ placed. placed ≡ of_assoc model.now row assoc (plain_link model.now row declared.now)) }
{
    Ok(PlacedLink {
        assoc,
        link: plain_link(alloc, model, row, declared)?,
    })
}

// The link of the entity at this end to its second partner.
fn other_one(
    alloc: Global,
    model: &EntityModel,
    assoc: AssocId,
    declared: &Assoc,
    first: bool,
) -> Result<PlacedLink, Memory>
    ensures { IfOk result (λ placed. placed ≡ of_assoc model.now 0 assoc (other_link model.now 0 first declared.now)) }
{
    Ok(PlacedLink {
        assoc,
        link: other_link(alloc, model, declared, first)?,
    })
}

// The keys at both ends.
fn both_roots(
    alloc: Global,
    model: &EntityModel,
    row: u32,
    declared: &Assoc,
) -> Result<Seq<PlacedKey>, Memory>
    requires { row ≤ 4 }
    ensures { IfOk result (λ roots. roots ≡ roots_at model.now row (two_ends model.now row declared.now)) }
{
    roots_at(
        alloc,
        model,
        row,
        &[at_first(declared), at_second(declared)],
    )
}

// Those, and that of the second partner.
fn all_roots(
    alloc: Global,
    model: &EntityModel,
    declared: &Assoc,
    first: bool,
) -> Result<Seq<PlacedKey>, Memory>
    ensures { IfOk result (λ roots. roots ≡ roots_at model.now 0 (three_ends model.now 0 first declared.now)) }
{
    roots_at(
        alloc,
        model,
        0,
        &[
            at_first(declared),
            at_second(declared),
            other_at(!first, declared),
        ],
    )
}
