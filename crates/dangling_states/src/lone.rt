ghost use Rattle.std.specs.Prelude.{◌≡◌, ◌≤◌, ◌∷◌, [], IfOk, map};
ghost use Rattle.failure_laws.specs.SmallLinks.{both_ends};
ghost use Rattle.population.specs.LinkStates.{of_assoc, placed_at, plain_link};
ghost use Rattle.cells.specs.Parts.{AreParts};
ghost use Rattle.region_states.specs.region_basis.BasisOf.{basis_of};
ghost use Rattle.dangling_keys.specs.DanglingStates.{lone_given, lone_links, lone_state};
ghost use Rattle.regions.specs.declared.pattern.Focus.TheVariants as focus;
ghost use Rattle.dangling_states.specs.Referring.{IsReferring, Refers};

use crate::referring::Referring;
use crate::values::flow_entity;
use cells::Parts;
use edm_types::Assoc;
use emc_base::{AssocId, Memory, Seq};
use entity_state::EntityState;
use population::PlacedLink;
use regions::Focus;
use std::alloc::Global;
use witness_state::{
    Gathered, at_first, at_second, gather, link_state, placed_at, plain_link, region_state,
};

/// The small state of the focus alone: the entity with its partners, or the link with its ends. `Memory` comes where memory ran out.
pub fn lone_state(
    alloc: Global,
    parts: &Parts<'_>,
    referring: Referring<'_>,
) -> Result<EntityState, Memory>
    requires parts { AreParts parts.now }
    requires referring { IsReferring (basis_of parts.now) referring }
    requires refers { Refers (basis_of parts.now) referring.look.of.now referring.key.now }
    ensures { IfOk result (λ state. state ≡ lone_state (basis_of parts.now) referring.entry.look.of.now referring.entry.key.now) }
{
    match referring.look.of {
        Focus::Entity(region) => {
            let entity = flow_entity(alloc, parts, referring.row, region, referring.not_null)?;
            region_state(alloc, parts, referring.row, region, entity)
        }
        Focus::Link(assoc) => {
            let declared = parts.model.assocs.at(assoc.index as usize);
            link_state(alloc, parts.model, referring.row, *assoc, declared)
        }
    }
}

/// The entities of which it is made, and the links. `Memory` comes where memory ran out.
pub fn lone_given(
    alloc: Global,
    parts: &Parts<'_>,
    referring: Referring<'_>,
) -> Result<Gathered, Memory>
    requires parts { AreParts parts.now }
    requires referring { IsReferring (basis_of parts.now) referring }
    ensures given { IfOk result (λ made. made.given ≡ lone_given (basis_of parts.now) referring.entry.look.of.now referring.entry.key.now) }
    ensures links { IfOk result (λ made. made.links ≡ lone_links (basis_of parts.now) referring.entry.look.of.now referring.entry.key.now) }
{
    match referring.look.of {
        Focus::Entity(region) => {
            let entity = flow_entity(alloc, parts, referring.row, region, referring.not_null)?;
            gather(alloc, parts, referring.row, region, entity)
        }
        Focus::Link(assoc) => link_given(alloc, parts, referring, *assoc),
    }
}

// The entities at both ends of the link, and the link; nothing where there is no such association.
fn link_given(
    alloc: Global,
    parts: &Parts<'_>,
    referring: Referring<'_>,
    assoc: AssocId,
) -> Result<Gathered, Memory>
    requires parts { AreParts parts.now }
    requires referring { IsReferring (basis_of parts.now) referring }
    requires of { referring.look.of.now ≡ focus.Link assoc }
    ensures given { IfOk result (λ made. made.given ≡ lone_given (basis_of parts.now) referring.entry.look.of.now referring.entry.key.now) }
    ensures links { IfOk result (λ made. made.links ≡ lone_links (basis_of parts.now) referring.entry.look.of.now referring.entry.key.now) }
{
    match parts.model.assocs.get(assoc.index as usize) {
        Some(declared) => ends_given(alloc, parts, referring.row, assoc, declared),
        None => Ok(Gathered {
            given: Seq::empty(alloc),
            links: Seq::empty(alloc),
        }),
    }
}

// The same by the association's declaration.
fn ends_given(
    alloc: Global,
    parts: &Parts<'_>,
    row: u32,
    assoc: AssocId,
    declared: &Assoc,
) -> Result<Gathered, Memory>
    requires { row ≤ 4 }
    ensures given { IfOk result (λ made. made.given ≡ map (placed_at parts.now.model.now row) (both_ends parts.now.model.now row assoc declared.now)) }
    ensures links { IfOk result (λ made. made.links ≡ of_assoc parts.now.model.now row assoc (plain_link parts.now.model.now row declared.now) ∷ []) }
{
    let mut given = Seq::empty(alloc);
    given.push(placed_at(alloc, parts.model, row, &at_first(declared))?)?;
    given.push(placed_at(alloc, parts.model, row, &at_second(declared))?)?;
    let mut links = Seq::empty(alloc);
    links.push(PlacedLink {
        assoc,
        link: plain_link(alloc, parts.model, row, declared)?,
    })?;
    Ok(Gathered { given, links })
}
