ghost use Rattle.std.specs.Prelude.{◌≡◌, ◌≤◌, IfOk};
ghost use Rattle.cells.specs.Parts.{AreParts};
ghost use Rattle.host_states.specs.Hosting.{HasOneEntityPerKey, HaveFewPartners};
ghost use Rattle.host_states.specs.SmallStates.{small_focus, small_leaving, small_rivals};
ghost use Rattle.region_states.specs.region_basis.BasisOf.{basis_of};
ghost use Rattle.regions.specs.Patterns.{Valuation};
ghost use Rattle.witness_state.specs.Small.{ArePair, HasValues};
ghost use Rattle.witness_state.specs.SmallRegions.{supporting};

use crate::small_regions::asking::{Asked, ask};
use crate::small_regions::gathering::{Gathered, gather};
use cells::Parts;
use edm_types::{Entity, EntityModel};
use emc_base::{Memory, Seq};
use entity_state::EntityState;
use population::{PlacedKey, Supporting};
use regions::Region;
use std::alloc::Global;
use supported_states::{small_state, small_states, support};

/// The small part of the state that holds the entity of a region with its partners, whose keys are the usual ones by one of the five rows of
/// numbered values: what they need, and nothing else. `Memory` comes where memory ran out.
pub fn region_state(
    alloc: Global,
    parts: &Parts<'_>,
    row: u32,
    region: &Region,
    entity: Entity,
) -> Result<EntityState, Memory>
    requires parts { AreParts parts.now }
    requires row { row ≤ 4 }
    requires values { (values : Valuation) × HasValues (basis_of parts.now) row region.now entity values }
    ensures { (values : Valuation) → HasValues (basis_of parts.now) row region.now entity values
        → IfOk result (λ state. state ≡ small_focus (basis_of parts.now) row region.now values) }
{
    let made = gather(alloc, parts, row, region, entity)?;
    let mut asked = Asked::nothing(alloc);
    ask(alloc, parts.model, made.given.as_slice(), &mut asked)?;
    let one = with_support(alloc, parts.model, row, made, &asked.wanted)?;
    small_state(alloc, parts.model, row, &one, &asked.roots)
}

/// The small parts of two states with entities of two regions that have one key, by the first row of numbered values: what both need in
/// either. `Memory` comes where memory ran out.
pub fn pair_of_states(
    alloc: Global,
    parts: &Parts<'_>,
    one: &Region,
    first: Entity,
    two: &Region,
    second: Entity,
) -> Result<(EntityState, EntityState), Memory>
    requires parts { AreParts parts.now }
    requires few { HaveFewPartners (basis_of parts.now) }
    requires pair { (values : Valuation) × (others : Valuation) × ArePair (basis_of parts.now) 0 one.now two.now first second values others }
    ensures { (values others : Valuation) → ArePair (basis_of parts.now) 0 one.now two.now first second values others
        → IfOk result (λ both. (both.0 ≡ (small_rivals (basis_of parts.now) 0 one.now values two.now others).0)
        × (both.1 ≡ (small_rivals (basis_of parts.now) 0 one.now values two.now others).1)) }
{
    let made = gather(alloc, parts, 0, one, first)?;
    let other = gather(alloc, parts, 0, two, second)?;
    let mut asked = Asked::nothing(alloc);
    ask(alloc, parts.model, made.given.as_slice(), &mut asked)?;
    ask(alloc, parts.model, other.given.as_slice(), &mut asked)?;
    let near = with_support(alloc, parts.model, 0, made, &asked.wanted)?;
    let far = with_support(alloc, parts.model, 0, other, &asked.wanted)?;
    small_states(alloc, parts.model, 0, &near, &far, &asked.roots)
}

/// The small parts of the state with the entity of a region that has one for each key alone, and of the state without it, by the first row of
/// numbered values. `Memory` comes where memory ran out.
pub fn leaving_states(
    alloc: Global,
    parts: &Parts<'_>,
    region: &Region,
    entity: Entity,
) -> Result<(EntityState, EntityState), Memory>
    requires parts { AreParts parts.now }
    requires few { HaveFewPartners (basis_of parts.now) }
    requires one { HasOneEntityPerKey (basis_of parts.now) region.now }
    requires values { (values : Valuation) × HasValues (basis_of parts.now) 0 region.now entity values }
    ensures { (values : Valuation) → HasValues (basis_of parts.now) 0 region.now entity values
        → IfOk result (λ both. (both.0 ≡ (small_leaving (basis_of parts.now) 0 region.now values).0)
        × (both.1 ≡ (small_leaving (basis_of parts.now) 0 region.now values).1)) }
{
    let made = gather(alloc, parts, 0, region, entity)?;
    let mut asked = Asked::nothing(alloc);
    ask(alloc, parts.model, made.given.as_slice(), &mut asked)?;
    let with = with_support(alloc, parts.model, 0, made, &asked.wanted)?;
    let nothing = Gathered {
        given: Seq::empty(alloc),
        links: Seq::empty(alloc),
    };
    let without = with_support(alloc, parts.model, 0, nothing, &asked.wanted)?;
    small_states(alloc, parts.model, 0, &with, &without, &asked.roots)
}

// Given entities and links with what supports wanted keys.
fn with_support(
    alloc: Global,
    model: &EntityModel,
    row: u32,
    made: Gathered,
    wanted: &Seq<PlacedKey>,
) -> Result<Supporting, Memory>
    requires { row ≤ 4 }
    ensures { IfOk result (λ one. one ≡ supporting model.now row made.given wanted.now made.links) }
{
    let keys = support(alloc, model, row, &made.given, wanted)?;
    Ok(Supporting {
        given: made.given,
        keys,
        links: made.links,
    })
}
