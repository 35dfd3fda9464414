ghost use Rattle.std.specs.Prelude.{◌≡◌, IfOk, map};
ghost use Rattle.groupings.specs.least_fault.Least.{IsLeast};
ghost use Rattle.entity_state.specs.breach_order.Founds.{found_cmp};
ghost use Rattle.entity_state.specs.breach_order.Repeats.{IsFirstRepeat};
ghost use Rattle.state_legality.specs.link_legality.Once.{link_of};
ghost use Rattle.state_legality.specs.link_legality.Tells.{HasDouble};

use crate::link_legality::ends::link_place;
use edm_types::{Assoc, Link};
use emc_base::{AssocId, KeyRef, Memory, Txt};
use entity_state::{Found, StateRule, first_repeat};
use std::alloc::Global;

/// The keys of links at both ends.
pub fn key_pairs<'a>(
    alloc: Global,
    links: &'a [Link],
) -> Result<Vec<(KeyRef<'a>, KeyRef<'a>)>, Memory>
    ensures { IfOk result (λ pairs. map link_of pairs.items ≡ links.now) }
{
    let mut pairs = Vec::with_capacity(alloc, links.len())?;
    for link in links {
        pairs.push((KeyRef::of(&link.first), KeyRef::of(&link.second)))?;
    }
    Ok(pairs)
}

// The first place at which a link equals one before it.
fn first_repeated_link(alloc: Global, links: &[Link]) -> Result<Option<usize>, Memory>
    ensures { IfOk result (IsFirstRepeat (λ one other. one ≡ other) links.now) }
{
    let pairs = key_pairs(alloc, links)?;
    first_repeat(alloc, pairs.as_slice())
}

/// The first link of an association set that stands before it too: S6.
pub fn first_double_link(
    alloc: Global,
    links: &[Link],
    a: AssocId,
    assoc: &Assoc,
) -> Result<Option<Found>, Memory>
    ensures { IfOk result (IsLeast found_cmp (HasDouble a assoc.now links.now)) }
{
    let Some(i) = first_repeated_link(alloc, links)? else {
        return Ok(None);
    };
    let place = link_place(alloc, assoc, &links[i], &Txt::of(alloc, "")?)?;
    let spot = [a.index as usize, i];
    let found = Found::at(alloc, StateRule::Once.number(), &spot, place)?;
    Ok(Some(found))
}
