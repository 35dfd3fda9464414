ghost use Rattle.std.specs.Prelude.{◌≡◌, ◌++◌, IfOk};
ghost use Rattle.groupings.specs.least_fault.Least.{Among, IsLeast};
ghost use Rattle.entity_state.specs.breach_order.Founds.{found_cmp};
ghost use Rattle.round_trip.specs.Words.{key_of, place_at};
ghost use Rattle.round_trip.specs.soundness.models.ModelIds.{IsTypeId};
ghost use Rattle.round_trip.specs.soundness.models.Models.{IsSoundModel};
ghost use Rattle.state_legality.specs.link_legality.Sides.{end_at};
ghost use Rattle.state_legality.specs.link_legality.Ends.{HoldsJust, IsLoose, IsMarked, StandsAmong};

use crate::link_legality::side::Side;
use crate::link_legality::under::{is_marked, marks_under};
use edm_types::{Assoc, Entity, EntityModel, Link};
use emc_base::{AssocId, Key, Memory, Place, Txt};
use entity_state::{Found, StateRule, key_of};
use groupings::{Finder, first_among};
use std::alloc::Global;
use std::collections::BTreeSet;

/// The place of a link's part in its association set: its key is that of both ends, one after the other.
pub fn link_place(alloc: Global, assoc: &Assoc, link: &Link, part: &Txt) -> Result<Place, Memory>
    ensures { IfOk result (λ place. place ≡ place_at assoc.now.set_name (link.now.first ++ link.now.second) part.now) }
{
    Ok(Place {
        name: assoc.set_name.copy(alloc)?,
        key: joined_key(alloc, &link.first, &link.second)?,
        part: part.copy(alloc)?,
    })
}

// The values of one key, and then those of another.
fn joined_key(alloc: Global, first: &Key, second: &Key) -> Result<Key, Memory>
    ensures { IfOk result (λ key. key ≡ first.now ++ second.now) }
{
    let mut key = first.copy(alloc)?;
    for value in second.as_slice() {
        let value = value.copy(alloc)?;
        key.push(value)?;
    }
    Ok(key)
}

/// The keys of the entities whose types are marked.
fn keys_under(
    alloc: Global,
    model: &EntityModel,
    under: &[bool],
    entities: &[Entity],
) -> Result<BTreeSet<Key>, Memory>
    ensures { IfOk result (HoldsJust (λ entity key. IsMarked under.now entity.ty × (key_of model.now entity ≡ key)) entities.now) }
{
    let mut keys = BTreeSet::new(alloc);
    for entity in entities {
        if is_marked(under, entity.ty) {
            let key = key_of(alloc, model, entity)?;
            keys.insert(key)?;
        }
    }
    Ok(keys)
}

/// Looks at the links of an association, where it is known which keys stand at one side.
#[derive(Clone, Copy)]
struct Links<'a> {
    a: AssocId,
    assoc: &'a Assoc,
    side: Side,
    held: &'a BTreeSet<Key>,
}

impl<'a> Finder<Link, Found> for Links<'a> {
    ghost use Rattle.std.specs.Prelude.{IsTrue};
    ghost use Rattle.std.specs.BTreeSet.{contains};
    ghost use Rattle.std.specs.Cmp.Lexicographic.{slice_cmp};
    ghost use Rattle.emc_base.specs.Order.{value_cmp};
    ghost use Rattle.state_legality.specs.link_legality.Ends.{IsLoose};

    ghost wrong = { λ s i link. IsLoose (λ key. IsTrue (contains (slice_cmp value_cmp) s.held.now key)) s.a s.assoc.now s.side i link };

    fn find(&self, alloc: Global, i: usize, link: &Link) -> Result<Option<Found>, Memory> {
        if self.held.contains(self.side.key_of(link)) {
            return Ok(None);
        }
        let place = link_place(alloc, self.assoc, link, &self.side.end_of(self.assoc).role)?;
        let spot = [self.a.index as usize, i, self.side.number()];
        let found = Found::at(alloc, StateRule::End.number(), &spot, place)?;
        Ok(Some(found))
    }
}

/// The first link with a key at this side that no entity has that stands there: S5. The entities are those of the end's set.
pub fn first_loose_link(
    alloc: Global,
    model: &EntityModel,
    entities: &[Entity],
    links: &[Link],
    a: AssocId,
    assoc: &Assoc,
    side: Side,
) -> Result<Option<Found>, Memory>
    requires sound { IsSoundModel model.now }
    requires known { IsTypeId model.now (end_at assoc.now side).ty }
    ensures { IfOk result (IsLeast found_cmp (Among (IsLoose (StandsAmong model.now (end_at assoc.now side).ty entities.now) a assoc.now side) links.now)) }
{
    let under = marks_under(alloc, model, side.end_of(assoc).ty)?;
    let held = keys_under(alloc, model, &under, entities)?;
    let search = Links {
        a,
        assoc,
        side,
        held: &held,
    };
    let found = first_among(alloc, &search, links)?;
    Ok(found)
}
