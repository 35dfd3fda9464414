ghost use Rattle.std.specs.Prelude.{◌≡◌, IfOk};
ghost use Rattle.groupings.specs.least_fault.Least.{IsLeast};
ghost use Rattle.entity_state.specs.breach_order.Founds.{found_cmp};
ghost use Rattle.round_trip.specs.soundness.models.ModelIds.{IsTypeId};
ghost use Rattle.round_trip.specs.soundness.models.Models.{IsSoundModel};
ghost use Rattle.state_legality.specs.link_legality.Sides.{end_at};
ghost use Rattle.state_legality.specs.link_legality.Counts.{ArePartners, MiscountedAmong, fits};

use crate::link_legality::side::Side;
use crate::link_legality::under::{is_marked, marks_under};
use edm_types::{Assoc, Entity, EntityModel, Link, Mult};
use emc_base::{AssocId, Key, Memory};
use entity_state::{Found, StateRule, key_of, place_of};
use groupings::{Finder, first_among};
use std::alloc::Global;
use std::collections::BTreeSet;

/// The keys that links have at one side.
#[derive(Drop)]
pub struct Partners {
    /// Those that some link has.
    pub some: BTreeSet<Key>,
    /// Those that several links have.
    pub several: BTreeSet<Key>,
}

// The keys that links have at this side.
fn partners_in(alloc: Global, links: &[Link], side: Side) -> Result<Partners, Memory>
    ensures { IfOk result (ArePartners side links.now) }
{
    let mut some = BTreeSet::new(alloc);
    let mut several = BTreeSet::new(alloc);
    for link in links {
        let key = side.key_of(link).copy(alloc)?;
        if some.contains(&key) {
            several.insert(key)?;
        } else {
            some.insert(key)?;
        }
    }
    Ok(Partners { some, several })
}

// Whether a key has as many partners as the multiplicity allows.
fn is_allowed(mult: Mult, partners: &Partners, key: &Key) -> bool
    ensures { result ≡ fits mult partners.now key.now }
{
    match mult {
        Mult::One => partners.some.contains(key) && !partners.several.contains(key),
        Mult::ZeroOrOne => !partners.several.contains(key),
        Mult::Many => true,
    }
}

/// Looks at the entities of the set at one side of an association, where it is known which keys have partners.
#[derive(Clone, Copy)]
struct Counted<'a> {
    model: &'a EntityModel,
    a: AssocId,
    assoc: &'a Assoc,
    side: Side,
    under: &'a [bool],
    partners: &'a Partners,
}

impl<'a> Finder<Entity, Found> for Counted<'a> {
    ghost use Rattle.state_legality.specs.link_legality.Counts.{IsMisfit};

    ghost wrong = { λ s i entity. IsMisfit s.model.now s.under.now s.partners.now s.a s.assoc.now s.side i entity };

    fn find(&self, alloc: Global, i: usize, entity: &Entity) -> Result<Option<Found>, Memory> {
        if !is_marked(self.under, entity.ty) {
            return Ok(None);
        }
        let key = key_of(alloc, self.model, entity)?;
        if is_allowed(self.side.partners_of(self.assoc), self.partners, &key) {
            return Ok(None);
        }
        let role = &self.side.end_of(self.assoc).role;
        let place = place_of(alloc, self.model, &self.assoc.set_name, entity, role)?;
        let spot = [self.a.index as usize, self.side.number(), i];
        let found = Found::at(alloc, StateRule::Count.number(), &spot, place)?;
        Ok(Some(found))
    }
}

/// The first entity at this side with more or fewer partners than the other end's multiplicity allows: S7. The entities are those of the
/// end's set.
pub fn first_miscounted(
    alloc: Global,
    model: &EntityModel,
    entities: &[Entity],
    links: &[Link],
    a: AssocId,
    assoc: &Assoc,
    side: Side,
) -> Result<Option<Found>, Memory>
    requires sound { IsSoundModel model.now }
    requires known { IsTypeId model.now (end_at assoc.now side).ty }
    ensures { IfOk result (IsLeast found_cmp (MiscountedAmong model.now entities.now links.now a assoc.now side)) }
{
    if let Mult::Many = side.partners_of(assoc) {
        return Ok(None);
    }
    let under = marks_under(alloc, model, side.end_of(assoc).ty)?;
    let partners = partners_in(alloc, links, side)?;
    let search = Counted {
        model,
        a,
        assoc,
        side,
        under: &under,
        partners: &partners,
    };
    let found = first_among(alloc, &search, entities)?;
    Ok(found)
}
