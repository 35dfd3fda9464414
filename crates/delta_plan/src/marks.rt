ghost use Rattle.std.specs.Prelude.{◌≡◌, IfOk};
ghost use Rattle.round_trip.specs.Words.{key_of};
ghost use Rattle.delta_plan.specs.Marks.{AreMarks, holds_key, holds_link, HoldsKeys, HoldsLinks};

use edm_types::{Entity, EntityModel, Link};
use emc_base::{AssocId, Key, Memory, SetId};
use entity_changes::Touched;
use entity_state::key_of;
use std::alloc::Global;
use std::collections::BTreeSet;

/// A key in an entity set, as it is looked up.
#[derive(PartialEq, Eq, PartialOrd, Ord, Drop)]
pub(crate) struct KeySpot {
    pub(crate) set: u32,
    pub(crate) key: Key,
}

/// A link in an association set, as it is looked up.
#[derive(PartialEq, Eq, PartialOrd, Ord, Drop)]
pub(crate) struct LinkSpot {
    pub(crate) assoc: u32,
    pub(crate) first: Key,
    pub(crate) second: Key,
}

/// What is touched, as it is looked up.
#[derive(Drop)]
pub(crate) struct Marks {
    pub(crate) keys: BTreeSet<KeySpot>,
    pub(crate) links: BTreeSet<LinkSpot>,
}

impl Marks {
    /// The marks of what is touched.
    pub(crate) fn of(alloc: Global, touched: &Touched) -> Result<Marks, Memory>
        ensures { IfOk result (AreMarks touched.now) }
    {
        Ok(Marks {
            keys: key_spots(alloc, touched.entities.as_slice())?,
            links: link_spots(alloc, touched.links.as_slice())?,
        })
    }

    /// Whether the key in the set is touched.
    pub(crate) fn holds_key(&self, alloc: Global, set: SetId, key: &Key) -> Result<bool, Memory>
        ensures { IfOk result (λ held. held ≡ holds_key self.now set key.now) }
    {
        let spot = KeySpot {
            set: set.index,
            key: key.copy(alloc)?,
        };
        Ok(self.keys.contains(&spot))
    }

    /// Whether the link is touched.
    pub(crate) fn holds_link(
        &self,
        alloc: Global,
        assoc: AssocId,
        link: &Link,
    ) -> Result<bool, Memory>
        ensures { IfOk result (λ held. held ≡ holds_link self.now assoc link.now) }
    {
        let spot = link_spot(alloc, assoc, link)?;
        Ok(self.links.contains(&spot))
    }
}

// The keys in their sets.
fn key_spots(alloc: Global, touched: &[(SetId, Key)]) -> Result<BTreeSet<KeySpot>, Memory>
    ensures { IfOk result (HoldsKeys touched.now) }
{
    let mut spots = BTreeSet::new(alloc);
    for (set, key) in touched {
        let spot = KeySpot {
            set: set.index,
            key: key.copy(alloc)?,
        };
        spots.insert(spot)?;
    }
    Ok(spots)
}

// The links in their association sets.
fn link_spots(alloc: Global, touched: &[(AssocId, Link)]) -> Result<BTreeSet<LinkSpot>, Memory>
    ensures { IfOk result (HoldsLinks touched.now) }
{
    let mut spots = BTreeSet::new(alloc);
    for (assoc, link) in touched {
        spots.insert(link_spot(alloc, *assoc, link)?)?;
    }
    Ok(spots)
}

// A link in its association set.
fn link_spot(alloc: Global, assoc: AssocId, link: &Link) -> Result<LinkSpot, Memory>
    ensures { IfOk result (λ spot. spot ≡ record { assoc = assoc.index; first = link.now.first; second = link.now.second }) }
{
    Ok(LinkSpot {
        assoc: assoc.index,
        first: link.first.copy(alloc)?,
        second: link.second.copy(alloc)?,
    })
}
