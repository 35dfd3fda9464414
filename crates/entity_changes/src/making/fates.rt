ghost use Rattle.std.specs.Prelude.{◌≡◌, ◌<◌, IfOk, length, map};
ghost use Rattle.std.specs.BTreeMap.{get};
ghost use Rattle.std.specs.Option.{option_copied};
ghost use Rattle.entity_changes.specs.Spots.{spot_cmp};
ghost use Rattle.entity_changes.specs.making.Fates.{AddsItem, IsFresh, behind_at, RemovesItems, ReplacesItems, survivor};

use crate::spots::Spot;
use emc_base::Memory;
use std::alloc::Global;
use std::collections::BTreeMap;

/// What later changes do to the items of a spot.
#[derive(Clone, Copy)]
pub enum Fate<'t, T> {
    /// Each is replaced by this one.
    Replaced(&'t T),
    /// Each goes.
    Gone,
}

/// What some last changes do to the items that stand before them: the fate of those at a spot, if they have one; and, for each list, what stands behind
/// them afterwards, the last first.
#[derive(Drop)]
pub struct Fates<'t, T> {
    /// The fate of the items at a spot; where there is none, they stay.
    pub by_spot: BTreeMap<Spot, Fate<'t, T>>,
    /// What stands behind the items of each list, the last first.
    pub behind: Vec<Vec<&'t T>>,
}

impl<'t, T> Fates<'t, T> {
    /// What no change does, to so many lists. `Memory` comes where memory ran out.
    pub fn none(alloc: Global, count: usize) -> Result<Fates<'t, T>, Memory>
        ensures { IfOk result (IsFresh count) }
    {
        let mut behind = Vec::new(alloc);
        for _ in 0..count {
            behind.push(Vec::new(alloc))?;
        }
        Ok(Fates {
            by_spot: BTreeMap::new(alloc),
            behind,
        })
    }

    /// One change before: the items of a spot go. `Memory` comes where memory ran out.
    pub fn remove(&mut self, spot: Spot) -> Result<(), Memory>
        ensures { IfOk result (λ _. RemovesItems spot self.old self.new) }
    {
        self.by_spot.insert(spot, Fate::Gone)?;
        Ok(())
    }

    /// One change before: an item takes the place of each of its spot. `Memory` comes where memory ran out.
    pub fn replace(&mut self, spot: Spot, item: &'t T) -> Result<(), Memory>
        ensures { IfOk result (λ _. ReplacesItems spot item.now self.old self.new) }
    {
        if !self.by_spot.contains_key(&spot) {
            self.by_spot.insert(spot, Fate::Replaced(item))?;
        }
        Ok(())
    }

    /// What becomes of an item of a spot; `None` where it goes.
    pub fn survivor(&self, spot: &Spot, item: &'t T) -> Option<&'t T>
        ensures { option_copied result ≡ survivor (get spot_cmp self.now.by_spot spot.now) item.now }
    {
        match self.by_spot.get(spot) {
            None => Some(item),
            Some(Fate::Replaced(other)) => Some(*other),
            Some(Fate::Gone) => None,
        }
    }

    /// One change before: an item comes behind those of a list. `Memory` comes where memory ran out.
    pub fn add(&mut self, place: usize, spot: &Spot, item: &'t T) -> Result<(), Memory>
        requires { place < length self.old.behind.items }
        ensures { IfOk result (λ _. AddsItem place spot.now item.now self.old self.new) }
    {
        if let Some(kept) = self.survivor(spot, item) {
            self.behind[place].push(kept)?;
        }
        Ok(())
    }

    /// What stands behind the items of a list afterwards, the last first.
    pub fn behind(&self, place: usize) -> &[&'t T]
        requires { place < length self.now.behind.items }
        ensures { map (λ item. item.now) result.now ≡ behind_at self.now place }
    {
        self.behind[place].as_slice()
    }
}
