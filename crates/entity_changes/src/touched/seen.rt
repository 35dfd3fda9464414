ghost use Rattle.std.specs.Prelude.{◌≡◌, [], IfOk};
ghost use Rattle.std.specs.BTreeSet.{IsEmpty};
ghost use Rattle.entity_changes.specs.touched.Seen.{AddsOnce};

use crate::spots::Spot;
use emc_base::{Memory, Seq};
use std::alloc::Global;
use std::collections::BTreeSet;

/// Items, each once, with their spots.
#[derive(Drop)]
pub(crate) struct Seen<T> {
    pub(crate) spots: BTreeSet<Spot>,
    pub(crate) items: Seq<T>,
}

impl<T: Drop> Seen<T> {
    /// No item.
    pub(super) fn none(alloc: Global) -> Seen<T>
        ensures spots { IsEmpty result.spots }
        ensures items { result.items ≡ [] }
    {
        Seen {
            spots: BTreeSet::new(alloc),
            items: Seq::empty(alloc),
        }
    }

    /// Adds an item behind the others, unless one has its spot. `Memory` comes where memory ran out.
    pub(super) fn add(&mut self, spot: Spot, item: T) -> Result<(), Memory>
        ensures { IfOk result (λ _. AddsOnce spot item self.old self.new) }
    {
        if self.spots.insert(spot)? {
            self.items.push(item)?;
        }
        Ok(())
    }

    /// The items.
    pub(super) fn into_items(self) -> Seq<T>
        ensures { result ≡ self.items }
    {
        self.items
    }
}
