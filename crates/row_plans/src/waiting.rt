//! Which alterations wait for which, by the foreign keys of the store: found in groups of rows that have the same cells.

mod arrows;
mod ends;
mod parts;

ghost use Rattle.std.specs.Prelude.{IfOk};
ghost use Rattle.round_trip.specs.soundness.Stores.{IsSoundStore};
ghost use Rattle.arrow_orders.specs.Orders.{EndWithin};
ghost use Rattle.row_orders.specs.Waiting.{TellWaits};
ghost use Rattle.row_plans.specs.Waits.{AreAsLong, AreArrowsBy};

use arrows::{Arrow, add_key};
use edm_types::StoreModel;
use emc_base::{Memory, Seq};
use ends::ends_by_place;
use row_orders::Alteration;
use std::alloc::Global;

/// For each alteration the places of those that it waits for, by the foreign keys of the store, in the order of these; a place may be listed more than once. None
/// waits for itself. `Memory` comes where memory ran out.
pub(crate) fn waits_of(
    alloc: Global,
    store: &StoreModel,
    alterations: &[Alteration<'_>],
) -> Result<Vec<Seq<usize>>, Memory>
    requires sound { IsSoundStore store.now }
    requires fit { AreAsLong store.now alterations.now }
    ensures tells { IfOk result (λ ends. TellWaits store.now.keys alterations.now ends.items) }
    ensures within { IfOk result (λ ends. EndWithin ends.items) }
{
    let arrows = arrows_of(alloc, store, alterations)?;
    ends_by_place(alloc, &arrows, alterations.len())
}

// The arrows from each alteration to those that it waits for.
fn arrows_of(
    alloc: Global,
    store: &StoreModel,
    alterations: &[Alteration<'_>],
) -> Result<Vec<Arrow>, Memory>
    requires sound { IsSoundStore store.now }
    requires fit { AreAsLong store.now alterations.now }
    ensures { IfOk result (λ arrows. AreArrowsBy store.now.keys alterations.now arrows.items) }
{
    let mut arrows = Vec::new(alloc);
    for key in store.keys.as_slice() {
        add_key(alloc, &mut arrows, key, alterations)?;
    }
    Ok(arrows)
}
