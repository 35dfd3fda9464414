ghost use Rattle.std.specs.Prelude.{IfOk, length};
ghost use Rattle.row_plans.specs.Planned.{HasPlacesBelow, IsPlanOf};
ghost use Rattle.row_plans.specs.Plans.{AreKeyed, TellsPlan};

use crate::altered::alterations_of;
use crate::listed::{changes_at, changes_round};
use crate::plan::RowPlan;
use crate::waiting::waits_of;
use arrow_orders::{Order, order_of};
use edm_types::StoreModel;
use emc_base::Memory;
use row_orders::Alteration;
use std::alloc::Global;
use table_files::Tables;

/// What the changes from tables to others come to: all of them in an order in which each keeps all keys, or a cycle of some of them.
/// The time is near linear in the rows. `Memory` comes where memory ran out.
pub fn plan_rows(
    alloc: Global,
    store: &StoreModel,
    old: &Tables,
    new: &Tables,
) -> Result<RowPlan, Memory>
    requires { AreKeyed store.now old.now new.now }
    ensures plan { IfOk result (TellsPlan store.now old.now new.now) }
{
    let alterations = alterations_of(alloc, store, old, new)?;
    let ends = waits_of(alloc, store, alterations.as_slice())?;
    let order = order_of(alloc, ends.as_slice())?;
    plan_of(alloc, store, alterations.as_slice(), order)
}

// The changes of alterations in an order, or along a ring.
fn plan_of(
    alloc: Global,
    store: &StoreModel,
    alterations: &[Alteration<'_>],
    order: Order,
) -> Result<RowPlan, Memory>
    requires { HasPlacesBelow (length alterations.now) order }
    ensures { IfOk result (IsPlanOf store.now alterations.now order) }
{
    match order {
        Order::Line(places) => {
            let changes = changes_at(alloc, store, alterations, places.as_slice())?;
            Ok(RowPlan::Steps(changes))
        }
        Order::Ring(places) => {
            let changes = changes_round(alloc, store, alterations, places)?;
            Ok(RowPlan::Circular(changes))
        }
    }
}
