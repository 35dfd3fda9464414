ghost use Rattle.std.specs.Prelude.{◌≡◌, All, IfOk, length};
ghost use Rattle.delta_plan.specs.Running.{Foretells, ForetellsOneMore, IsOfTable};

use crate::running::row_spots::{key_spot, row_spot};
use edm_types::{Row, StoreModel};
use emc_base::Memory;
use entity_changes::Fates;
use row_changes::RowChange;
use std::alloc::Global;

/// What these changes do to the rows of so many tables. `Memory` comes where memory ran out.
pub(super) fn fates_of<'t>(
    alloc: Global,
    store: &StoreModel,
    changes: &'t [RowChange],
    count: usize,
) -> Result<Fates<'t, Row>, Memory>
    requires { All (IsOfTable count) changes.now }
    ensures size { IfOk result (λ fates. length fates.behind.items ≡ count) }
    ensures told { IfOk result (Foretells store.now changes.now) }
{
    let mut fates = Fates::none(alloc, count)?;
    for change in changes.iter().rev() {
        take(alloc, store, change, &mut fates)?;
    }
    Ok(fates)
}

// One change before the others.
fn take<'t>(
    alloc: Global,
    store: &StoreModel,
    change: &'t RowChange,
    fates: &mut Fates<'t, Row>,
) -> Result<(), Memory>
    requires { IsOfTable (length fates.old.behind.items) change.now }
    ensures { IfOk result (λ _. ForetellsOneMore store.now change.now fates.old fates.new) }
{
    match change {
        RowChange::Insert(table, row) => {
            let spot = row_spot(alloc, store, *table, row)?;
            fates.add(table.index as usize, &spot, row)
        }
        RowChange::Update(table, row) => {
            let spot = row_spot(alloc, store, *table, row)?;
            fates.replace(spot, row)
        }
        RowChange::Delete(table, key) => {
            let spot = key_spot(alloc, *table, key)?;
            fates.remove(spot)
        }
    }
}
