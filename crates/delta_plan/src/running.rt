ghost use Rattle.std.specs.Prelude.{◌≡◌, All, IfOk, length};
ghost use Rattle.row_changes.specs.Changes.{after};
ghost use Rattle.delta_plan.specs.Running.{IsOfTable};

mod foretold;
mod lists;
mod row_spots;

use crate::running::foretold::fates_of;
use crate::running::lists::row_lists;
use edm_types::StoreModel;
use emc_base::{Memory, Seq};
use row_changes::RowChange;
use std::alloc::Global;
use table_files::Tables;

/// The tables that changes of rows leave, one behind the other: a row that comes stands behind the others of its table, and one that takes the place of another
/// stands in its place. A change that doesn't find its row changes what `after` says, so nothing is asked of that.
///
/// The time is near linear in the rows and the changes together. `Memory` comes where memory ran out.
pub fn run_changes(
    alloc: Global,
    store: &StoreModel,
    changes: &Seq<RowChange>,
    tables: &Tables,
) -> Result<Tables, Memory>
    requires { All (IsOfTable (length tables.now)) changes.now }
    ensures { IfOk result (λ new. new ≡ after store.now tables.now changes.now) }
{
    let lists = tables.as_slice();
    let fates = fates_of(alloc, store, changes.as_slice(), lists.len())?;
    let rows = row_lists(alloc, store, &fates, lists)?;
    Ok(Tables::of_lists(rows))
}
