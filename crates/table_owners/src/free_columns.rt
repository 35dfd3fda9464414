ghost use Rattle.std.specs.Prelude.{◌≡◌, length, map, replicate, IfOk};
ghost use Rattle.round_trip.specs.Words.{EntityModel};
ghost use Rattle.round_trip.specs.Between.{schema_of};
ghost use Rattle.table_owners.specs.Clearing.{IsStart};
ghost use Rattle.table_owners.specs.FreeColumns.{TellFree};

use crate::clearing::{clear_entities, clear_links};
use crate::sources::sources_of;
use edm_types::{Mapping, StoreModel, Table};
use emc_base::{Memory, Seq};
use std::alloc::Global;

/// For each column of each table whether it is free. The time is linear in the number of columns, pairs and conditions. `Memory`
/// comes where memory ran out.
pub fn free_columns_of(
    alloc: Global,
    store: &StoreModel,
    mapping: &Mapping,
) -> Result<Seq<Seq<bool>>, Memory>
    ensures { (model : EntityModel) → IfOk result (TellFree (schema_of model store.now mapping.now)) }
{
    let mut free = columns_of_written(alloc, store, mapping)?;
    clear_entities(&mut free, mapping.fragments.as_slice());
    clear_links(&mut free, mapping.links.as_slice());
    as_lists(alloc, free)
}

// For each column of each table whether anything writes the table.
fn columns_of_written(
    alloc: Global,
    store: &StoreModel,
    mapping: &Mapping,
) -> Result<Vec<Vec<bool>>, Memory>
    ensures { IfOk result (λ free. (model : EntityModel) → IsStart (schema_of model store.now mapping.now) (length store.now.tables) free.items) }
{
    let sources = sources_of(alloc, store, mapping)?;
    let mut free = Vec::new(alloc);
    for (place, table) in store.tables.as_slice().iter().enumerate() {
        free.push(columns_as(alloc, table, sources[place].is_some())?)?;
    }
    Ok(free)
}

// The same for each column of a table.
fn columns_as(alloc: Global, table: &Table, written: bool) -> Result<Vec<bool>, Memory>
    ensures { IfOk result (λ columns. columns.items ≡ replicate (length table.now.cols) written) }
{
    let columns = vec![in alloc; written; table.cols.len()]?;
    Ok(columns)
}

// The same as lists.
fn as_lists(alloc: Global, free: Vec<Vec<bool>>) -> Result<Seq<Seq<bool>>, Memory>
    ensures { IfOk result (λ lists. lists ≡ map (λ columns. columns.items) free.items) }
{
    let mut lists = Seq::empty(alloc);
    for columns in free {
        lists.push(Seq::from_vec(columns)?)?;
    }
    Ok(lists)
}
