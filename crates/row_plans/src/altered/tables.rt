ghost use Rattle.std.specs.Prelude.{◌≡◌, ◌<◌, ◌++◌, All, IfOk, length};
ghost use Rattle.std.specs.List.{flat_map};
ghost use Rattle.row_orders.specs.Alterations.{AreAlterations};
ghost use Rattle.row_plans.specs.Altered.{AddsTable, altered_at, altered_in};
ghost use Rattle.row_plans.specs.Lengths.{AreAsLong};
ghost use Rattle.row_plans.specs.Plans.{AreKeyed};

use crate::altered::comparing::rows_differ;
use crate::altered::sides::{Side, SidedRow, row_groups, row_of};
use edm_types::{Row, StoreModel};
use emc_base::{ColId, Memory, TableId};
use keyed_rows::KeyGroup;
use row_orders::Alteration;
use std::alloc::Global;
use table_files::Tables;

/// The rows that differ between tables: by the order of tables, and in a table by the order of keys. The time is near linear in the
/// rows. `Memory` comes where memory ran out.
pub(crate) fn alterations_of<'t>(
    alloc: Global,
    store: &StoreModel,
    old: &'t Tables,
    new: &'t Tables,
) -> Result<Vec<Alteration<'t>>, Memory>
    requires { AreKeyed store.now old.now new.now }
    ensures all { IfOk result (λ found. AreAlterations store.now old.now new.now found.items) }
    ensures long { IfOk result (λ found. AreAsLong store.now found.items) }
{
    let mut found = Vec::new(alloc);
    for index in 0..store.tables.len() {
        let id = TableId {
            index: index as u32,
        };
        let key = store.tables.at(index).key.as_slice();
        add_table(
            alloc,
            &mut found,
            id,
            key,
            old.rows(id).as_slice(),
            new.rows(id).as_slice(),
        )?;
    }
    Ok(found)
}

// Adds the rows of a table that differ.
fn add_table<'t>(
    alloc: Global,
    found: &mut Vec<Alteration<'t>>,
    id: TableId,
    key: &[ColId],
    old: &'t [Row],
    new: &'t [Row],
) -> Result<(), Memory>
    requires within { All (λ row. All (λ col. col.index < length row.cells) key.now) old.now }
    requires new_within { All (λ row. All (λ col. col.index < length row.cells) key.now) new.now }
    ensures { IfOk result (λ _. AddsTable id key.now old.now new.now found.old.items found.new.items) }
{
    if old.is_empty() && new.is_empty() {
        return Ok(());
    }
    let groups = row_groups(alloc, key, old, new)?;
    add_groups(found, id, groups.as_slice())
}

// Adds those of some keys.
fn add_groups<'t>(
    found: &mut Vec<Alteration<'t>>,
    id: TableId,
    groups: &[KeyGroup<'t, SidedRow<'t>>],
) -> Result<(), Memory>
    ensures { IfOk result (λ _. found.new.items ≡ found.old.items ++ flat_map (altered_in id) groups.now) }
{
    for group in groups {
        add_group(found, id, group.items.as_slice())?;
    }
    Ok(())
}

// Adds the rows of one key, if they differ.
fn add_group<'t>(
    found: &mut Vec<Alteration<'t>>,
    id: TableId,
    rows: &[SidedRow<'t>],
) -> Result<(), Memory>
    ensures { IfOk result (λ _. found.new.items ≡ found.old.items ++ altered_at id rows.now) }
{
    let old = row_of(rows, Side::Before);
    let new = row_of(rows, Side::Afterwards);
    if rows_differ(old, new) {
        found.push(Alteration {
            table: id,
            old,
            new,
        })?;
    }
    Ok(())
}
