ghost use Rattle.std.specs.Prelude.{IfOk, map};
ghost use Rattle.keyed_rows.specs.row_groups.KeyGroups.{AreKeyGroups, HasOneMore};
ghost use Rattle.keyed_rows.specs.row_groups.Shown.{shown_cells, shown_group, shown_keyed};

use emc_base::{Memory, Value};
use groupings::in_order;
use std::alloc::Global;

/// The items of one key.
#[derive(Drop)]
pub struct KeyGroup<'t, T> {
    /// The values of the key.
    pub key: Vec<&'t Value>,
    /// The items, of which there is one at least.
    pub items: Vec<T>,
}

/// Items grouped by their keys, in the order of keys; those of one key in their order. `Memory` comes where memory ran out.
pub fn key_groups<'t, T: Drop>(
    alloc: Global,
    keyed: Vec<(Vec<&'t Value>, T)>,
) -> Result<Vec<KeyGroup<'t, T>>, Memory>
    ensures { IfOk result (λ groups. AreKeyGroups (map shown_keyed keyed.entry.items) (map shown_group groups.items)) }
{
    let mut groups = Vec::new(alloc);
    for (key, item) in in_order(keyed)? {
        add(alloc, &mut groups, key, item)?;
    }
    Ok(groups)
}

// Adds an item to the last group where this has its key, and in a group of its own behind the others where it hasn't.
fn add<'t, T: Drop>(
    alloc: Global,
    groups: &mut Vec<KeyGroup<'t, T>>,
    key: Vec<&'t Value>,
    item: T,
) -> Result<(), Memory>
    ensures { IfOk result (λ _. HasOneMore (map shown_group groups.old.items) (shown_cells key.entry) item (map shown_group groups.new.items)) }
{
    if let Some(last) = groups.last_mut() {
        if last.key.cmp(&key).is_eq() {
            last.items.push(item)?;
            return Ok(());
        }
    }
    let mut items = Vec::new(alloc);
    items.push(item)?;
    groups.push(KeyGroup { key, items })?;
    Ok(())
}
