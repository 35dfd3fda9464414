ghost use Rattle.std.specs.Prelude.{◌≡◌, IfOk, map};
ghost use Rattle.std.specs.Option.{option_copied};

use edm_types::Row;
use emc_base::{Key, Memory, Seq, Value};
use std::alloc::Global;

// A copy of a lent row, where there is one.
pub(super) fn copied_row(alloc: Global, row: Option<&Row>) -> Result<Option<Row>, Memory>
    ensures { IfOk result (λ copy. copy ≡ option_copied row.entry) }
{
    match row {
        None => Ok(None),
        Some(lent) => Ok(Some(Row {
            cells: lent.cells.copy(alloc)?,
        })),
    }
}

// A copy of a lent key.
pub(super) fn copied_key(alloc: Global, key: &[&Value]) -> Result<Key, Memory>
    ensures { IfOk result (λ copy. copy ≡ map (λ cell. cell.now) key.now) }
{
    let mut copy = Seq::empty(alloc);
    for value in key {
        copy.push(value.copy(alloc)?)?;
    }
    Ok(copy)
}
