ghost use Rattle.std.specs.Prelude.{IfOk};
ghost use Rattle.std.specs.Ordering.{nat_cmp};
ghost use Rattle.groupings.specs.least_fault.Least.{IsLeast};
ghost use Rattle.table_owners.specs.table_writers.Writers.{HasOtherOwner};

use crate::table_writers::firsts::first_place;
use crate::table_writers::writer::Writer;
use emc_base::Memory;
use std::alloc::Global;
use std::collections::BTreeMap;

/// The first writer whose table has another owner by an earlier one. Each writer is compared with the first of its table
/// alone. `Memory` comes where memory ran out.
pub fn first_other_owner(alloc: Global, writers: &[Writer]) -> Result<Option<usize>, Memory>
    ensures { IfOk result (IsLeast nat_cmp (HasOtherOwner writers.now)) }
{
    let mut firsts = BTreeMap::new(alloc);
    for (place, writer) in writers.iter().enumerate() {
        let first = first_place(&mut firsts, writer.table.index, place)?;
        if writers[first].owner != writer.owner {
            return Ok(Some(place));
        }
    }
    Ok(None)
}
