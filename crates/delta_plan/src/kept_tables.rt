ghost use Rattle.std.specs.Prelude.{IfOk};
ghost use Rattle.row_plans.specs.Plans.{AreKeyed};
ghost use Rattle.delta_plan.specs.Keeping.{AreKeptInOrder};

use crate::keeping::kept_rows;
use cells::Parts;
use emc_base::Memory;
use std::alloc::Global;
use table_files::Tables;

/// The fresh tables, in whose free cells stands what the tables hold in the row of the same key, where there is one; the rows of each table stand in the order
/// of their keys. In neither of the tables have two rows of one table the same key. `Memory` comes where memory ran out.
pub fn kept(
    alloc: Global,
    parts: &Parts<'_>,
    tables: &Tables,
    fresh: &Tables,
) -> Result<Tables, Memory>
    requires { AreKeyed parts.now.store.now tables.now fresh.now }
    ensures { IfOk result (AreKeptInOrder parts.now.store.now parts.now.cells.now tables.now fresh.now) }
{
    let kept = kept_rows(alloc, parts.store, parts.cells, tables, fresh)?;
    Ok(kept)
}
