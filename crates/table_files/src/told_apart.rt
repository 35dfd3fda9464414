ghost use Rattle.std.specs.Prelude.{◌≡◌, ◌↔◌, AllPairs, IfOk, IsTrue};
ghost use Rattle.std.specs.declared.cmp.Ordering.TheVariants.{Less};
ghost use Rattle.table_files.specs.Entries.{entry_cmp};
ghost use Rattle.table_files.specs.InOrder.{AreToldApartBy};

use crate::sort_entry::{SortEntry, compare_entries, sorted_entries};
use edm_types::Row;
use emc_base::{ColId, Memory};
use std::alloc::Global;

/// Whether no two rows have the same cells in all of some columns. They are put in order, and neighbours are compared. `Memory` comes where memory ran out.
pub fn are_told_apart(alloc: Global, rows: &[Row], cols: &[ColId]) -> Result<bool, Memory>
    ensures { IfOk result (λ told. IsTrue told ↔ AreToldApartBy cols.now rows.now) }
{
    let sorted = sorted_entries(alloc, rows, cols)?;
    Ok(rise(sorted.as_slice(), cols))
}

// Whether each entry comes before the next one.
fn rise(entries: &[SortEntry<'_>], cols: &[ColId]) -> bool
    ensures { IsTrue result ↔ AllPairs (λ one later. entry_cmp cols.now one later ≡ Less) entries.now }
{
    for i in 1..entries.len() {
        if !compare_entries(&entries[i - 1], &entries[i], cols).is_lt() {
            return false;
        }
    }
    true
}
