ghost use Rattle.std.specs.Prelude.{◌≡◌, ◌++◌, ◌∷◌, [], IfOk, List, map, ℕ};
ghost use Rattle.member_groups.specs.group_numbers.Numbers.{HoldsEach};
ghost use Rattle.regions.specs.Symbols.{SymbolWriting};
ghost use Rattle.symbolic_rows.specs.Grouped.{AreEmpty, AreTo};
ghost use Rattle.symbolic_rows.specs.Written.{in_symbols};

use crate::writing::Writing;
use emc_base::Memory;
use std::alloc::Global;

/// For each of so many tables the writings to it, in their order. `Memory` comes where memory ran out.
pub fn by_table(
    alloc: Global,
    count: usize,
    writings: Vec<Writing>,
) -> Result<Vec<Vec<Writing>>, Memory>
    ensures { IfOk result (λ grouped. HoldsEach (AreTo (map in_symbols writings.items)) count grouped.items) }
{
    let mut grouped = empty_lists(alloc, count)?;
    for writing in writings {
        put(&mut grouped, writing)?;
    }
    Ok(grouped)
}

// Adds a writing to those to its table.
fn put(grouped: &mut Vec<Vec<Writing>>, writing: Writing) -> Result<(), Memory>
    ensures { (writings : List SymbolWriting) (count : ℕ) → HoldsEach (AreTo writings) count grouped.old.items
        → IfOk result (λ _. HoldsEach (AreTo (writings ++ in_symbols writing ∷ [])) count grouped.new.items) }
{
    if let Some(own) = grouped.get_mut(writing.table.index as usize) {
        own.push(writing)?;
    }
    Ok(())
}

/// So many empty lists. `Memory` comes where memory ran out.
pub fn empty_lists<T>(alloc: Global, count: usize) -> Result<Vec<Vec<T>>, Memory>
where
    T: Drop,
    ensures { IfOk result (λ lists. AreEmpty count lists.items) }
{
    let mut lists = Vec::new(alloc);
    for _ in 0..count {
        lists.push(Vec::new(alloc))?;
    }
    Ok(lists)
}
