ghost use Rattle.std.specs.Prelude.{◌≡◌, ℕ, IfOk};
ghost use Rattle.groupings.specs.least_fault.Least.{Among, IsLeast};

use crate::least_fault::least::earlier;
use emc_base::Memory;
use std::alloc::Global;

/// A search for what is wrong with the items of a list.
pub trait Finder<T, F: Ord> {
    /// What may be found at the item of this place, counted from 0.
    ghost wrong: { Self → ℕ → T → F → Type 0 };

    /// The least of what is wrong with the item at a place. `Memory` comes where memory ran out.
    fn find(&self, alloc: Global, place: usize, item: &T) -> Result<Option<F>, Memory>
        ensures { IfOk result (λ found. IsLeast F.cmp (wrong self.now place item.now) found) };
}

/// The least of what is wrong with any item of a list.
pub fn first_among<T, F: Ord + Drop, S: Finder<T, F>>(
    alloc: Global,
    search: &S,
    items: &[T],
) -> Result<Option<F>, Memory>
    ensures { IfOk result (λ found. IsLeast F.cmp (Among (S.wrong search.now) items.now) found) }
{
    let mut found = None;
    for (place, item) in items.iter().enumerate() {
        found = earlier(found, search.find(alloc, place, item)?);
    }
    Ok(found)
}
