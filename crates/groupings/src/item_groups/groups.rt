ghost use Rattle.std.specs.Prelude.{◌≡◌, ◌++◌, ◌∷◌, [], IfOk, IsSortedByKey, false};
ghost use Rattle.std.specs.BTreeMap.{get};
ghost use Rattle.std.specs.Ordering.{is_eq};
ghost use Rattle.groupings.specs.item_groups.Groups.{items_at, items_of};

use emc_base::Memory;
use std::alloc::Global;
use std::collections::BTreeMap;

/// The items of each key, in their order. `Memory` comes where memory ran out. They are put in the order of keys first, since a map takes keys that rise
/// from places of memory that lie close together.
pub fn group<K: Ord + Drop, T: Drop>(
    alloc: Global,
    keyed: Vec<(K, T)>,
) -> Result<BTreeMap<K, Vec<T>>, Memory>
    ensures { IfOk result (λ groups. (key : K) → items_at K.cmp groups key ≡ items_of K.cmp keyed.items key) }
{
    let sorted = in_order(keyed)?;
    let mut groups = BTreeMap::new(alloc);
    for (key, item) in sorted {
        add(alloc, &mut groups, key, item)?;
    }
    Ok(groups)
}

/// The items in the order of their keys; those of each key in their order. `Memory` comes where memory ran out.
pub fn in_order<K: Ord + Drop, T: Drop>(keyed: Vec<(K, T)>) -> Result<Vec<(K, T)>, Memory>
    ensures rising { IfOk result (λ sorted. IsSortedByKey (λ one. one.0) K.cmp sorted.items) }
    ensures items { IfOk result (λ sorted. (key : K) → items_of K.cmp sorted.items key ≡ items_of K.cmp keyed.items key) }
{
    let mut sorted = keyed;
    sorted.sort_by(|one, other| one.0.cmp(&other.0))?;
    Ok(sorted)
}

// Adds an item at the end of those of its key.
fn add<K: Ord + Drop, T: Drop>(
    alloc: Global,
    groups: &mut BTreeMap<K, Vec<T>>,
    key: K,
    item: T,
) -> Result<(), Memory>
    ensures own { IfOk result (λ _. items_at K.cmp groups.new key ≡ items_at K.cmp groups.old key ++ item ∷ []) }
    ensures others { IfOk result (λ _. (other : K) → is_eq (K.cmp key other) ≡ false → get K.cmp groups.new other ≡ get K.cmp groups.old other) }
{
    groups.entry(key)?.or_insert(Vec::new(alloc)).push(item)?;
    Ok(())
}
