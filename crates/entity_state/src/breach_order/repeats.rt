ghost use Rattle.std.specs.Prelude.{◌≡◌, IfOk, IsTrue};
ghost use Rattle.std.specs.Ordering.{eq_by_cmp};
ghost use Rattle.entity_state.specs.breach_order.Repeats.{IsFirstRepeat};

use crate::breach_order::in_order::are_apart;
use emc_base::{Key, KeyRef, Memory};
use std::alloc::Global;
use std::collections::BTreeSet;

/// The first place at which a key is alike one before it, by the order of keys; `None` exactly where no two are alike. `Memory` comes
/// where memory ran out. The keys are put in order first, which is quick, and passed one by one only where two are alike.
pub fn first_repeat<K: Ord>(alloc: Global, keys: &[K]) -> Result<Option<usize>, Memory>
    ensures { IfOk result (IsFirstRepeat (λ one other. IsTrue (eq_by_cmp K.cmp one other)) keys.now) }
{
    if are_apart(alloc, keys)? {
        return Ok(None);
    }
    first_seen_again(alloc, keys)
}

// The same by one pass over the keys, with a set of those that were passed.
fn first_seen_again<K: Ord>(alloc: Global, keys: &[K]) -> Result<Option<usize>, Memory>
    ensures { IfOk result (IsFirstRepeat (λ one other. IsTrue (eq_by_cmp K.cmp one other)) keys.now) }
{
    let mut seen: BTreeSet<&K> = BTreeSet::new(alloc);
    for i in 0..keys.len() {
        if !seen.insert(&keys[i])? {
            return Ok(Some(i));
        }
    }
    Ok(None)
}

/// The first place at which a key equals one before it; `None` exactly where no two are equal. `Memory` comes where memory ran out.
pub fn first_repeated_key(alloc: Global, keys: &[Key]) -> Result<Option<usize>, Memory>
    ensures { IfOk result (IsFirstRepeat (λ one other. one ≡ other) keys.now) }
{
    let lent = lent_keys(alloc, keys)?;
    first_repeat(alloc, lent.as_slice())
}

/// Lends keys, in their order.
pub fn lent_keys<'k>(alloc: Global, keys: &'k [Key]) -> Result<Vec<KeyRef<'k>>, Memory>
    ensures { IfOk result (λ lent. lent.items ≡ keys.now) }
{
    let mut lent = Vec::with_capacity(alloc, keys.len())?;
    for key in keys {
        lent.push(KeyRef::of(key))?;
    }
    Ok(lent)
}
