ghost use Rattle.std.specs.Prelude.{◌≡◌, AllPairs, IfOk, IsTrue, map};
ghost use Rattle.std.specs.Ordering.{eq_by_cmp};
ghost use Rattle.std.specs.declared.cmp.Ordering.TheVariants.{Less};

use emc_base::Memory;
use std::alloc::Global;

/// Whether no two keys are alike: in their order, each is greater than the one before it. A false answer says nothing. `Memory` comes where memory ran out.
pub(super) fn are_apart<K: Ord>(alloc: Global, keys: &[K]) -> Result<bool, Memory>
    ensures { IfOk result (λ told. IsTrue told → AllPairs (λ one other. ¬ IsTrue (eq_by_cmp K.cmp one other)) keys.now) }
{
    let mut sorted = lent(alloc, keys)?;
    sorted.sort()?;
    Ok(rise(sorted.as_slice()))
}

// Lends keys in their order.
fn lent<'k, K>(alloc: Global, keys: &'k [K]) -> Result<Vec<&'k K>, Memory>
    ensures { IfOk result (λ all. map (λ key. key.now) all.items ≡ keys.now) }
{
    let mut all = Vec::new(alloc);
    for key in keys {
        all.push(key)?;
    }
    Ok(all)
}

// Whether each key is greater than the one before it.
fn rise<K: Ord>(keys: &[&K]) -> bool
    ensures { IsTrue result → AllPairs (λ one later. K.cmp one.now later.now ≡ Less) keys.now }
{
    for i in 1..keys.len() {
        if !keys[i - 1].cmp(keys[i]).is_lt() {
            return false;
        }
    }
    true
}
