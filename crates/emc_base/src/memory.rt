ghost use Rattle.std.specs.Prelude.{◌≡◌, IfOk, Ok};

use std::alloc::{AllocError, AllocFailed};

/// Want of memory: an allocation failed, or a list is full.
#[derive(Clone, Copy, Debug, PartialEq, Eq)]
pub struct Memory;

impl From<AllocError> for Memory {
    fn from(_error: AllocError) -> Memory {
        Memory
    }
}

impl<T: Drop> From<AllocFailed<T>> for Memory {
    fn from(_error: AllocFailed<T>) -> Memory {
        Memory
    }
}

/// Both of two things, where there are both. So where one is missing, the other is dropped here, and not in the function that makes them.
pub fn both<A: Drop, B: Drop>(
    first: Result<A, Memory>,
    second: Result<B, Memory>,
) -> Result<(A, B), Memory>
    ensures { IfOk result (λ pair. (first ≡ Ok pair.0) × (second ≡ Ok pair.1)) }
{
    Ok((first?, second?))
}

/// One thing and beside it another, where there is the other; where there is none, the first is dropped.
pub fn beside<A: Drop, B>(first: A, second: Result<B, Memory>) -> Result<(A, B), Memory>
    ensures { IfOk result (λ pair. (pair.0 ≡ first) × (second ≡ Ok pair.1)) }
{
    Ok((first, second?))
}
