ghost use Rattle.std.specs.Prelude.{◌≡◌, length, IfOk, ℕ};
ghost use Rattle.graphs.specs.base_chains.Chains.{base_at, IsAncestor, StandAbove, StaysWithin};

use emc_base::Memory;
use std::alloc::Global;

/// The places that stand above one, each once, from its base up to the root. None may stand above itself. `Memory` comes where memory ran out.
pub fn places_above(
    alloc: Global,
    bases: &[Option<usize>],
    place: usize,
) -> Result<Vec<usize>, Memory>
    requires within { StaysWithin (base_at bases.now) (length bases.now) }
    requires rooted { (i : ℕ) → ¬ IsAncestor (base_at bases.now) i i }
    ensures { IfOk result (λ above. StandAbove (base_at bases.now) place above.items) }
{
    let mut above = Vec::new(alloc);
    let mut next = base_at(bases, place);
    while let Some(ancestor) = next {
        above.push(ancestor)?;
        next = base_at(bases, ancestor);
    }
    Ok(above)
}

// The base of a place.
fn base_at(bases: &[Option<usize>], place: usize) -> Option<usize>
    ensures { result ≡ base_at bases.now place }
{
    bases.get(place).copied().flatten()
}
