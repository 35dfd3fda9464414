ghost use Rattle.std.specs.Prelude.{◌≡◌, length, map, slice_index, IfOk};
ghost use Rattle.std.specs.List.{range_with_len};
ghost use Rattle.std.specs.Option.{option_map_or};
ghost use Rattle.graphs.specs.base_chains.Chains.{base_at, root, IsPlace};
ghost use Rattle.graphs.specs.base_chains.Walks.{IsBasesFirst};

use emc_base::Memory;
use std::alloc::Global;

/// For each type the one at the top above it, by an order in which each follows its base; itself where it has no base.
/// `Memory` comes where memory ran out.
pub fn chain_roots(
    alloc: Global,
    bases: &[Option<usize>],
    order: &[usize],
) -> Result<Vec<usize>, Memory>
    requires order { IsBasesFirst (base_at bases.now) (length bases.now) order.now }
    ensures { IfOk result (λ roots. roots.items ≡ map (root (base_at bases.now) (length bases.now)) (range_with_len 0 (length bases.now))) }
{
    let mut roots = vec![in alloc; 0; bases.len()]?;
    for place in order {
        let top = root_at(roots.as_slice(), bases[*place], *place);
        roots[*place] = top;
    }
    Ok(roots)
}

// The root of a place: that of its base, or itself where it has none.
fn root_at(roots: &[usize], base: Option<usize>, place: usize) -> usize
    requires { IsPlace roots.now base }
    ensures { result ≡ option_map_or (slice_index roots.now) base place }
{
    match base {
        Some(base) => roots[base],
        None => place,
    }
}
