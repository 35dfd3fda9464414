ghost use Rattle.std.specs.Prelude.{◌≡◌, ◌<◌, ◌^◌, length, map, slice_index, IfOk};
ghost use Rattle.std.specs.List.{range_with_len};
ghost use Rattle.std.specs.Option.{option_map_or};
ghost use Rattle.graphs.specs.base_chains.Chains.{base_at, chain_size, IsPlace};
ghost use Rattle.graphs.specs.base_chains.Walks.{IsBasesFirst};

use emc_base::Memory;
use std::alloc::Global;

/// For each type the sum of what it and all that stand above it have of their own, by an order in which each follows its
/// base. Where each has 1 of its own, this is how deep it stands, a root at 1. No sum reaches 2^64, since there are fewer
/// than 2^32 types. `Memory` comes where memory ran out.
pub fn chain_sizes(
    alloc: Global,
    bases: &[Option<usize>],
    own: &[u32],
    order: &[usize],
) -> Result<Vec<u64>, Memory>
    requires few { length bases.now < 2 ^ 32 }
    requires alike { length own.now ≡ length bases.now }
    requires order { IsBasesFirst (base_at bases.now) (length bases.now) order.now }
    ensures { IfOk result (λ sizes. sizes.items ≡ map (chain_size (base_at bases.now) (length bases.now) own.now) (range_with_len 0 (length bases.now))) }
{
    let mut sizes = vec![in alloc; 0; bases.len()]?;
    for place in order {
        let inherited = size_at(sizes.as_slice(), bases[*place]);
        sizes[*place] = inherited + u64::from(own[*place]);
    }
    Ok(sizes)
}

// The size at a place, and 0 for none.
fn size_at(sizes: &[u64], place: Option<usize>) -> u64
    requires { IsPlace sizes.now place }
    ensures { result ≡ option_map_or (slice_index sizes.now) place 0 }
{
    match place {
        Some(place) => sizes[place],
        None => 0,
    }
}
