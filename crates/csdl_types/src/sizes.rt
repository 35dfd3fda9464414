ghost use Rattle.std.specs.Prelude.{◌≡◌, ◌<◌, ◌^◌, length, IfOk};
ghost use Rattle.graphs.specs.base_chains.Chains.{base_at};
ghost use Rattle.graphs.specs.base_chains.Walks.{IsBasesFirst};

use csdl_names::RawType;
use emc_base::Memory;
use graphs::chain_sizes;
use std::alloc::Global;

/// How many names all types may have together, each with those of all types above it. Without a bound, a document that is one long chain
/// of types would take the square of its length: in time here, and in memory where inherited lists are made.
const MOST_INHERITED: u64 = 67_108_864;

/// How deep a type may stand, a root at 1. The tree of types is dropped by recursion, which takes stack for each level.
const MOST_LEVELS: u64 = 16_384;

/// How deep all types may stand together, which is how many steps it takes to look at all that stand above each: as many as a chain of the
/// most levels takes twice over.
const MOST_STEPS: u64 = 268_435_456;

/// Answers `Memory` where types inherit too much, or stand too deep.
pub(crate) fn keep_small(
    alloc: Global,
    types: &[RawType],
    bases: &[Option<usize>],
    order: &[usize],
) -> Result<(), Memory>
    requires few { length types.now < 2 ^ 32 }
    requires alike { length bases.now ≡ length types.now }
    requires order { IsBasesFirst (base_at bases.now) (length bases.now) order.now }
{
    keep_inherited_small(alloc, types, bases, order)?;
    let ones = vec![in alloc; 1u32; bases.len()]?;
    let levels = chain_sizes(alloc, bases, ones.as_slice(), order)?;
    if largest(levels.as_slice()) > MOST_LEVELS || sum(levels.as_slice()) > MOST_STEPS {
        return Err(Memory);
    }
    Ok(())
}

fn keep_inherited_small(
    alloc: Global,
    types: &[RawType],
    bases: &[Option<usize>],
    order: &[usize],
) -> Result<(), Memory>
    requires few { length types.now < 2 ^ 32 }
    requires alike { length bases.now ≡ length types.now }
    requires order { IsBasesFirst (base_at bases.now) (length bases.now) order.now }
{
    let counts = own_counts(alloc, types)?;
    let inherited = chain_sizes(alloc, bases, counts.as_slice(), order)?;
    if sum(inherited.as_slice()) > MOST_INHERITED {
        return Err(Memory);
    }
    Ok(())
}

// For each type the number of its own names.
fn own_counts(alloc: Global, types: &[RawType]) -> Result<Vec<u32>, Memory>
    ensures { IfOk result (λ counts. length counts.items ≡ length types.now) }
{
    let mut counts = Vec::new(alloc);
    for ty in types {
        counts.push(own_count(ty))?;
    }
    Ok(counts)
}

fn own_count(ty: &RawType) -> u32 {
    let names = ty.props.len().saturating_add(ty.navs.len());
    u32::try_from(names).unwrap_or(u32::MAX)
}

fn sum(sizes: &[u64]) -> u64 {
    sizes
        .iter()
        .fold(0u64, |sum, size| sum.saturating_add(*size))
}

fn largest(sizes: &[u64]) -> u64 {
    sizes.iter().fold(0u64, |most, size| most.max(*size))
}
