ghost use Rattle.std.specs.Prelude.{◌≡◌, ◌-◌, ◌<◌, ℕ, length, slice_index, IfOk};
ghost use Rattle.std.specs.Option.{option_map_or};
ghost use Rattle.graphs.specs.base_chains.Chains.{base_at, IsAncestor, IsPlace};
ghost use Rattle.graphs.specs.base_chains.Jumps.{IsForest, IsJump, IsNoDeeper, KnowsDepths, KnowsJumps};
ghost use Rattle.graphs.specs.base_chains.Walks.{IsBasesFirst};

use emc_base::Memory;
use std::alloc::Global;

/// How deep each type stands, a root at 1.
pub fn depths_of(
    alloc: Global,
    bases: &[Option<usize>],
    order: &[usize],
) -> Result<Vec<usize>, Memory>
    requires order { IsBasesFirst (base_at bases.now) (length bases.now) order.now }
    ensures { IfOk result (λ depths. KnowsDepths (base_at bases.now) (length bases.now) depths.items) }
{
    let mut depths = vec![in alloc; 0; bases.len()]?;
    for place in order {
        let above = depth_at(depths.as_slice(), bases[*place]);
        depths[*place] = above + 1;
    }
    Ok(depths)
}

// The depth of a place, and 0 for none.
fn depth_at(depths: &[usize], place: Option<usize>) -> usize
    requires { IsPlace depths.now place }
    ensures { result ≡ option_map_or (slice_index depths.now) place 0 }
{
    match place {
        Some(place) => depths[place],
        None => 0,
    }
}

/// A place above each to jump to; a root's own.
pub fn jumps_of(
    alloc: Global,
    bases: &[Option<usize>],
    order: &[usize],
    depths: &[usize],
) -> Result<Vec<usize>, Memory>
    requires order { IsBasesFirst (base_at bases.now) (length bases.now) order.now }
    requires depths { KnowsDepths (base_at bases.now) (length bases.now) depths.now }
    ensures { IfOk result (λ jumps. KnowsJumps (base_at bases.now) (length bases.now) depths.now jumps.items) }
{
    let mut jumps = vec![in alloc; 0; bases.len()]?;
    for place in order {
        let jump = jump_from(bases, depths, jumps.as_slice(), *place);
        jumps[*place] = jump;
    }
    Ok(jumps)
}

// Where a place jumps to: as far again as its base does, where the place that this reaches jumps as far; else to its base.
fn jump_from(bases: &[Option<usize>], depths: &[usize], jumps: &[usize], place: usize) -> usize
    requires forest { IsForest (base_at bases.now) (length bases.now) }
    requires depths { KnowsDepths (base_at bases.now) (length bases.now) depths.now }
    requires alike { length jumps.now ≡ length bases.now }
    requires inside { place < length bases.now }
    requires made { (j : ℕ) → IsAncestor (base_at bases.now) place j → IsJump (base_at bases.now) j (slice_index jumps.now j) }
    ensures { IsJump (base_at bases.now) place result }
{
    let Some(base) = bases[place] else {
        return place;
    };
    let first = jumps[base];
    let second = jumps[first];
    if rise(depths, base, first) == rise(depths, first, second) {
        second
    } else {
        base
    }
}

// How much less deep the second place stands.
fn rise(depths: &[usize], from: usize, to: usize) -> usize
    requires { IsNoDeeper depths.now from to }
    ensures { result ≡ slice_index depths.now from - slice_index depths.now to }
{
    depths[from] - depths[to]
}
