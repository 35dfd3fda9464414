ghost use Rattle.std.specs.Prelude.{◌≡◌, ◌<◌, ◌==◌, length, position, Contains, IfOk};
ghost use Rattle.graphs.specs.base_chains.Chains.{base_at, StaysWithin};
ghost use Rattle.graphs.specs.base_chains.Climbs.{IsClimb, cycle_of};
ghost use Rattle.graphs.specs.base_chains.Walks.{IsFirst};

use emc_base::Memory;
use std::alloc::Global;

/// A way up from a place.
#[derive(Drop)]
pub struct WayUp {
    /// The places that were not seen before, each the base of the one before it.
    pub path: Vec<usize>,
    /// The place that was seen already, if the last place of the path has a base.
    pub exit: Option<usize>,
}

/// Climbs from a place to its base, and so on, as long as the places are new. Each is marked as seen then.
pub fn climb(
    alloc: Global,
    bases: &[Option<usize>],
    from: usize,
    seen: &mut Vec<bool>,
) -> Result<WayUp, Memory>
    requires within { StaysWithin (base_at bases.now) (length bases.now) }
    requires inside { from < length bases.now }
    requires alike { length seen.old.items ≡ length bases.now }
    ensures { IfOk result (λ way. IsClimb (base_at bases.now) from seen.old.items seen.new.items way.path.items way.exit) }
{
    let mut path = Vec::new(alloc);
    let mut next = Some(from);
    while let Some(place) = next {
        if seen[place] {
            break;
        }
        seen[place] = true;
        path.push(place)?;
        next = bases[place];
    }
    Ok(WayUp { path, exit: next })
}

/// The least place of the cycle in which a path ends, if it ends in one.
pub fn first_on_cycle(path: &[usize], exit: Option<usize>) -> Option<usize>
    ensures { IsFirst (Contains (cycle_of path.now exit)) result }
{
    let start = place_of(path, exit?)?;
    least(&path[start..])
}

// Where a place stands in a path.
fn place_of(path: &[usize], wanted: usize) -> Option<usize>
    ensures { result ≡ position (λ place. place == wanted) path.now }
{
    path.iter().position(|place| *place == wanted)
}

// The least of some places.
fn least(places: &[usize]) -> Option<usize>
    ensures { IsFirst (Contains places.now) result }
{
    places.iter().copied().min()
}
