ghost use Rattle.std.specs.Prelude.{◌↔◌, ◌<◌, length, All, IsTrue, MatchOption, ⊤};
ghost use Rattle.graphs.specs.base_chains.Chains.{base_at, StaysWithin};

/// Whether each base is a place in the list, as [`walk_bases`](crate::base_chains::walk_bases) wants it.
pub fn stay_within(bases: &[Option<usize>]) -> bool
    ensures { IsTrue result ↔ StaysWithin (base_at bases.now) (length bases.now) }
{
    are_below(bases, bases.len())
}

// Whether each of some places is below a number, as far as there are any.
fn are_below(places: &[Option<usize>], count: usize) -> bool
    ensures { IsTrue result ↔ All (λ place. MatchOption place ⊤ (λ i. i < count)) places.now }
{
    places
        .iter()
        .all(|place| place.is_none_or(|place| place < count))
}
