use graphs::base_chains::stay_within;
use graphs::{Walk, places_above, walk_bases};
use std::alloc::Global;

// Whether these are the places above the first of some places, by their bases.
fn stand_above_first(alloc: Global, bases: &[Option<usize>], wanted: &[usize]) -> bool {
    if !stay_within(bases) {
        return false;
    }
    let Ok(Walk::Order(_)) = walk_bases(alloc, bases) else {
        return false;
    };
    match places_above(alloc, bases, 0) {
        Ok(above) => above.as_slice() == wanted,
        Err(_) => false,
    }
}

// No clause says that a place isn't told twice.
#[test]
fn each_place_above_is_told_once(rt: HostRuntime) {
    let bases = [Some(2), None, Some(1), Some(2)];
    assert!(rt; stand_above_first(rt.alloc(), &bases, &[2, 1]));
}
