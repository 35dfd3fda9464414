ghost use Rattle.std.specs.Prelude.{◌≡◌, slice_get, IfOk};
ghost use Rattle.groupings.specs.linked_places.Links.{IsClasses};

use crate::linked_places::joining::Joining;
use emc_base::{Memory, Seq};
use std::alloc::Global;

/// Two places that are to be in one class.
#[derive(Clone, Copy, Debug, PartialEq, Eq)]
pub struct Link {
    /// The one place, counted from 0.
    pub one: usize,
    /// The other place, counted from 0; it may be the same.
    pub other: usize,
}

/// The classes of so many places: two places are in one class exactly where they are linked, by one link or over other
/// places. Each class has a number, and no two have the same.
#[derive(Drop)]
pub struct Classes {
    // The number of each place's class.
    numbers: Seq<usize>,
}

impl Classes {
    /// The classes of so many places by these links. A link of which a place isn't among so many is passed over. A place
    /// moves to another class at most as often as the count can be halved. `Memory` comes where memory ran out.
    pub fn of(alloc: Global, count: usize, links: &[Link]) -> Result<Classes, Memory>
        ensures { IfOk result (IsClasses count links.now) }
    {
        let mut joining = Joining::apart(alloc, count)?;
        for link in links {
            joining.join(alloc, *link)?;
        }
        Ok(Classes {
            numbers: Seq::from_vec(joining.numbers)?,
        })
    }

    /// The number of a place's class. `None` exactly where the place isn't among so many.
    pub fn number_of(&self, place: usize) -> Option<usize>
        ensures { result ≡ slice_get self.now.numbers place }
    {
        self.numbers.get(place).copied()
    }
}
