ghost use Rattle.std.specs.Prelude.{◌≡◌, ◌≢◌, ◌<◌, ◌+◌, ◌++◌, length, slice_get, All, IfOk};
ghost use Rattle.groupings.specs.linked_places.Joinings.{AreNumbered, IsAlone, IsJoining, Joins, Moves};

use crate::linked_places::classes::Link;
use emc_base::{Memory, Seq};
use std::alloc::Global;
use std::mem;

/// Classes of places that are still to be joined.
#[derive(Drop)]
pub struct Joining {
    /// The number of each place's class.
    pub numbers: Vec<usize>,
    /// The places of each class, by its number.
    pub members: Vec<Seq<usize>>,
}

impl Joining {
    /// Each of so many places in a class of its own.
    pub fn apart(alloc: Global, count: usize) -> Result<Joining, Memory>
        ensures { IfOk result (IsAlone count) }
    {
        let mut joining = Joining {
            numbers: Vec::new(alloc),
            members: Vec::new(alloc),
        };
        for place in 0..count {
            joining.add_place(alloc, place)?;
        }
        Ok(joining)
    }

    // One place more, in a class of its own.
    fn add_place(&mut self, alloc: Global, place: usize) -> Result<(), Memory>
        requires { IsAlone place self.old }
        ensures { IfOk result (λ _. IsAlone (place + 1) self.new) }
    {
        let mut alone = Seq::empty(alloc);
        alone.push(place)?;
        self.numbers.push(place)?;
        self.members.push(alone)?;
        Ok(())
    }

    /// Makes one class of those of two places; nothing where a place isn't among them. The smaller class moves to the larger.
    pub fn join(&mut self, alloc: Global, link: Link) -> Result<(), Memory>
        requires { IsJoining self.old }
        ensures joining { IfOk result (λ _. IsJoining self.new) }
        ensures joins { IfOk result (λ _. Joins link.one link.other self.old.numbers.items self.new.numbers.items) }
    {
        let (Some(one), Some(other)) = (self.number_at(link.one), self.number_at(link.other)) else {
            return Ok(());
        };
        if one == other {
            return Ok(());
        }
        if self.members[one].len() < self.members[other].len() {
            self.move_class(alloc, one, other)
        } else {
            self.move_class(alloc, other, one)
        }
    }

    // The number of a place's class.
    fn number_at(&self, place: usize) -> Option<usize>
        ensures { result ≡ slice_get self.now.numbers.items place }
    {
        self.numbers.get(place).copied()
    }

    // Moves all places of a class to another.
    fn move_class(&mut self, alloc: Global, from: usize, to: usize) -> Result<(), Memory>
        requires joining { IsJoining self.old }
        requires from { from < length self.old.members.items }
        requires to { to < length self.old.members.items }
        requires apart { from ≢ to }
        ensures joining { IfOk result (λ _. IsJoining self.new) }
        ensures moves { IfOk result (λ _. Moves from to self.old.numbers.items self.new.numbers.items) }
    {
        let moved = mem::replace(&mut self.members[from], Seq::empty(alloc));
        renumber(&mut self.numbers, moved.as_slice(), to);
        add_places(&mut self.members[to], moved.as_slice())
    }
}

// Gives places the number of a class.
fn renumber(numbers: &mut Vec<usize>, places: &[usize], number: usize)
    requires { All (λ place. place < length numbers.old.items) places.now }
    ensures { AreNumbered number places.now numbers.old.items numbers.new.items }
{
    for place in places {
        numbers[*place] = number;
    }
}

// Adds places at the end of a list.
fn add_places(list: &mut Seq<usize>, places: &[usize]) -> Result<(), Memory>
    ensures { IfOk result (λ _. list.new ≡ list.old ++ places.now) }
{
    for place in places {
        list.push(*place)?;
    }
    Ok(())
}
