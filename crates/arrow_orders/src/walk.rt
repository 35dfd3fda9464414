ghost use Rattle.std.specs.Prelude.{◌≡◌, ◌<◌, [], length, IfOk};
ghost use Rattle.arrow_orders.specs.Orders.{EndWithin};
ghost use Rattle.arrow_orders.specs.Walks.{AreAllTaken, Finishes, IsNext, IsNextEnd, IsOpened, IsStep, IsTop, IsWalk, Steps, Visits};

use emc_base::{Memory, Seq};
use std::alloc::Global;

/// What is known of a place.
#[derive(Clone, Copy)]
pub enum Mark {
    /// Not seen yet.
    New,
    /// On the path, at this position.
    Open(usize),
    /// In the line.
    Done,
}

/// A walk along what is waited for.
#[derive(Drop)]
pub struct Walk {
    /// What is known of each place.
    pub marks: Vec<Mark>,
    /// Of each place how many of those that it waits for stand in the line, from the first on.
    pub taken: Vec<usize>,
    /// The places each of which waits for the next.
    pub path: Vec<usize>,
    /// The places in an order, as far as they are known.
    pub line: Vec<usize>,
}

impl Walk {
    /// A walk that has seen no place.
    pub fn new(alloc: Global, ends: &[Seq<usize>]) -> Result<Walk, Memory>
        ensures walk { IfOk result (IsWalk ends.now) }
        ensures path { IfOk result (λ walk. walk.path.items ≡ []) }
    {
        Ok(Walk {
            marks: vec![in alloc; Mark::New; ends.len()]?,
            taken: vec![in alloc; 0; ends.len()]?,
            path: Vec::new(alloc),
            line: Vec::new(alloc),
        })
    }

    /// Puts a place in the line, unless it is there, behind all that it waits for, and these; or the position on the path where a ring begins. The path is
    /// empty before and, where there is no ring, afterwards.
    pub fn visit(&mut self, ends: &[Seq<usize>], place: usize) -> Result<Option<usize>, Memory>
        requires within { EndWithin ends.now }
        requires walk { IsWalk ends.now self.old }
        requires empty { self.old.path.items ≡ [] }
        requires inside { place < length ends.now }
        ensures { IfOk result (Visits ends.now place self.old self.new) }
    {
        if let Mark::New = self.marks[place] {
            self.open(ends, place)?;
        }
        self.finish(ends)
    }

    // Goes on until the path is empty, or a ring is met.
    fn finish(&mut self, ends: &[Seq<usize>]) -> Result<Option<usize>, Memory>
        requires within { EndWithin ends.now }
        requires walk { IsWalk ends.now self.old }
        ensures { IfOk result (Finishes ends.now self.old self.new) }
    {
        while let Some(top) = self.path.as_slice().last().copied() {
            if let Some(position) = self.step(ends, top)? {
                return Ok(Some(position));
            }
        }
        Ok(None)
    }

    // One step at the last place of the path.
    fn step(&mut self, ends: &[Seq<usize>], top: usize) -> Result<Option<usize>, Memory>
        requires within { EndWithin ends.now }
        requires walk { IsWalk ends.now self.old }
        requires top { IsTop self.old top }
        ensures { IfOk result (Steps ends.now self.old self.new) }
    {
        let listed = ends[top].as_slice();
        let count = self.taken[top];
        if count < listed.len() {
            self.follow(ends, top, listed[count], count + 1)
        } else {
            self.close(ends, top)?;
            Ok(None)
        }
    }

    // The same where the next of those that the place waits for is this one, and so many are taken with it.
    fn follow(
        &mut self,
        ends: &[Seq<usize>],
        top: usize,
        end: usize,
        more: usize,
    ) -> Result<Option<usize>, Memory>
        requires within { EndWithin ends.now }
        requires walk { IsWalk ends.now self.old }
        requires top { IsTop self.old top }
        requires next { IsNextEnd ends.now self.old top end more }
        ensures { IfOk result (Steps ends.now self.old self.new) }
    {
        match self.marks[end] {
            Mark::New => {
                self.open(ends, end)?;
                Ok(None)
            }
            Mark::Open(position) => Ok(Some(position)),
            Mark::Done => {
                self.taken[top] = more;
                Ok(None)
            }
        }
    }

    // Puts a place on the path.
    fn open(&mut self, ends: &[Seq<usize>], place: usize) -> Result<(), Memory>
        requires walk { IsWalk ends.now self.old }
        requires next { IsNext ends.now self.old place }
        ensures { IfOk result (λ _. IsOpened ends.now place self.old self.new) }
    {
        self.marks[place] = Mark::Open(self.path.len());
        self.path.push(place)?;
        Ok(())
    }

    // Puts the last place of the path in the line.
    fn close(&mut self, ends: &[Seq<usize>], top: usize) -> Result<(), Memory>
        requires walk { IsWalk ends.now self.old }
        requires top { IsTop self.old top }
        requires all { AreAllTaken ends.now self.old top }
        ensures { IfOk result (λ _. IsStep ends.now self.old self.new) }
    {
        self.line.push(top)?;
        self.marks[top] = Mark::Done;
        self.path.pop();
        Ok(())
    }
}
