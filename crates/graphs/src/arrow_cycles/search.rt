ghost use Rattle.std.specs.Prelude.{◌≡◌, ◌<◌, ◌≤◌, ℕ, [], length, IfOk, All};
ghost use Rattle.emc_base.specs.Lists.{At};
ghost use Rattle.graphs.specs.arrow_cycles.Ends.{EndWithin};
ghost use Rattle.graphs.specs.arrow_cycles.Searches.{AreClosed, IsLast, IsLater, IsNext, IsStep, IsTop, Searches};

use emc_base::{Memory, Seq};
use std::alloc::Global;

/// What is known of a place.
#[derive(Clone, Copy)]
pub enum Mark {
    /// Not seen yet.
    New,
    /// On the path, at this position.
    OnPath(usize),
    /// In a component that is complete, of this number.
    Closed(usize),
}

/// A group of places that follow one another on the path, each of which leads to each. It reaches to where the next begins.
#[derive(Clone, Copy)]
pub struct Group {
    /// The position of its first place on the path.
    pub path: usize,
    /// The place of its first pending end.
    pub pending: usize,
}

/// A search along arrows.
#[derive(Drop)]
pub struct Search {
    /// What is known of each place.
    pub marks: Vec<Mark>,
    /// The places whose components are not complete, each group of them leading to the next.
    pub path: Vec<usize>,
    /// The groups of the path, which reach from one beginning to the next.
    pub groups: Vec<Group>,
    /// The ends of arrows that are still to be followed.
    pub pending: Vec<usize>,
    /// How many places each component has that is complete, in the order of their numbers.
    pub components: Vec<usize>,
}

impl Search {
    /// A search that has seen no place.
    pub fn new(alloc: Global, ends: &[Seq<usize>]) -> Result<Search, Memory>
        ensures { IfOk result (λ search. Searches ends.now search × (search.path.items ≡ [])) }
    {
        Ok(Search {
            marks: vec![in alloc; Mark::New; ends.len()]?,
            path: Vec::new(alloc),
            groups: Vec::new(alloc),
            pending: Vec::new(alloc),
            components: Vec::new(alloc),
        })
    }

    /// Follows all arrows that lead on from a place, unless it was seen. The path is empty before and after.
    pub fn visit(&mut self, ends: &[Seq<usize>], place: usize) -> Result<(), Memory>
        requires within { EndWithin ends.now }
        requires search { Searches ends.now self.old }
        requires empty { self.old.path.items ≡ [] }
        requires inside { place < length ends.now }
        ensures later { IfOk result (λ _. IsLater ends.now self.old self.new) }
        ensures empty { IfOk result (λ _. self.new.path.items ≡ []) }
        ensures seen { IfOk result (λ _. ¬ At self.new.marks.items place Mark.New) }
    {
        if let Mark::New = self.marks[place] {
            self.open(ends, place)?;
        }
        self.finish(ends)
    }

    // Goes on until the path is empty.
    fn finish(&mut self, ends: &[Seq<usize>]) -> Result<(), Memory>
        requires within { EndWithin ends.now }
        requires search { Searches ends.now self.old }
        ensures later { IfOk result (λ _. IsLater ends.now self.old self.new) }
        ensures empty { IfOk result (λ _. self.new.path.items ≡ []) }
    {
        while let Some(group) = self.groups.as_slice().last().copied() {
            self.step(ends, group)?;
        }
        Ok(())
    }

    // One step, at the last group: it follows an arrow or, where there is none, completes the component.
    fn step(&mut self, ends: &[Seq<usize>], group: Group) -> Result<(), Memory>
        requires within { EndWithin ends.now }
        requires search { Searches ends.now self.old }
        requires top { IsTop self.old.groups.items group }
        ensures { IfOk result (λ _. IsStep ends.now self.old self.new) }
    {
        match self.pending.as_slice()[group.pending..].last().copied() {
            Some(end) => self.follow(ends, group, end),
            None => self.close(ends, group),
        }
    }

    // Follows the last of the arrows. Its end is taken from the list only once it needs nothing more.
    fn follow(&mut self, ends: &[Seq<usize>], group: Group, end: usize) -> Result<(), Memory>
        requires within { EndWithin ends.now }
        requires search { Searches ends.now self.old }
        requires last { IsLast self.old group end }
        ensures { IfOk result (λ _. IsStep ends.now self.old self.new) }
    {
        match self.marks[end] {
            Mark::New => self.open(ends, end)?,
            Mark::OnPath(position) => {
                if position < group.path {
                    self.groups.pop();
                } else {
                    self.pending.pop();
                }
            }
            Mark::Closed(_) => {
                self.pending.pop();
            }
        }
        Ok(())
    }

    // Puts a place on the path, as a group of its own.
    fn open(&mut self, ends: &[Seq<usize>], place: usize) -> Result<(), Memory>
        requires search { Searches ends.now self.old }
        requires next { IsNext ends.now self.old place }
        ensures step { IfOk result (λ _. IsStep ends.now self.old self.new) }
        ensures seen { IfOk result (λ _. ¬ At self.new.marks.items place Mark.New) }
    {
        self.groups.push(Group {
            path: self.path.len(),
            pending: self.pending.len(),
        })?;
        self.marks[place] = Mark::OnPath(self.path.len());
        self.path.push(place)?;
        self.pending.extend_from_slice(ends[place].as_slice())?;
        Ok(())
    }

    // Completes the component that is the last group, and takes it off the path.
    fn close(&mut self, ends: &[Seq<usize>], group: Group) -> Result<(), Memory>
        requires search { Searches ends.now self.old }
        requires top { IsTop self.old.groups.items group }
        requires none { length self.old.pending.items ≤ group.pending }
        ensures { IfOk result (λ _. IsStep ends.now self.old self.new) }
    {
        let number = self.components.len();
        close_places(&mut self.marks, &self.path.as_slice()[group.path..], number);
        self.components.push(self.path.len() - group.path)?;
        self.path.truncate(group.path);
        self.groups.pop();
        Ok(())
    }
}

// Marks places as parts of a complete component.
fn close_places(marks: &mut Vec<Mark>, places: &[usize], number: usize)
    requires { All (λ v. v < length marks.old.items) places.now }
    ensures { AreClosed number places.now marks.old.items marks.new.items }
{
    for place in places {
        marks[*place] = Mark::Closed(number);
    }
}
