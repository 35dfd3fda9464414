ghost use Rattle.std.specs.Prelude.{◌≡◌, ◌↔◌, ℕ, Any, IfOk, IsTrue, Some, false, replicate, true};
ghost use Rattle.emc_base.specs.Lists.{At};
ghost use Rattle.csdl_names.specs.declared.csdl_lists.raw.RawAssociationSet.{RawAssociationSet};
ghost use Rattle.csdl_associations.specs.csdl_constraints.Marks.{AreMarksBelow, IsMarked};

use csdl_names::RawAssociationSet;
use emc_base::Memory;
use std::alloc::Global;

/// Says of each association set which place it marks.
pub(super) trait Marking {
    /// The set marks the place.
    ghost marks: { Self → RawAssociationSet → ℕ → Type 0 };

    /// The place that the set marks, if it marks one.
    fn place(&self, set: &RawAssociationSet) -> Option<usize>
        ensures { (i : ℕ) → (result ≡ Some i ↔ marks self.now set.now i) };
}

/// The places among so many that some set marks. One pass over the sets. `Memory` comes where memory ran out.
pub(super) fn marks_of<M: Marking>(
    alloc: Global,
    count: usize,
    marking: &M,
    sets: &[RawAssociationSet],
) -> Result<Vec<bool>, Memory>
    ensures { IfOk result (λ marks. AreMarksBelow (λ i. Any (λ set. M.marks marking.now set i) sets.now) count marks.items) }
{
    let mut marks = no_marks(alloc, count)?;
    for set in sets {
        mark(&mut marks, marking.place(set));
    }
    Ok(marks)
}

// So many places without a mark.
fn no_marks(alloc: Global, count: usize) -> Result<Vec<bool>, Memory>
    ensures { IfOk result (λ marks. marks.items ≡ replicate count false) }
{
    let marks = vec![in alloc; false; count]?;
    Ok(marks)
}

// Marks a place, where there is one and it is inside.
fn mark(marks: &mut Vec<bool>, place: Option<usize>)
    ensures { IsMarked marks.old.items place marks.new.items }
{
    let Some(place) = place else {
        return;
    };
    if place < marks.len() {
        marks[place] = true;
    }
}

/// Whether the place has a mark.
pub(super) fn is_marked(marks: &[bool], place: usize) -> bool
    ensures { IsTrue result ↔ At marks.now place true }
{
    match marks.get(place) {
        Some(mark) => *mark,
        None => false,
    }
}
