ghost use Rattle.std.specs.Prelude.{◌≡◌, ◌↔◌, IfOk, IsTrue, Contains, false, replicate};
ghost use Rattle.edm_types.specs.Forest.{type_numbered};
ghost use Rattle.edm_types.specs.Marks.{AddsMarks};
ghost use Rattle.round_trip.specs.soundness.models.ModelIds.{IsTypeId};
ghost use Rattle.round_trip.specs.soundness.models.Models.{IsSoundModel};
ghost use Rattle.state_legality.specs.link_legality.Ends.{IsMarked, MarksUnder};

use edm_types::{EntityModel, subtree};
use emc_base::{Memory, TypeId};
use std::alloc::Global;

/// Marks at the places of types: of the type and of those that are derived from it. `Memory` comes where memory ran out.
pub fn marks_under(alloc: Global, model: &EntityModel, u: TypeId) -> Result<Vec<bool>, Memory>
    requires sound { IsSoundModel model.now }
    requires known { IsTypeId model.now u }
    ensures { IfOk result (λ marks. MarksUnder model.now u marks.items) }
{
    let types = subtree(alloc, model, u)?;
    marks_of(alloc, model.types.len(), types.as_slice())
}

// So many places, with marks at those of the types.
fn marks_of(alloc: Global, count: usize, types: &[TypeId]) -> Result<Vec<bool>, Memory>
    ensures { IfOk result (λ marks. AddsMarks (λ i. Contains types.now (type_numbered i)) (replicate count false) marks.items) }
{
    let mut marks = vec![in alloc; false; count]?;
    for t in types {
        mark(&mut marks, t.index as usize);
    }
    Ok(marks)
}

/// Marks a place, if it is one.
pub fn mark(marks: &mut Vec<bool>, place: usize)
    ensures { AddsMarks (λ i. i ≡ place) marks.old.items marks.new.items }
{
    if place < marks.len() {
        marks[place] = true;
    }
}

/// Whether a type is marked. One that has no place isn't.
pub fn is_marked(marks: &[bool], t: TypeId) -> bool
    ensures { IsTrue result ↔ IsMarked marks.now t }
{
    match marks.get(t.index as usize) {
        Some(mark) => *mark,
        None => false,
    }
}
