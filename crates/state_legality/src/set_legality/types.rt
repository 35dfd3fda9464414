ghost use Rattle.std.specs.Prelude.{◌≡◌, ◌↔◌, IfOk, IsTrue, true};
ghost use Rattle.emc_base.specs.Lists.{At};
ghost use Rattle.edm_types.specs.Marks.{AddsMarks};
ghost use Rattle.round_trip.specs.Words.{IsConcrete, key_props, props_of};
ghost use Rattle.round_trip.specs.soundness.models.Models.{IsSoundModel};
ghost use Rattle.state_legality.specs.set_legality.Types.{IsMarked, MarksUnder};

use edm_types::{EntityModel, subtree};
use emc_base::{Memory, PropId, TypeId};
use std::alloc::Global;

/// Marks the types that are this one or derived from it. The time is linear in the number of types.
pub fn under_types(alloc: Global, model: &EntityModel, element: TypeId) -> Result<Vec<bool>, Memory>
    requires { IsSoundModel model.now }
    ensures { IfOk result (λ marks. MarksUnder model.now element marks.items) }
{
    let mut marks = vec![in alloc; false; model.types.len()]?;
    let types = subtree(alloc, model, element)?;
    let list = types.as_slice();
    for ty in list {
        mark(&mut marks, ty.index as usize);
    }
    Ok(marks)
}

// Marks a place, if it is one.
fn mark(marks: &mut Vec<bool>, place: usize)
    ensures { AddsMarks (λ i. i ≡ place) marks.old.items marks.new.items }
{
    if place < marks.len() {
        marks[place] = true;
    }
}

/// Whether a type is concrete and marked.
pub fn is_marked(model: &EntityModel, marks: &[bool], ty: TypeId) -> bool
    ensures { IsTrue result ↔ IsMarked model.now marks.now ty }
{
    is_concrete(model, ty) && has_mark(marks, ty)
}

/// Whether there may be entities of just this type.
pub fn is_concrete(model: &EntityModel, ty: TypeId) -> bool
    ensures { IsTrue result ↔ IsConcrete model.now ty }
{
    match model.types.get(ty.index as usize) {
        Some(declared) => !declared.is_abstract,
        None => false,
    }
}

fn has_mark(marks: &[bool], ty: TypeId) -> bool
    ensures { IsTrue result ↔ At marks.now ty.index true }
{
    match marks.get(ty.index as usize) {
        Some(mark) => *mark,
        None => false,
    }
}

/// The properties of a type, inherited ones included; none where there is no such type.
pub fn props_at(model: &EntityModel, ty: TypeId) -> &[PropId]
    ensures { result.now ≡ props_of model.now ty }
{
    match model.types.get(ty.index as usize) {
        Some(declared) => declared.props.as_slice(),
        None => &[],
    }
}

/// The key of a type; none where there is no such type.
pub fn key_at(model: &EntityModel, ty: TypeId) -> &[PropId]
    ensures { result.now ≡ key_props model.now ty }
{
    match model.types.get(ty.index as usize) {
        Some(declared) => declared.key.as_slice(),
        None => &[],
    }
}
