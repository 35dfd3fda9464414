ghost use Rattle.std.specs.Prelude.{◌≡◌, IfOk, codes, option_and_then};
ghost use Rattle.json_form.specs.Nodes.{part_of};
ghost use Rattle.json_form.specs.from_nodes.Reading.{optional_text_at};
ghost use Rattle.schema_names.specs.SchemaNames.{association_set_named, set_named};
ghost use Rattle.data_documents.specs.change_documents.Names.{element_of, if_independent_set, link_set_in, names_set, set_in};

use crate::change_documents::operation::Operation;
use crate::entity_documents::{ModelNames, independent_at, text_at};
use edm_types::EntityModel;
use emc_base::{AssocId, Memory, SetId, TypeId};
use json_form::Node;

/// Whether a change names a set of the sort that its operation is about. `Memory` comes where there are too many sets.
pub fn names_set(
    names: &ModelNames<'_>,
    operation: Operation,
    node: Node<'_>,
) -> Result<bool, Memory>
    ensures { IfOk result (λ named. named ≡ names_set names.now.model.now operation (part_of node.entry)) }
{
    match operation {
        Operation::Insert | Operation::Update | Operation::Delete => {
            Ok(set_in(names, node)?.is_some())
        }
        Operation::Link | Operation::Unlink => Ok(link_set_in(names, node)?.is_some()),
    }
}

/// The entity set that a change names. `Memory` comes where there are too many sets.
pub fn set_in(names: &ModelNames<'_>, node: Node<'_>) -> Result<Option<SetId>, Memory>
    ensures { IfOk result (λ set. set ≡ set_in names.now.model.now (part_of node.entry)) }
{
    let Some(place) = set_place(names, node) else {
        return Ok(None);
    };
    let Ok(index) = u32::try_from(place) else {
        return Err(Memory);
    };
    Ok(Some(SetId { index }))
}

// The place of the entity set that a change names.
fn set_place(names: &ModelNames<'_>, node: Node<'_>) -> Option<usize>
    ensures { result ≡ option_and_then (set_named names.now.model.now) (optional_text_at (codes "set") (part_of node.entry)) }
{
    names.set_named(text_at(node, "set")?)
}

/// The independent association set that a change names. `Memory` comes where there are too many association sets.
pub fn link_set_in(names: &ModelNames<'_>, node: Node<'_>) -> Result<Option<AssocId>, Memory>
    ensures { IfOk result (λ set. set ≡ link_set_in names.now.model.now (part_of node.entry)) }
{
    let Some(place) = association_set_place(names, node) else {
        return Ok(None);
    };
    let Ok(index) = u32::try_from(place) else {
        return Err(Memory);
    };
    Ok(if_independent_set(names.model, AssocId { index }))
}

// The place of the association set that a change names.
fn association_set_place(names: &ModelNames<'_>, node: Node<'_>) -> Option<usize>
    ensures { result ≡ option_and_then (association_set_named names.now.model.now) (optional_text_at (codes "set") (part_of node.entry)) }
{
    names.association_set_named(text_at(node, "set")?)
}

// The association set, where it is independent.
fn if_independent_set(model: &EntityModel, id: AssocId) -> Option<AssocId>
    ensures { result ≡ if_independent_set model.now id }
{
    if independent_at(model, id).is_some() {
        return Some(id);
    }
    None
}

/// The type of a set's entities; the first type of the model where there is no such set.
pub fn element_of(model: &EntityModel, set: SetId) -> TypeId
    ensures { result ≡ element_of model.now set }
{
    match model.sets.get(set.index as usize) {
        Some(declared) => declared.element,
        None => TypeId { index: 0 },
    }
}
