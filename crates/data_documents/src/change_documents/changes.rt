ghost use Rattle.json_form.specs.Documents.{tree_of};
ghost use Rattle.json_form.specs.Nodes.{part_of};
ghost use Rattle.data_documents.specs.change_documents.Reading.{ReadsChanges};

use crate::change_documents::read::changes_in;
use crate::change_documents::shape::first_fault;
use crate::entity_documents::ModelNames;
use crate::shape_faults::ShapeFault;
use edm_types::EntityModel;
use emc_base::Seq;
use entity_changes::Change;
use json_form::{Doc, Node};
use std::alloc::Global;

/// The changes of a document, in their order. `Shape` comes exactly where the document is of another shape, with the pointer of the first place
/// where that is so: in the order of the document, where members stand in byte order of their names, and what an object lacks comes after
/// what it has. Of a change that tells no operation nothing but that is told, and where it names no set, its key or link isn't looked at.
pub fn changes_of_doc(
    alloc: Global,
    doc: &Doc,
    model: &EntityModel,
) -> Result<Seq<Change>, ShapeFault>
    ensures { ReadsChanges model.now (tree_of doc.now) result }
{
    let names = ModelNames::of(alloc, model)?;
    let changes = changes_of_root(alloc, &names, doc.root());
    drop(names);
    changes
}

// The changes of a document, by its root and the names of the model.
fn changes_of_root(
    alloc: Global,
    names: &ModelNames<'_>,
    root: Node<'_>,
) -> Result<Seq<Change>, ShapeFault>
    ensures { ReadsChanges names.now.model.now (part_of root.entry) result }
{
    if let Some(place) = first_fault(alloc, names, root)? {
        return Err(ShapeFault::Shape(place.pointer(alloc)?));
    }
    let changes = changes_in(alloc, names, root)?;
    Ok(changes)
}
