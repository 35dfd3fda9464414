ghost use Rattle.mapping_core.specs.states.Documents.{ReadsChangeList, ReadsDocument, ReadsEntities, ReadsTables};

use data_documents::{ShapeFault, changes_of_doc, state_of_doc, tables_of_doc};
use edm_types::{EntityModel, StoreModel};
use emc_base::{Bin, Seq, Txt};
use entity_changes::Change;
use entity_state::EntityState;
use json_form::{Doc, DocFault};
use std::alloc::Global;
use table_files::Tables;

/// The state of an entity document. `Shape` comes exactly where the document is of another shape than the model asks for, with the pointer of the first place
/// where that is so; the empty one, where the bytes are no JSON. `Memory` comes where memory ran out.
pub fn read_entities(
    alloc: Global,
    model: &EntityModel,
    bytes: &Bin,
) -> Result<EntityState, ShapeFault>
    ensures { ReadsEntities model.now bytes.now result }
{
    let doc = read_document(alloc, bytes)?;
    state_of_doc(alloc, &doc, model)
}

/// The tables of a table document. `Shape` comes exactly where the document is of another shape than the store asks for, with the pointer of the first place
/// where that is so; the empty one, where the bytes are no JSON. `Memory` comes where memory ran out.
pub fn read_tables(alloc: Global, store: &StoreModel, bytes: &Bin) -> Result<Tables, ShapeFault>
    ensures { ReadsTables store.now bytes.now result }
{
    let doc = read_document(alloc, bytes)?;
    tables_of_doc(alloc, &doc, store)
}

/// The changes of a change document, in their order. `Shape` comes exactly where the document is of another shape than the model asks for, with the pointer of the
/// first place where that is so; the empty one, where the bytes are no JSON. `Memory` comes where memory ran out.
pub fn read_changes(
    alloc: Global,
    model: &EntityModel,
    bytes: &Bin,
) -> Result<Seq<Change>, ShapeFault>
    ensures { ReadsChangeList model.now bytes.now result }
{
    let doc = read_document(alloc, bytes)?;
    changes_of_doc(alloc, &doc, model)
}

// The document that a file holds.
fn read_document(alloc: Global, bytes: &Bin) -> Result<Doc, ShapeFault>
    ensures { ReadsDocument bytes.now result }
{
    match Doc::of_bytes(alloc, bytes) {
        Ok(doc) => Ok(doc),
        Err(DocFault::NotJson) => Err(ShapeFault::Shape(Txt::of(alloc, "")?)),
        Err(DocFault::Memory) => Err(ShapeFault::Memory),
    }
}
