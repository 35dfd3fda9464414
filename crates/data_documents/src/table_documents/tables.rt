ghost use Rattle.json_form.specs.Documents.{tree_of};
ghost use Rattle.data_documents.specs.table_documents.Reading.{ReadsTables};

use crate::shape_faults::ShapeFault;
use crate::table_documents::read::tables_in;
use crate::table_documents::shape::first_fault;
use edm_types::StoreModel;
use json_form::Doc;
use std::alloc::Global;
use table_files::Tables;

/// The tables of a document: for each table of the store, in their order, the rows of its member in theirs, each with a cell for each
/// column. `Shape` comes exactly where the document is of another shape, with the pointer of the first place where that is so: in the
/// order of the document, where members stand in byte order of their names, and what an object lacks comes after what it has, in the
/// order of the table's columns.
pub fn tables_of_doc(alloc: Global, doc: &Doc, store: &StoreModel) -> Result<Tables, ShapeFault>
    ensures { ReadsTables store.now (tree_of doc.now) result }
{
    let root = doc.root();
    if let Some(place) = first_fault(alloc, store, root)? {
        return Err(ShapeFault::Shape(place.pointer(alloc)?));
    }
    let tables = tables_in(alloc, store, root)?;
    Ok(tables)
}
