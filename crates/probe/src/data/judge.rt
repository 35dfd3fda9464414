ghost use Rattle.json_form.specs.Documents.{tree_of};
ghost use Rattle.probe.specs.Judges.{JudgesEntities, JudgesTables};

use crate::data::refusal::Refusal;
use csdl_model::read_csdl;
use data_documents::{state_of_doc, tables_of_doc};
use edm_types::Breach;
use json_form::Doc;
use ssdl_model::read_ssdl;
use std::alloc::Global;

/// The first breach in a document of entities, by the model that a CSDL document means; `None` where they are legal.
pub fn judge_entities(alloc: Global, csdl: &Doc, entities: &Doc) -> Result<Option<Breach>, Refusal>
    ensures { JudgesEntities (tree_of csdl.now) (tree_of entities.now) result }
{
    let model = read_csdl(alloc, csdl)?;
    match state_of_doc(alloc, entities, &model) {
        Ok(state) => {
            let breach = state_legality::first_breach(alloc, &state, &model);
            drop(state);
            drop(model);
            Ok(breach?)
        }
        Err(fault) => {
            drop(model);
            Err(Refusal::Shape(fault))
        }
    }
}

/// The first breach in a document of tables, by the store that an SSDL document means; `None` where they are legal.
pub fn judge_tables(alloc: Global, ssdl: &Doc, tables: &Doc) -> Result<Option<Breach>, Refusal>
    ensures { JudgesTables (tree_of ssdl.now) (tree_of tables.now) result }
{
    let store = read_ssdl(alloc, ssdl)?;
    match tables_of_doc(alloc, tables, &store) {
        Ok(rows) => {
            let breach = table_files::first_breach(alloc, rows.as_slice(), &store);
            drop(rows);
            drop(store);
            Ok(breach?)
        }
        Err(fault) => {
            drop(store);
            Err(Refusal::Shape(fault))
        }
    }
}
