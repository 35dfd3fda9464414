ghost use Rattle.std.specs.Prelude.{◌≡◌, All, IfOk, flat_map};
ghost use Rattle.mapping_core.specs.Words.{AreTables, IsChange, IsPrintedTables};
ghost use Rattle.mapping_run.specs.answers.Answers.{NamesTableOf};
ghost use Rattle.mapping_run.specs.answers.Saving.{GivesChanged, GivesSaved, GivesSaving, SavesSo, SaysSaved};
ghost use Rattle.texts.specs.change_texts.Texts.{row_change_text};

use crate::answers::answer::Answer;
use crate::answers::load;
use crate::answers::status::Status;
use emc_base::{Bin, Memory, Seq, Steps};
use mapping_core::{
    Change, Compiled, RowChange, SaveFault, Saved, Schema, ShapeFault, Tables, read_changes,
    read_tables, save,
};
use std::alloc::Global;
use texts::{
    change_shape_text, circular_text, free_reference_text, new_breach_text, refused_text,
    row_change_text, table_shape_text,
};

/// What a change document makes of a table document by an accepted mapping: the row changes, and the tables afterwards.
pub(crate) fn saved(
    alloc: Global,
    compiled: &Compiled,
    document: &Bin,
    list: &Bin,
) -> Result<Answer, Memory>
    ensures { IfOk result (GivesSaving document.now list.now compiled.now) }
{
    match read_tables(alloc, &compiled.schema().store, document) {
        Ok(tables) => changed(alloc, compiled, &tables, list),
        Err(ShapeFault::Shape(pointer)) => {
            let text = table_shape_text(alloc, pointer.as_str())?;
            Ok(Answer::refusal(text))
        }
        Err(ShapeFault::Memory) => Err(Memory),
    }
}

// What a change document makes of tables.
fn changed(
    alloc: Global,
    compiled: &Compiled,
    tables: &Tables,
    list: &Bin,
) -> Result<Answer, Memory>
    requires { AreTables compiled.now.store tables.now }
    ensures { IfOk result (GivesChanged list.now compiled.now tables.now) }
{
    match read_changes(alloc, &compiled.schema().model, list) {
        Ok(changes) => saved_by(alloc, compiled, tables, &changes),
        Err(ShapeFault::Shape(pointer)) => {
            let text = change_shape_text(alloc, pointer.as_str())?;
            Ok(Answer::refusal(text))
        }
        Err(ShapeFault::Memory) => Err(Memory),
    }
}

// What changes make of tables. The steps are counted for nobody.
fn saved_by(
    alloc: Global,
    compiled: &Compiled,
    tables: &Tables,
    changes: &Seq<Change>,
) -> Result<Answer, Memory>
    requires tables { AreTables compiled.now.store tables.now }
    requires changes { All (IsChange compiled.now.model) changes.now }
    ensures { IfOk result (GivesSaved compiled.now tables.now changes.now) }
{
    let mut steps = Steps::new();
    match save(alloc, compiled, tables, changes, &mut steps) {
        Ok(saved) => printed(alloc, compiled.schema(), &saved),
        Err(fault) => refused(alloc, compiled, &fault),
    }
}

// The row changes as lines, and the tables afterwards as a document.
fn printed(alloc: Global, schema: &Schema, saved: &Saved) -> Result<Answer, Memory>
    requires { AreTables schema.now.store saved.now.tables }
    ensures { IfOk result (SaysSaved schema.now saved.now) }
{
    let tables = tables_text(alloc, schema, &saved.tables)?;
    let text = lines(alloc, schema, saved.changes.as_slice())?;
    let status = Status::Done;
    let saved = Some(tables);
    Ok(Answer {
        text,
        status,
        saved,
    })
}

// Tables as a document.
fn tables_text(alloc: Global, schema: &Schema, tables: &Tables) -> Result<Bin, Memory>
    requires { AreTables schema.now.store tables.now }
    ensures { IfOk result (IsPrintedTables schema.now tables.now) }
{
    let document = tables.to_doc(alloc, &schema.store)?;
    document.bytes(alloc)
}

// Row changes, each as a line.
fn lines(alloc: Global, schema: &Schema, changes: &[RowChange]) -> Result<Bin, Memory>
    ensures { IfOk result (λ text. text ≡ flat_map (row_change_text schema.now.store) changes.now) }
{
    let mut text = Vec::new(alloc);
    for change in changes {
        let line = row_change_text(alloc, &schema.store, change)?;
        text.extend_from_slice(line.as_str().as_bytes())?;
    }
    Ok(Bin::from_vec(text))
}

// Why changes aren't saved.
fn refused(alloc: Global, compiled: &Compiled, fault: &SaveFault) -> Result<Answer, Memory>
    requires { NamesTableOf compiled.now fault.now }
    ensures { IfOk result (SavesSo compiled.now (Err fault.now)) }
{
    match fault {
        SaveFault::Load(fault) => load::refused(alloc, compiled, fault),
        SaveFault::Refused { index, reason } => {
            Ok(Answer::refusal(refused_text(alloc, *index, *reason)?))
        }
        SaveFault::Breach(breach) => Ok(Answer::refusal(new_breach_text(alloc, breach)?)),
        SaveFault::FreeReference(place) => Ok(Answer::refusal(free_reference_text(alloc, place)?)),
        SaveFault::Circular(ring) => {
            let store = &compiled.schema().store;
            Ok(Answer::refusal(circular_text(alloc, store, ring.as_slice())?))
        }
        SaveFault::Memory => Err(Memory),
    }
}
