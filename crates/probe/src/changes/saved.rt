ghost use Rattle.std.specs.Prelude.{All};
ghost use Rattle.mapping_core.specs.Words.{AreTables, IsChange};

use crate::changes::lines::put_row_changes;
use crate::printing::{put, put_bytes, put_text};
use edm_types::StoreModel;
use emc_base::{Bin, Seq, Steps};
use mapping_core::{
    Change, Compiled, SaveFault, Saved, Tables, compile, read_changes, read_tables, save,
};
use std::alloc::Global;
use texts::{circular_text, free_reference_text, new_breach_text, refused_text};

/// Puts how many steps saving changes of tables takes by a mapping, the row changes and the tables afterwards; or the line of why they aren't saved. `None` where
/// the mapping isn't accepted, a document has another shape, or the tables tell no state.
pub fn put_saved(
    alloc: Global,
    text: &mut String,
    csdl: &Bin,
    ssdl: &Bin,
    msl: &Bin,
    tables: &Bin,
    changes: &Bin,
) -> Option<()> {
    match compile(alloc, csdl, ssdl, msl) {
        Ok(compiled) => {
            let put = put_by_mapping(alloc, text, &compiled, tables, changes);
            drop(compiled);
            put
        }
        Err(verdict) => {
            drop(verdict);
            None
        }
    }
}

// The same by the accepted mapping.
fn put_by_mapping(
    alloc: Global,
    text: &mut String,
    compiled: &Compiled,
    tables: &Bin,
    changes: &Bin,
) -> Option<()> {
    match read_tables(alloc, &compiled.schema().store, tables) {
        Ok(tables) => {
            let put = put_from(alloc, text, compiled, &tables, changes);
            drop(tables);
            put
        }
        Err(fault) => {
            drop(fault);
            None
        }
    }
}

// The same by the tables too.
fn put_from(
    alloc: Global,
    text: &mut String,
    compiled: &Compiled,
    tables: &Tables,
    changes: &Bin,
) -> Option<()>
    requires { AreTables compiled.now.store tables.now }
{
    match read_changes(alloc, &compiled.schema().model, changes) {
        Ok(changes) => {
            let put = put_changed(alloc, text, compiled, tables, &changes);
            drop(changes);
            put
        }
        Err(fault) => {
            drop(fault);
            None
        }
    }
}

// The same by the changes.
fn put_changed(
    alloc: Global,
    text: &mut String,
    compiled: &Compiled,
    tables: &Tables,
    changes: &Seq<Change>,
) -> Option<()>
    requires tables { AreTables compiled.now.store tables.now }
    requires changes { All (IsChange compiled.now.model) changes.now }
{
    let mut steps = Steps::new();
    let store = &compiled.schema().store;
    match save(alloc, compiled, tables, changes, &mut steps) {
        Ok(saved) => {
            let put = put_steps(alloc, text, steps.count(), store, &saved);
            drop(saved);
            put
        }
        Err(fault) => {
            let put = put_fault(alloc, text, store, &fault);
            drop(fault);
            put
        }
    }
}

// Puts the steps, the row changes and the tables.
fn put_steps(
    alloc: Global,
    text: &mut String,
    steps: u64,
    store: &StoreModel,
    saved: &Saved,
) -> Option<()>
    requires { AreTables store.now saved.now.tables }
{
    put(alloc, text, "steps ", steps)?;
    text.push_str("\n").ok()?;
    put_row_changes(alloc, text, store, saved.changes.as_slice())?;
    put_tables(alloc, text, store, &saved.tables)
}

// Puts tables as they are printed.
fn put_tables(alloc: Global, text: &mut String, store: &StoreModel, tables: &Tables) -> Option<()>
    requires { AreTables store.now tables.now }
{
    let printed = tables.to_doc(alloc, store).ok()?;
    let bytes = printed.bytes(alloc).ok();
    drop(printed);
    let bytes = bytes?;
    let put = put_bytes(text, bytes.as_slice());
    drop(bytes);
    put
}

// Puts the line of why changes aren't saved.
fn put_fault(
    alloc: Global,
    text: &mut String,
    store: &StoreModel,
    fault: &SaveFault,
) -> Option<()> {
    match fault {
        SaveFault::Refused { index, reason } => put_text(
            text,
            refused_text(alloc, *index, *reason),
        ),
        SaveFault::Breach(breach) => put_text(text, new_breach_text(alloc, breach)),
        SaveFault::FreeReference(place) => put_text(text, free_reference_text(alloc, place)),
        SaveFault::Circular(ring) => put_text(text, circular_text(alloc, store, ring.as_slice())),
        SaveFault::Load(_) | SaveFault::Memory => None,
    }
}
