ghost use Rattle.std.specs.Prelude.{IfOk};
ghost use Rattle.round_trip.specs.Words.{AreLegalTables};
ghost use Rattle.round_trip.specs.soundness.Stores.{IsSoundStore};

use crate::changes::lines::put_row_changes;
use crate::data::{DataKind, Refusal, put_judged};
use crate::printing::put_text;
use data_documents::tables_of_doc;
use edm_types::{Breach, StoreModel};
use json_form::Doc;
use row_plans::{RowPlan, plan_rows};
use ssdl_model::read_ssdl;
use std::alloc::Global;
use table_files::{Tables, first_breach};
use texts::circular_text;

/// Puts a line for each change of a row from old tables to new ones, in an order in which each keeps all keys; or the line of a cycle of them. Where the store
/// breaks a rule, or tables are of another shape or not legal, it puts what is judged of the first such document.
pub fn put_planned(
    alloc: Global,
    text: &mut String,
    ssdl: &Doc,
    old: &Doc,
    new: &Doc,
) -> Option<()> {
    match read_ssdl(alloc, ssdl) {
        Ok(store) => {
            let put = put_by_store(alloc, text, &store, old, new);
            drop(store);
            put
        }
        Err(fault) => put_judged(
            alloc,
            text,
            DataKind::Tables,
            Err(Refusal::Vocabulary(fault)),
        ),
    }
}

// The same by what the store's document means.
fn put_by_store(
    alloc: Global,
    text: &mut String,
    store: &StoreModel,
    old: &Doc,
    new: &Doc,
) -> Option<()>
    requires { IsSoundStore store.now }
{
    match legal_tables(alloc, store, old) {
        Ok(tables) => {
            let put = put_from(alloc, text, store, &tables, new);
            drop(tables);
            put
        }
        Err(judged) => put_judged(alloc, text, DataKind::Tables, judged),
    }
}

// The same by the old tables too.
fn put_from(
    alloc: Global,
    text: &mut String,
    store: &StoreModel,
    old: &Tables,
    new: &Doc,
) -> Option<()>
    requires sound { IsSoundStore store.now }
    requires old { AreLegalTables store.now old.now }
{
    match legal_tables(alloc, store, new) {
        Ok(tables) => {
            let put = put_between(alloc, text, store, old, &tables);
            drop(tables);
            put
        }
        Err(judged) => put_judged(alloc, text, DataKind::Tables, judged),
    }
}

// The legal tables that a document holds, or what is judged of it.
fn legal_tables(
    alloc: Global,
    store: &StoreModel,
    tables: &Doc,
) -> Result<Tables, Result<Option<Breach>, Refusal>>
    ensures { IfOk result (AreLegalTables store.now) }
{
    match tables_of_doc(alloc, tables, store) {
        Ok(tables) => match first_breach(alloc, tables.as_slice(), store) {
            Ok(None) => Ok(tables),
            Ok(breach) => Err(Ok(breach)),
            Err(_) => Err(Err(Refusal::Memory)),
        },
        Err(fault) => Err(Err(Refusal::Shape(fault))),
    }
}

// Puts the lines of what is planned between legal tables.
fn put_between(
    alloc: Global,
    text: &mut String,
    store: &StoreModel,
    old: &Tables,
    new: &Tables,
) -> Option<()>
    requires sound { IsSoundStore store.now }
    requires old { AreLegalTables store.now old.now }
    requires new { AreLegalTables store.now new.now }
{
    match plan_rows(alloc, store, old, new) {
        Ok(RowPlan::Steps(changes)) => {
            let put = put_row_changes(alloc, text, store, changes.as_slice());
            drop(changes);
            put
        }
        Ok(RowPlan::Circular(ring)) => {
            let told = circular_text(alloc, store, ring.as_slice());
            drop(ring);
            put_text(text, told)
        }
        Err(_) => None,
    }
}
