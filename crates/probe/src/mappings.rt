ghost use Rattle.cells.specs.Cells.{TellsCells};
ghost use Rattle.cells.specs.Parts.{AreParts, schema_in};
ghost use Rattle.round_trip.specs.Between.{schema_of};
ghost use Rattle.round_trip.specs.Words.{AreTables};
ghost use Rattle.round_trip.specs.soundness.mappings.Mappings.{IsSoundSchema};
ghost use Rattle.round_trip.specs.soundness.models.Models.{IsSoundModel};
ghost use Rattle.round_trip.specs.soundness.Stores.{IsSoundStore};

use crate::asked::Asked;
use crate::changes::{put_changed, put_planned};
use crate::conditions::{put_selected, put_shown};
use crate::conflicts::{put_conflicts, put_failure};
use crate::dangling::{put_dangling, put_forced, put_forced_again};
use crate::models::{put_of_data, put_of_model};
use crate::owners::put_owners;
use crate::printing::put;
use crate::region_counts::{put_counts, put_found, put_links, put_regions};
use crate::views::{put_rows, put_told, put_views};
use cells::{Cells, Parts, is_within_limits};
use csdl_model::read_csdl;
use data_documents::{state_of_doc, tables_of_doc};
use edm_types::{EntityModel, Mapping, StoreModel};
use entity_state::EntityState;
use json_form::Doc;
use msl_fragments::read_msl;
use ssdl_model::read_ssdl;
use std::alloc::Global;
use table_files::Tables;

/// The documents of a store and a mapping, and one of data, which are asked by a model.
#[derive(Clone, Copy)]
struct Above<'d> {
    ssdl: &'d Doc,
    msl: &'d Doc,
    data: Option<&'d Doc>,
}

/// Puts what is asked of documents. `None` where another number of documents is asked, one breaks a rule, has another shape or passes a limit,
/// or memory ran out.
pub fn put_of_documents(
    alloc: Global,
    text: &mut String,
    asked: Asked,
    documents: &[Doc],
) -> Option<()> {
    match documents {
        [csdl] => put_of_model(alloc, text, asked, csdl, None),
        [vocabulary, data] => put_of_data(alloc, text, asked, vocabulary, data),
        [vocabulary, one, other] => put_of_three(alloc, text, asked, vocabulary, one, other),
        [csdl, ssdl, msl, data] => {
            let data = Some(data);
            put_of_mapping(alloc, text, asked, csdl, Above { ssdl, msl, data })
        }
        _ => None,
    }
}

// The same of three documents: a store with tables before and afterwards, a model with entities and changes, or a mapping's.
fn put_of_three<'a>(
    alloc: Global,
    text: &mut String,
    asked: Asked,
    vocabulary: &Doc,
    one: &'a Doc,
    other: &'a Doc,
) -> Option<()> {
    match asked {
        Asked::Planned => put_planned(alloc, text, vocabulary, one, other),
        Asked::Changed => put_changed(alloc, text, vocabulary, one, other),
        _ => {
            let above = Above {
                ssdl: one,
                msl: other,
                data: None,
            };
            put_of_mapping(alloc, text, asked, vocabulary, above)
        }
    }
}

// The same of a mapping's documents.
fn put_of_mapping(
    alloc: Global,
    text: &mut String,
    asked: Asked,
    csdl: &Doc,
    above: Above<'_>,
) -> Option<()> {
    match read_csdl(alloc, csdl) {
        Ok(model) => {
            let put = put_by_model(alloc, text, asked, &model, above);
            drop(model);
            put
        }
        Err(_) => None,
    }
}

// The same by what the model's document means.
fn put_by_model(
    alloc: Global,
    text: &mut String,
    asked: Asked,
    model: &EntityModel,
    above: Above<'_>,
) -> Option<()>
    requires { IsSoundModel model.now }
{
    match read_ssdl(alloc, above.ssdl) {
        Ok(store) => {
            let put = put_by_store(alloc, text, asked, model, &store, above);
            drop(store);
            put
        }
        Err(_) => None,
    }
}

// The same by what the store's document means too.
fn put_by_store(
    alloc: Global,
    text: &mut String,
    asked: Asked,
    model: &EntityModel,
    store: &StoreModel,
    above: Above<'_>,
) -> Option<()>
    requires model { IsSoundModel model.now }
    requires store { IsSoundStore store.now }
{
    match read_msl(alloc, above.msl, model, store) {
        Ok(mapping) => {
            let put = put_by_mapping(alloc, text, asked, model, store, &mapping, above.data);
            drop(mapping);
            put
        }
        Err(_) => None,
    }
}

// The same by what all three mean.
fn put_by_mapping(
    alloc: Global,
    text: &mut String,
    asked: Asked,
    model: &EntityModel,
    store: &StoreModel,
    mapping: &Mapping,
    data: Option<&Doc>,
) -> Option<()>
    requires { IsSoundSchema (schema_of model.now store.now mapping.now) }
{
    let cells = Cells::of(alloc, model, store, mapping).ok()?;
    let put = put_by_cells(alloc, text, asked, model, store, mapping, &cells, data);
    drop(cells);
    put
}

// The same by the cells too.
fn put_by_cells(
    alloc: Global,
    text: &mut String,
    asked: Asked,
    model: &EntityModel,
    store: &StoreModel,
    mapping: &Mapping,
    cells: &Cells,
    data: Option<&Doc>,
) -> Option<()>
    requires sound { IsSoundSchema (schema_of model.now store.now mapping.now) }
    requires cells { TellsCells (schema_of model.now store.now mapping.now) cells.now }
{
    let parts = Parts {
        model,
        store,
        mapping,
        cells,
    };
    match asked {
        Asked::Cells => text.push_str("cells\n").ok(),
        Asked::CellsAgain => put_again(alloc, text, &parts),
        _ => put_within(alloc, text, asked, &parts, data),
    }
}

// Makes the cells ten times more, and puts how many times they were made so.
fn put_again(alloc: Global, text: &mut String, parts: &Parts<'_>) -> Option<()>
    requires { IsSoundSchema (schema_in parts.now) }
{
    let mut made: u64 = 0;
    for _ in 0..10 {
        make_cells(alloc, parts)?;
        made = made.saturating_add(1);
    }
    put(alloc, text, "again ", made)?;
    text.push_str("\n").ok()
}

// Makes the cells, and lets them go.
fn make_cells(alloc: Global, parts: &Parts<'_>) -> Option<()>
    requires { IsSoundSchema (schema_in parts.now) }
{
    let cells = Cells::of(alloc, parts.model, parts.store, parts.mapping).ok()?;
    drop(cells);
    Some(())
}

// Puts what is asked of a mapping within the limits, of which that on regions counts for views alone.
fn put_within(
    alloc: Global,
    text: &mut String,
    asked: Asked,
    parts: &Parts<'_>,
    data: Option<&Doc>,
) -> Option<()>
    requires sound { IsSoundSchema (schema_in parts.now) }
    requires cells { TellsCells (schema_in parts.now) parts.now.cells.now }
{
    if !is_within_limits(parts) {
        return None;
    }
    match data {
        None => put_of_parts(alloc, text, asked, parts),
        Some(data) => put_of_entities(alloc, text, asked, parts, data),
    }
}

// Puts what is asked without data.
fn put_of_parts(alloc: Global, text: &mut String, asked: Asked, parts: &Parts<'_>) -> Option<()>
    requires { AreParts parts.now }
{
    match asked {
        Asked::Owners => put_owners(alloc, text, parts),
        Asked::Counts => put_counts(alloc, text, parts),
        Asked::Regions => put_regions(alloc, text, parts),
        Asked::Links => put_links(alloc, text, parts),
        Asked::Conflicts => put_conflicts(alloc, text, parts),
        Asked::Forced => put_forced(alloc, text, parts),
        Asked::ForcedAgain => put_forced_again(alloc, text, parts),
        Asked::Dangling => put_dangling(alloc, text, parts),
        Asked::Failure => put_failure(alloc, text, parts),
        Asked::Views => put_views(alloc, text, parts),
        _ => None,
    }
}

// Puts what is asked of a state, or of tables.
fn put_of_entities(
    alloc: Global,
    text: &mut String,
    asked: Asked,
    parts: &Parts<'_>,
    data: &Doc,
) -> Option<()>
    requires { AreParts parts.now }
{
    if matches!(asked, Asked::Shown | Asked::Keys | Asked::Lent) {
        return put_of_tables(alloc, text, asked, parts, data);
    }
    let state = state_of_doc(alloc, data, parts.model).ok()?;
    let put = put_of_state(alloc, text, asked, parts, &state);
    drop(state);
    put
}

// Puts what is asked of a state.
fn put_of_state(
    alloc: Global,
    text: &mut String,
    asked: Asked,
    parts: &Parts<'_>,
    state: &EntityState,
) -> Option<()>
    requires { AreParts parts.now }
{
    match asked {
        Asked::Selected => put_selected(alloc, text, parts, state),
        Asked::Found => put_found(alloc, text, parts, state),
        Asked::Rows => put_rows(alloc, text, parts, state),
        _ => None,
    }
}

// Puts what is asked of tables.
fn put_of_tables(
    alloc: Global,
    text: &mut String,
    asked: Asked,
    parts: &Parts<'_>,
    data: &Doc,
) -> Option<()>
    requires { AreParts parts.now }
{
    match tables_of_doc(alloc, data, parts.store) {
        Ok(tables) => {
            let put = put_by_tables(alloc, text, asked, parts, &tables);
            drop(tables);
            put
        }
        Err(_) => None,
    }
}

// The same by the tables that a document holds.
fn put_by_tables(
    alloc: Global,
    text: &mut String,
    asked: Asked,
    parts: &Parts<'_>,
    tables: &Tables,
) -> Option<()>
    requires parts { AreParts parts.now }
    requires tables { AreTables parts.now.store.now tables.now }
{
    match asked {
        Asked::Shown => put_shown(alloc, text, parts, tables.as_slice()),
        _ => put_told(alloc, text, asked, parts, tables),
    }
}
