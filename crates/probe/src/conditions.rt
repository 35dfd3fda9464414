ghost use Rattle.cells.specs.Parts.{AreParts};
ghost use Rattle.round_trip.specs.soundness.models.Models.{IsSoundModel};

use crate::printing::put_flag;
use cells::Parts;
use condition_logic::{Expr, holds_entity, holds_row, select_expr, show_expr};
use edm_types::{Entity, EntityModel, Fragment, Row, StoreModel};
use emc_base::Seq;
use entity_state::EntityState;
use std::alloc::Global;

/// Puts a line for each fragment, with whether it selects each entity of its set in a state.
pub fn put_selected(
    alloc: Global,
    text: &mut String,
    parts: &Parts<'_>,
    state: &EntityState,
) -> Option<()>
    requires { AreParts parts.now }
{
    for fragment in parts.mapping.fragments.as_slice() {
        put_selected_by(alloc, text, parts.model, fragment, state)?;
        text.push_str("\n").ok()?;
    }
    Some(())
}

// Puts whether a fragment selects each entity of its set.
fn put_selected_by(
    alloc: Global,
    text: &mut String,
    model: &EntityModel,
    fragment: &Fragment,
    state: &EntityState,
) -> Option<()>
    requires { IsSoundModel model.now }
{
    let entities = state.entity_lists().get(fragment.set.index as usize)?;
    let expr = select_expr(alloc, fragment).ok()?;
    let put = put_holding(text, model, &expr, entities.as_slice());
    drop(expr);
    put
}

// Puts whether an expression holds of each of some entities.
fn put_holding(
    text: &mut String,
    model: &EntityModel,
    expr: &Expr,
    entities: &[Entity],
) -> Option<()>
    requires { IsSoundModel model.now }
{
    for entity in entities {
        put_flag(text, holds_entity(model, expr, entity))?;
    }
    Some(())
}

/// Puts a line for each fragment, with whether it shows each row of its table, where columns of the primary key aren't null.
pub fn put_shown(
    alloc: Global,
    text: &mut String,
    parts: &Parts<'_>,
    tables: &[Seq<Row>],
) -> Option<()> {
    for fragment in parts.mapping.fragments.as_slice() {
        put_shown_by(alloc, text, parts.store, fragment, tables)?;
        text.push_str("\n").ok()?;
    }
    Some(())
}

// Puts whether a fragment shows each row of its table, where columns of the primary key aren't null.
fn put_shown_by(
    alloc: Global,
    text: &mut String,
    store: &StoreModel,
    fragment: &Fragment,
    tables: &[Seq<Row>],
) -> Option<()> {
    let table = store.tables.get(fragment.table.index as usize)?;
    let rows = tables.get(fragment.table.index as usize)?;
    let expr = show_expr(alloc, &fragment.conds, &table.key).ok()?;
    let put = put_holding_rows(text, &expr, rows.as_slice());
    drop(expr);
    put
}

// Puts whether an expression holds of each of some rows.
fn put_holding_rows(text: &mut String, expr: &Expr, rows: &[Row]) -> Option<()> {
    for row in rows {
        put_flag(text, holds_row(expr, row))?;
    }
    Some(())
}
