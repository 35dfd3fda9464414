ghost use Rattle.std.specs.Prelude.{◌≡◌, ◌<◌, ◌++◌, All, IfOk, flat_map, length};
ghost use Rattle.round_trip.specs.Words.{IsState, TableId, rows_in};
ghost use Rattle.cells.specs.Parts.{CoverModel};
ghost use Rattle.cells.specs.host_links.Grouped.{links_in};
ghost use Rattle.delta_plan.specs.Asking.{local_rows, rows_by_place};
ghost use Rattle.delta_plan.specs.RowsOf.{giving, named, touched_rows};
ghost use Rattle.delta_plan.specs.Steps.{RoseAtMost, raised};
ghost use Rattle.delta_plan.specs.Units.{count_at};

use crate::gathering::gathered;
use crate::marked::{MarkedEntity, MarkedLink, marked_entities, marked_links};
use crate::marks::Marks;
use cells::{Cells, HostLinks, LinkPlace};
use edm_types::{EntityModel, StoreModel};
use emc_base::{Ledger, Memory, Seq};
use entity_changes::Touched;
use entity_state::EntityState;
use std::alloc::Global;
use table_files::{LocalRows, TableRow, Tables};

/// The rows that views give for the touched entities and links of a state, in their tables. The views are asked once for each such entity. The time is near
/// linear in the state and in what is touched.
pub(crate) fn touched_tables<R: LocalRows, L: Ledger>(
    alloc: Global,
    model: &EntityModel,
    store: &StoreModel,
    cells: &Cells,
    touched: &Touched,
    state: &EntityState,
    views: &R,
    steps: &mut L,
) -> Result<Tables, Memory>
    requires cover { CoverModel model.now cells.now }
    requires state { IsState model.now state.now }
    requires within { All (λ one. one.table.index < length store.now.tables)
        (touched_rows (giving (R.rows views.now) (R.joined_row views.now)) model.now cells.now state.now touched.now) }
    ensures size { IfOk result (λ tables. length tables ≡ length store.now.tables) }
    ensures each { IfOk result (λ tables. (t : TableId) → rows_in tables t
        ≡ named t (touched_rows (giving (R.rows views.now) (R.joined_row views.now)) model.now cells.now state.now touched.now)) }
    ensures exact { IfOk result (λ _. L.count steps.new ≡ raised (count_at model.now touched.now state.now) (L.count steps.old)) }
    ensures most { RoseAtMost (count_at model.now touched.now state.now) (L.count steps.old) (L.count steps.new) }
{
    let rows = rows_of_touched(alloc, model, cells, touched, state, views, steps)?;
    gathered(alloc, store, rows)
}

// The same in one list.
fn rows_of_touched<R: LocalRows, L: Ledger>(
    alloc: Global,
    model: &EntityModel,
    cells: &Cells,
    touched: &Touched,
    state: &EntityState,
    views: &R,
    steps: &mut L,
) -> Result<Vec<TableRow>, Memory>
    requires cover { CoverModel model.now cells.now }
    requires state { IsState model.now state.now }
    ensures rows { IfOk result (λ rows. rows.items ≡ touched_rows (giving (R.rows views.now) (R.joined_row views.now)) model.now cells.now state.now touched.now) }
    ensures exact { IfOk result (λ _. L.count steps.new ≡ raised (count_at model.now touched.now state.now) (L.count steps.old)) }
    ensures most { RoseAtMost (count_at model.now touched.now state.now) (L.count steps.old) (L.count steps.new) }
{
    let marks = Marks::of(alloc, touched)?;
    let entities = marked_entities(alloc, model, &marks, state)?;
    let links = marked_links(alloc, &marks, state)?;
    let hosts = HostLinks::of(alloc, model, cells, state)?;
    let mut rows = Vec::new(alloc);
    ask_entities(alloc, views, &hosts, entities.as_slice(), &mut rows, steps)?;
    ask_links(alloc, cells, views, links.as_slice(), &mut rows)?;
    Ok(rows)
}

// Adds the rows of marked entities, each with the links that it hosts.
fn ask_entities<'s, R: LocalRows, L: Ledger>(
    alloc: Global,
    views: &R,
    hosts: &HostLinks<'s>,
    marked: &'s [MarkedEntity<'_>],
    rows: &mut Vec<TableRow>,
    steps: &mut L,
) -> Result<(), Memory>
    ensures rows { IfOk result (λ _. rows.new.items ≡ rows.old.items ++ flat_map (local_rows (R.rows views.now) (links_in hosts.now)) marked.now) }
    ensures exact { IfOk result (λ _. L.count steps.new ≡ raised (length marked.now) (L.count steps.old)) }
    ensures most { RoseAtMost (length marked.now) (L.count steps.old) (L.count steps.new) }
{
    for one in marked {
        let links = hosts.at(one.set, &one.key);
        let own = views.local(alloc, one.set, one.entity, links, steps)?;
        append(rows, own)?;
    }
    Ok(())
}

// Adds the rows of marked links, where their association sets are joined.
fn ask_links<R: LocalRows>(
    alloc: Global,
    cells: &Cells,
    views: &R,
    marked: &[MarkedLink<'_>],
    rows: &mut Vec<TableRow>,
) -> Result<(), Memory>
    requires { All (λ one. one.assoc.index < length cells.now.places) marked.now }
    ensures { IfOk result (λ _. rows.new.items ≡ rows.old.items ++ flat_map (rows_by_place (R.joined_row views.now) cells.now) marked.now) }
{
    for one in marked {
        add_link(alloc, cells, views, *one, rows)?;
    }
    Ok(())
}

// Adds the row of a link, where its association set is joined.
fn add_link<R: LocalRows>(
    alloc: Global,
    cells: &Cells,
    views: &R,
    marked: MarkedLink<'_>,
    rows: &mut Vec<TableRow>,
) -> Result<(), Memory>
    requires { marked.assoc.index < length cells.now.places }
    ensures { IfOk result (λ _. rows.new.items ≡ rows.old.items ++ rows_by_place (R.joined_row views.now) cells.now marked.entry) }
{
    let LinkPlace::Joined(_) = cells.link_place(marked.assoc) else {
        return Ok(());
    };
    if let Some(row) = views.joined(alloc, marked.assoc, marked.link)? {
        rows.push(row)?;
    }
    Ok(())
}

// Adds rows behind others.
fn append(rows: &mut Vec<TableRow>, own: Seq<TableRow>) -> Result<(), Memory>
    ensures { IfOk result (λ _. rows.new.items ≡ rows.old.items ++ own) }
{
    for row in own.into_vec() {
        rows.push(row)?;
    }
    Ok(())
}
