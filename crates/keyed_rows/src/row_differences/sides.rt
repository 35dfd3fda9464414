ghost use Rattle.std.specs.Prelude.{◌≡◌, ◌↔◌, ◌<◌, ◌++◌, All, IfOk, IsTrue, length, map};
ghost use Rattle.std.specs.Option.{option_copied};
ghost use Rattle.keyed_rows.specs.row_differences.Sides.{AreRowGroups, IsRowOf, keyed_row, shown_sided};
ghost use Rattle.table_files.specs.InOrder.{lent_rows};

use crate::row_groups::{KeyGroup, key_groups, lent_cells};
use edm_types::Row;
use emc_base::{ColId, Memory, Value};
use std::alloc::Global;
use table_files::KeyOrder;

// Which tables a row is of: those that are held, or the fresh ones, which are demanded.
#[derive(Clone, Copy)]
pub(super) enum Side {
    Held,
    Demanded,
}

// A lent row, and whose it is.
#[derive(Clone, Copy)]
pub(super) struct SidedRow<'t> {
    pub side: Side,
    pub row: &'t Row,
}

// Whether two sides are one.
fn is_same_side(one: Side, other: Side) -> bool
    ensures { IsTrue result ↔ (one ≡ other) }
{
    match (one, other) {
        (Side::Held, Side::Held) | (Side::Demanded, Side::Demanded) => true,
        _ => false,
    }
}

// The first row of a side.
pub(super) fn row_of<'t>(rows: &[SidedRow<'t>], side: Side) -> Option<&'t Row>
    ensures { IsRowOf side rows.now (option_copied result) }
{
    for one in rows {
        if is_same_side(one.side, side) {
            return Some(one.row);
        }
    }
    None
}

// The rows of both sides, grouped by their cells in some columns, in the order of these.
pub(super) fn row_groups<'t>(
    alloc: Global,
    cols: &[ColId],
    held: &KeyOrder<'t>,
    demanded: &KeyOrder<'t>,
) -> Result<Vec<KeyGroup<'t, SidedRow<'t>>>, Memory>
    requires within { All (λ row. All (λ col. col.index < length row.cells) cols.now) (lent_rows held.now) }
    requires demanded_within { All (λ row. All (λ col. col.index < length row.cells) cols.now) (lent_rows demanded.now) }
    ensures { IfOk result (λ groups. AreRowGroups cols.now (lent_rows held.now) (lent_rows demanded.now) groups.items) }
{
    let mut keyed = Vec::new(alloc);
    add_rows(alloc, &mut keyed, Side::Held, cols, held)?;
    add_rows(alloc, &mut keyed, Side::Demanded, cols, demanded)?;
    let groups = key_groups(alloc, keyed)?;
    Ok(groups)
}

// Adds the rows of a side behind the others, with their cells in some columns.
fn add_rows<'t>(
    alloc: Global,
    keyed: &mut Vec<(Vec<&'t Value>, SidedRow<'t>)>,
    side: Side,
    cols: &[ColId],
    rows: &KeyOrder<'t>,
) -> Result<(), Memory>
    requires { All (λ row. All (λ col. col.index < length row.cells) cols.now) (lent_rows rows.now) }
    ensures { IfOk result (λ _. map shown_sided keyed.new.items ≡ map shown_sided keyed.old.items ++ map (keyed_row side cols.now) (lent_rows rows.now)) }
{
    for i in 0..rows.len() {
        let row = rows.row(i);
        let key = lent_cells(alloc, row, cols)?;
        keyed.push((key, SidedRow { side, row }))?;
    }
    Ok(())
}
