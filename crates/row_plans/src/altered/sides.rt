ghost use Rattle.std.specs.Prelude.{◌≡◌, ◌<◌, ◌++◌, All, IfOk, length, map};
ghost use Rattle.row_plans.specs.Altered.{first_of, is_side};
ghost use Rattle.row_plans.specs.Sides.{AreRowGroups, keyed_row, shown_sided};

use edm_types::Row;
use emc_base::{ColId, Memory, Value};
use keyed_rows::{KeyGroup, key_groups, lent_cells};
use std::alloc::Global;

/// Which tables a row is of.
#[derive(Clone, Copy)]
pub enum Side {
    /// Those before.
    Before,
    /// Those afterwards.
    Afterwards,
}

/// A lent row, and whose it is.
#[derive(Clone, Copy)]
pub struct SidedRow<'t> {
    /// Which tables it is of.
    pub side: Side,
    /// The row.
    pub row: &'t Row,
}

// Whether two sides are one.
fn is_same_side(one: Side, other: Side) -> bool
    ensures { result ≡ is_side one other }
{
    match (one, other) {
        (Side::Before, Side::Before) | (Side::Afterwards, Side::Afterwards) => true,
        _ => false,
    }
}

/// The first row of a side; `None` where no row is of it.
pub fn row_of<'t>(rows: &[SidedRow<'t>], side: Side) -> Option<&'t Row>
    ensures { result ≡ first_of side rows.now }
{
    for one in rows {
        if is_same_side(one.side, side) {
            return Some(one.row);
        }
    }
    None
}

/// The rows of both sides, grouped by their cells in some columns, in the order of these. `Memory` comes where memory ran out.
pub fn row_groups<'t>(
    alloc: Global,
    cols: &[ColId],
    old: &'t [Row],
    new: &'t [Row],
) -> Result<Vec<KeyGroup<'t, SidedRow<'t>>>, Memory>
    requires within { All (λ row. All (λ col. col.index < length row.cells) cols.now) old.now }
    requires new_within { All (λ row. All (λ col. col.index < length row.cells) cols.now) new.now }
    ensures { IfOk result (λ groups. AreRowGroups cols.now old.now new.now groups.items) }
{
    let mut keyed = Vec::new(alloc);
    add_rows(alloc, &mut keyed, Side::Before, cols, old)?;
    add_rows(alloc, &mut keyed, Side::Afterwards, cols, new)?;
    let groups = key_groups(alloc, keyed)?;
    Ok(groups)
}

// Adds the rows of a side behind the others, with their cells in some columns.
fn add_rows<'t>(
    alloc: Global,
    keyed: &mut Vec<(Vec<&'t Value>, SidedRow<'t>)>,
    side: Side,
    cols: &[ColId],
    rows: &'t [Row],
) -> Result<(), Memory>
    requires { All (λ row. All (λ col. col.index < length row.cells) cols.now) rows.now }
    ensures { IfOk result (λ _. map shown_sided keyed.new.items ≡ map shown_sided keyed.old.items ++ map (keyed_row side cols.now) rows.now) }
{
    for row in rows {
        let key = lent_cells(alloc, row, cols)?;
        keyed.push((key, SidedRow { side, row }))?;
    }
    Ok(())
}
