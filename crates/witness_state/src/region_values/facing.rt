ghost use Rattle.std.specs.Prelude.{◌≡◌, ◌==◌, ◌&&◌, find};
ghost use Rattle.std.specs.List.{list_any};
ghost use Rattle.std.specs.Option.{option_copied};
ghost use Rattle.round_trip.specs.Words.{EntityModel};
ghost use Rattle.regions.specs.declared.pattern.Symbol.TheVariants as symbol;
ghost use Rattle.regions.specs.Basis.{Basis};
ghost use Rattle.regions.specs.Settled.{settle};
ghost use Rattle.region_states.specs.conflicts.Facts.{listed_in, lists};
ghost use Rattle.region_states.specs.conflicts.SameFacts.{lists_anywhere};
ghost use Rattle.conflict_laws.specs.rival.RivalValues.{faces_null, faces_null_in, is_null_cell};
ghost use Rattle.witness_state.specs.region_values.Rivals.{IsRival};

use crate::region_values::rivals::Rival;
use crate::region_values::symbols::is_null_cell;
use emc_base::{ColId, PropId, TableId};
use entity_state::list_at;
use regions::{Pattern, PatternRow, Symbol};
use symbolic_rows::stands;

/// Whether a pattern lists a property.
pub fn lists_anywhere(pattern: &Pattern, property: PropId) -> bool
    ensures { result ≡ lists_anywhere pattern.now (symbol.Prop property) }
{
    pattern
        .rows
        .as_slice()
        .iter()
        .any(|row| lists_in(row, property))
}

// Whether a row lists a property.
fn lists_in(row: &PatternRow, property: PropId) -> bool
    ensures { result ≡ list_any (λ cell. lists cell (symbol.Prop property)) row.now.cells }
{
    row.cells
        .as_slice()
        .iter()
        .any(|cell| lists(cell.as_slice(), property))
}

// Whether a cell lists a property.
fn lists(cell: &[Symbol], property: PropId) -> bool
    ensures { result ≡ lists cell.now (symbol.Prop property) }
{
    stands(cell, &Symbol::Prop(property))
}

/// Whether a column in which the region's pattern lists a property holds null for certain in the other region's pattern.
pub fn faces_null(rival: &Rival<'_>, property: PropId) -> bool
    ensures { (basis : Basis) → IsRival basis rival.now → result ≡ faces_null basis rival.now.region.now rival.now.other.now property }
{
    rival
        .pattern
        .rows
        .as_slice()
        .iter()
        .any(|row| faces_null_in(rival, row, property))
}

// Whether it does so in a row.
fn faces_null_in(rival: &Rival<'_>, row: &PatternRow, property: PropId) -> bool
    ensures { (basis : Basis) → IsRival basis rival.now → result ≡ faces_null_in basis rival.now.other.now property row.now }
{
    for (index, cell) in row.cells.as_slice().iter().enumerate() {
        let col = ColId {
            index: index as u32,
        };
        if faces_null_at(rival, row.table, col, cell.as_slice(), property) {
            return true;
        }
    }
    false
}

// Whether it does so in a column, with these symbols in the region's own pattern.
fn faces_null_at(
    rival: &Rival<'_>,
    table: TableId,
    col: ColId,
    cell: &[Symbol],
    property: PropId,
) -> bool
    ensures { (model : EntityModel) → result ≡ (lists cell.now (symbol.Prop property)
        && is_null_cell (settle model rival.now.other.now.atoms (listed_in rival.now.facing.now table col))) }
{
    lists(cell, property)
        && is_null_cell(
            rival.other.atoms.as_slice(),
            listed_in(rival.facing, table, col),
        )
}

// The symbols in a column of the pattern's row of a table; none where it has no such row or column.
fn listed_in(pattern: &Pattern, table: TableId, col: ColId) -> &[Symbol]
    ensures { result.now ≡ listed_in pattern.now table col }
{
    match row_of(pattern, table) {
        Some(row) => list_at(row.cells.as_slice(), col.index as usize),
        None => &[],
    }
}

// The pattern's row of a table.
fn row_of(pattern: &Pattern, table: TableId) -> Option<&PatternRow>
    ensures { option_copied result ≡ find (λ row. row.table.index == table.index) pattern.now.rows }
{
    pattern
        .rows
        .as_slice()
        .iter()
        .find(|row| row.table.index == table.index)
}
