ghost use Rattle.std.specs.Prelude.{◌≡◌, ◌&&◌, ◌==◌};
ghost use Rattle.regions.specs.Settled.{settle, single};
ghost use Rattle.region_states.specs.region_basis.BasisOf.{basis_of};
ghost use Rattle.symbolic_rows.specs.settled_cells.Lent.{shown_possible};
ghost use Rattle.containment.specs.same_conflicts.Matching.{can_be_same, cells_match, held_by, rows_alike};

use crate::same_conflicts::lost::is_several;
use crate::same_conflicts::written::Written;
use cells::Parts;
use condition_logic::AtomOf;
use edm_types::EntityModel;
use emc_base::{Seq, Value};
use regions::{PatternRow, Region, Symbol};
use symbolic_rows::{CanBe, can_be_null, possible};

/// Whether two regions have rows in the same tables, which can hold the same.
pub fn rows_alike(parts: &Parts<'_>, one: &Written<'_>, two: &Written<'_>) -> bool
    ensures { result ≡ rows_alike (basis_of parts.now) one.now two.now }
{
    let (rows, others) = (one.pattern.rows.as_slice(), two.pattern.rows.as_slice());
    if rows.len() != others.len() {
        return false;
    }
    for (place, row) in rows.iter().enumerate() {
        if !rows_match(parts.model, one.region, two.region, row, &others[place]) {
            return false;
        }
    }
    true
}

// Whether two rows of these regions are of one table, and can hold the same.
fn rows_match(
    model: &EntityModel,
    one: &Region,
    two: &Region,
    row: &PatternRow,
    other: &PatternRow,
) -> bool
    ensures { result ≡ ((row.now.table.index == other.now.table.index) && cells_match model.now one.now.atoms two.now.atoms row.now.cells other.now.cells) }
{
    row.table.index == other.table.index
        && cells_match(
            model,
            one.atoms.as_slice(),
            two.atoms.as_slice(),
            row.cells.as_slice(),
            other.cells.as_slice(),
        )
}

// Whether there are as many cells, and these can hold the same.
fn cells_match(
    model: &EntityModel,
    atoms: &[AtomOf],
    others: &[AtomOf],
    cells: &[Seq<Symbol>],
    faced: &[Seq<Symbol>],
) -> bool
    ensures { result ≡ cells_match model.now atoms.now others.now cells.now faced.now }
{
    if cells.len() != faced.len() {
        return false;
    }
    for (place, cell) in cells.iter().enumerate() {
        let one = held_by(model, atoms, cell.as_slice());
        let two = held_by(model, others, faced[place].as_slice());
        if !can_be_same(&one, &two) {
            return false;
        }
    }
    true
}

// What a cell can hold: null alone where nothing is listed, else what its first symbol can be.
fn held_by<'a>(model: &EntityModel, atoms: &'a [AtomOf], cell: &'a [Symbol]) -> CanBe<'a>
    ensures { shown_possible result ≡ held_by (settle model.now atoms.now cell.now) }
{
    match cell.first() {
        Some(symbol) => possible(model, atoms, symbol),
        None => CanBe::Null,
    }
}

// Whether two cells that can hold this can hold the same.
fn can_be_same(one: &CanBe<'_>, two: &CanBe<'_>) -> bool
    ensures { result ≡ can_be_same (shown_possible one.now) (shown_possible two.now) }
{
    match one {
        CanBe::Null => can_be(two, &Value::Null),
        CanBe::One(value) => can_be(two, value),
        CanBe::Several { nullable } => is_several(two) || (*nullable && can_be_null(two)),
    }
}

// Whether a cell that can hold this can hold a value that is certain: another than null, of several, counts as one that it can't.
fn can_be(possible: &CanBe<'_>, value: &Value) -> bool
    ensures { result ≡ can_be_same (single value.now) (shown_possible possible.now) }
{
    match possible {
        CanBe::Null => *value == Value::Null,
        CanBe::One(other) => *value == **other,
        CanBe::Several { nullable } => *value == Value::Null && *nullable,
    }
}
