ghost use Rattle.std.specs.Prelude.{◌≡◌, false};
ghost use Rattle.std.specs.List.{list_all};
ghost use Rattle.edm_types.specs.declared.mapping.Test.TheVariants.{IsNull};
ghost use Rattle.regions.specs.Settled.{settle};
ghost use Rattle.regions.specs.Shown.{cell_in, met_by_row, settled_passes, shows_link_row, shows_row};

use condition_logic::AtomOf;
use edm_types::{Cond, CondOn, EntityModel, Fragment, LinkFragment, Pair, Test};
use emc_base::ColId;
use regions::{PatternRow, Symbol};
use symbolic_rows::cell_passes;

/// The symbols of a column; none where the row has no such column.
pub fn cell_in(row: &PatternRow, col: ColId) -> &[Symbol]
    ensures { result.now ≡ cell_in row.now col }
{
    match row.cells.get(col.index as usize) {
        Some(cell) => cell.as_slice(),
        None => &[],
    }
}

/// Whether a fragment shows a row, where these atoms are told.
pub fn shows_row(
    model: &EntityModel,
    atoms: &[AtomOf],
    fragment: &Fragment,
    row: &PatternRow,
) -> bool
    ensures { result ≡ shows_row model.now atoms.now fragment.now row.now }
{
    meets_all(model, atoms, fragment.conds.as_slice(), row)
}

/// Whether a link fragment shows a row: no mapped key column is null besides.
pub fn shows_link_row(
    model: &EntityModel,
    atoms: &[AtomOf],
    fragment: &LinkFragment,
    row: &PatternRow,
) -> bool
    ensures { result ≡ shows_link_row model.now atoms.now fragment.now row.now }
{
    meets_all(model, atoms, fragment.conds.as_slice(), row)
        && has_key(model, atoms, fragment.first.as_slice(), row)
        && has_key(model, atoms, fragment.second.as_slice(), row)
}

// Whether a row meets each of these conditions.
fn meets_all(model: &EntityModel, atoms: &[AtomOf], conds: &[Cond], row: &PatternRow) -> bool
    ensures { result ≡ list_all (λ cond. met_by_row model.now atoms.now row.now cond.on cond.test) conds.now }
{
    conds.iter().all(|cond| meets(model, atoms, cond, row))
}

// Whether a row meets a condition, if it is on a column.
fn meets(model: &EntityModel, atoms: &[AtomOf], cond: &Cond, row: &PatternRow) -> bool
    ensures { result ≡ met_by_row model.now atoms.now row.now cond.now.on cond.now.test }
{
    match cond.on {
        CondOn::Prop(_) => true,
        CondOn::Col(col) => cell_passes(model, atoms, cell_in(row, col), &cond.test),
    }
}

// Whether the cells of a key aren't null.
fn has_key(model: &EntityModel, atoms: &[AtomOf], pairs: &[Pair], row: &PatternRow) -> bool
    ensures { result ≡ list_all (λ pair. settled_passes (IsNull false) (settle model.now atoms.now (cell_in row.now pair.col))) pairs.now }
{
    pairs.iter().all(|pair| cell_passes(model, atoms, cell_in(row, pair.col), &Test::IsNull(false)))
}
