ghost use Rattle.std.specs.Prelude.{◌≡◌, ◌==◌, [], Bool, IfOk, find, not, true};
ghost use Rattle.std.specs.List.{cons_option, list_all};
ghost use Rattle.std.specs.Option.{option_copied};
ghost use Rattle.regions.specs.Settled.{settle};
ghost use Rattle.regions.specs.region_laws.pattern.Allowed.{told_of};
ghost use Rattle.region_states.specs.region_basis.BasisOf.{basis_of};
ghost use Rattle.region_states.specs.conflicts.Facts.{has_row, listed_in};
ghost use Rattle.conflict_laws.specs.rival.RivalValues.{is_null_cell};
ghost use Rattle.dangling_keys.specs.Showing.{cell_at, may_refer, not_null_for, nullable_by, nullable_in, shown_at};
ghost use Rattle.dangling_search.specs.Lent.{IsLook, settled_of};

use cells::Parts;
use condition_logic::AtomOf;
use edm_types::{EntityModel, ForeignKey};
use emc_base::{ColId, Memory, PropId, Seq, TableId, Value, put_found};
use regions::{Focus, Pattern, PatternRow, Symbol};
use std::alloc::Global;
use symbolic_rows::{CanBe, possible};

/// What a cell holds, lent.
#[derive(Drop)]
pub enum Shown<'a> {
    /// Null.
    Nothing,
    /// This value.
    Known(&'a Value),
    /// The value of a symbol.
    Symbol {
        /// Whose value it is.
        one: &'a Symbol,
        /// Whether it may be null.
        nullable: bool,
    },
}

/// A focus with its pattern.
#[derive(Clone, Copy)]
pub struct Look<'a> {
    /// The focus.
    pub of: &'a Focus,
    /// Its rows in symbols.
    pub pattern: &'a Pattern,
}

/// Whether a pattern has a row of a table.
pub fn has_row(pattern: &Pattern, table: TableId) -> bool
    ensures { result ≡ has_row pattern.now table }
{
    pattern
        .rows
        .as_slice()
        .iter()
        .any(|row| row.table.index == table.index)
}

// The pattern's row of a table.
fn row_of(pattern: &Pattern, table: TableId) -> Option<&PatternRow>
    ensures { option_copied result ≡ find (λ row. row.table.index == table.index) pattern.now.rows }
{
    pattern
        .rows
        .as_slice()
        .iter()
        .find(|row| row.table.index == table.index)
}

// The symbols in a column of the pattern's row of a table; none where it has no such row or column.
fn listed_in(pattern: &Pattern, table: TableId, col: ColId) -> &[Symbol]
    ensures { result.now ≡ listed_in pattern.now table col }
{
    match row_of(pattern, table) {
        Some(row) => match row.cells.get(col.index as usize) {
            Some(cell) => cell.as_slice(),
            None => &[],
        },
        None => &[],
    }
}

// What a cell with these symbols holds.
fn settle<'a>(model: &EntityModel, atoms: &'a [AtomOf], cell: &'a [Symbol]) -> Shown<'a>
    ensures { settled_of result ≡ settle model.now atoms.now cell.now }
{
    match cell.first() {
        Some(one) => match possible(model, atoms, one) {
            CanBe::Null => Shown::Nothing,
            CanBe::One(value) => Shown::Known(value),
            CanBe::Several { nullable } => Shown::Symbol { one, nullable },
        },
        None => Shown::Nothing,
    }
}

// What is known of the focus's properties; nothing of a link's.
fn atoms_of(of: &Focus) -> &[AtomOf]
    ensures { result.now ≡ told_of of.now }
{
    match of {
        Focus::Entity(region) => region.atoms.as_slice(),
        Focus::Link(_) => &[],
    }
}

/// What the focus's row of a table holds in a column; null where it has no such row or column.
pub fn cell_at<'a>(parts: &Parts<'_>, look: Look<'a>, table: TableId, col: ColId) -> Shown<'a>
    requires { IsLook (basis_of parts.now) look }
    ensures { settled_of result ≡ cell_at (basis_of parts.now) look.entry.of.now table col }
{
    settle(
        parts.model,
        atoms_of(look.of),
        listed_in(look.pattern, table, col),
    )
}

/// What the row shows for a column of the table to which the key points.
pub fn shown_at<'a>(parts: &Parts<'_>, look: Look<'a>, key: &ForeignKey, col: ColId) -> Shown<'a>
    requires { IsLook (basis_of parts.now) look }
    ensures { settled_of result ≡ shown_at (basis_of parts.now) look.entry.of.now key.now col }
{
    for (to, from) in key.to_cols.as_slice().iter().zip(key.from_cols.as_slice()) {
        if to.index == col.index {
            return cell_at(parts, look, key.from, *from);
        }
    }
    Shown::Nothing
}

/// Whether the focus has a row of the table from which the key points, and no column of the key holds null for certain.
pub fn may_refer(parts: &Parts<'_>, look: Look<'_>, key: &ForeignKey) -> bool
    requires { IsLook (basis_of parts.now) look }
    ensures { result ≡ may_refer (basis_of parts.now) look.entry.of.now key.now }
{
    has_row(look.pattern, key.from) && none_null(parts, look, key)
}

// Whether no column of the key holds null for certain.
fn none_null(parts: &Parts<'_>, look: Look<'_>, key: &ForeignKey) -> bool
    requires { IsLook (basis_of parts.now) look }
    ensures { result ≡ list_all (λ col. not (is_null_cell (cell_at (basis_of parts.now) look.entry.of.now key.now.from col))) key.now.from_cols }
{
    key.from_cols
        .as_slice()
        .iter()
        .all(|col| !is_null(&cell_at(parts, look, key.from, *col)))
}

// Whether a cell holds null for certain.
fn is_null(shown: &Shown<'_>) -> bool
    ensures { result ≡ is_null_cell (settled_of shown.now) }
{
    match shown {
        Shown::Nothing => true,
        Shown::Known(value) => **value == Value::Null,
        Shown::Symbol { .. } => false,
    }
}

/// The properties that may be null and that a column of the key shows. `Memory` comes where memory ran out.
pub fn not_null_for(
    alloc: Global,
    parts: &Parts<'_>,
    look: Look<'_>,
    key: &ForeignKey,
) -> Result<Seq<PropId>, Memory>
    requires { IsLook (basis_of parts.now) look }
    ensures { IfOk result (λ list. list ≡ not_null_for (basis_of parts.now) look.entry.of.now key.now) }
{
    let mut list = Seq::empty(alloc);
    for col in key.from_cols.as_slice() {
        put_found(&mut list, nullable_at(parts, look, key, col))?;
    }
    Ok(list)
}

// The property whose value the row holds in a column of the key, where this may be null.
fn nullable_at(parts: &Parts<'_>, look: Look<'_>, key: &ForeignKey, col: &ColId) -> Option<PropId>
    requires { IsLook (basis_of parts.now) look }
    ensures { cons_option result [] ≡ nullable_in (cell_at (basis_of parts.now) look.entry.of.now key.now.from col.now) }
{
    nullable_in(&cell_at(parts, look, key.from, *col))
}

// The property whose value a cell holds, where this may be null.
fn nullable_in(shown: &Shown<'_>) -> Option<PropId>
    ensures { cons_option result [] ≡ nullable_in (settled_of shown.now) }
{
    match shown {
        Shown::Symbol {
            one,
            nullable: true,
        } => prop_of(one),
        _ => None,
    }
}

// The property that a symbol is.
fn prop_of(one: &Symbol) -> Option<PropId>
    ensures { (nullable : Bool) → nullable ≡ true → cons_option result [] ≡ nullable_by one.now nullable }
{
    match one {
        Symbol::Prop(prop) => Some(*prop),
        _ => None,
    }
}
