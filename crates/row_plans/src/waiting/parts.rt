ghost use Rattle.std.specs.Prelude.{◌≡◌, ◌++◌, All, IfOk, map};
ghost use Rattle.std.specs.List.{list_all};
ghost use Rattle.std.specs.Option.{option_copied};
ghost use Rattle.keyed_rows.specs.row_groups.Shown.{shown_keyed};
ghost use Rattle.row_plans.specs.Roles.{Fits, FitsIn, all_parts, cols_in, is_value, parts_at, parts_in, row_in, table_in};

use edm_types::{ForeignKey, Row};
use emc_base::{ColId, Memory, TableId, Value};
use keyed_rows::lent_cells;
use row_orders::Alteration;
use std::alloc::Global;

// What the row of an alteration is to a foreign key.
#[derive(Clone, Copy)]
pub(super) enum Role {
    // It comes, and may be referred to afterwards.
    Comes,
    // It stands afterwards, and refers then.
    Refers,
    // It goes, and may have been referred to.
    Goes,
    // It stood before, and referred then.
    Referred,
}

// An alteration by its place, with what its row is.
#[derive(Clone, Copy)]
pub(super) struct Part {
    pub place: usize,
    pub role: Role,
}

// The parts of all alterations by a foreign key, each with the cells by which it refers or is referred to. None of these is null.
pub(super) fn parts_of<'t>(
    alloc: Global,
    key: &ForeignKey,
    alterations: &[Alteration<'t>],
) -> Result<Vec<(Vec<&'t Value>, Part)>, Memory>
    requires { All (Fits key.now) alterations.now }
    ensures { IfOk result (λ parts. map shown_keyed parts.items ≡ all_parts key.now alterations.now) }
{
    let mut parts = Vec::new(alloc);
    for (place, alteration) in alterations.iter().enumerate() {
        add_parts(alloc, &mut parts, key, place, alteration)?;
    }
    Ok(parts)
}

// Adds the parts of an alteration.
fn add_parts<'t>(
    alloc: Global,
    parts: &mut Vec<(Vec<&'t Value>, Part)>,
    key: &ForeignKey,
    place: usize,
    alteration: &Alteration<'t>,
) -> Result<(), Memory>
    requires { Fits key.now alteration.now }
    ensures { IfOk result (λ _. map shown_keyed parts.new.items ≡ map shown_keyed parts.old.items ++ parts_at key.now place alteration.now) }
{
    for role in [Role::Comes, Role::Refers, Role::Goes, Role::Referred] {
        add_part(alloc, parts, key, Part { place, role }, alteration)?;
    }
    Ok(())
}

// Adds a part of an alteration, if its row has the role and no null.
fn add_part<'t>(
    alloc: Global,
    parts: &mut Vec<(Vec<&'t Value>, Part)>,
    key: &ForeignKey,
    part: Part,
    alteration: &Alteration<'t>,
) -> Result<(), Memory>
    requires { FitsIn key.now alteration.now part.role }
    ensures { IfOk result (λ _. map shown_keyed parts.new.items ≡ map shown_keyed parts.old.items ++ parts_in key.now alteration.now part) }
{
    let Some(row) = row_of(key, part.role, alteration) else {
        return Ok(());
    };
    let cells = lent_cells(alloc, row, cols_of(key, part.role))?;
    if have_values(&cells) {
        parts.push((cells, part))?;
    }
    Ok(())
}

// The row of an alteration that may have a role.
fn row_of<'t>(key: &ForeignKey, role: Role, alteration: &Alteration<'t>) -> Option<&'t Row>
    ensures { option_copied result ≡ row_in key.now role alteration.now }
{
    if table_of(key, role) != alteration.table {
        return None;
    }
    match role {
        Role::Comes if alteration.old.is_some() => None,
        Role::Goes if alteration.new.is_some() => None,
        Role::Comes | Role::Refers => alteration.new,
        Role::Goes | Role::Referred => alteration.old,
    }
}

// The table of the rows of a role.
fn table_of(key: &ForeignKey, role: Role) -> TableId
    ensures { result ≡ table_in key.now role }
{
    match role {
        Role::Comes | Role::Goes => key.to,
        Role::Refers | Role::Referred => key.from,
    }
}

// The columns by which the rows of a role refer, or are referred to.
fn cols_of(key: &ForeignKey, role: Role) -> &[ColId]
    ensures { result.now ≡ cols_in key.now role }
{
    match role {
        Role::Comes | Role::Goes => key.to_cols.as_slice(),
        Role::Refers | Role::Referred => key.from_cols.as_slice(),
    }
}

// Whether none of the cells is null.
fn have_values(cells: &[&Value]) -> bool
    ensures { result ≡ list_all (λ cell. is_value cell.now) cells.now }
{
    cells.iter().all(|cell| is_value(cell))
}

// Whether the value isn't null.
fn is_value(value: &Value) -> bool
    ensures { result ≡ is_value value.now }
{
    !matches!(value, Value::Null)
}
