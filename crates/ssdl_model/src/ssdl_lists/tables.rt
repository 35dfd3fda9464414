ghost use Rattle.std.specs.Prelude.{◌≡◌, IfOk, None, replicate};
ghost use Rattle.csdl_names.specs.csdl_lists.References.{names_in};
ghost use Rattle.ssdl_model.specs.ssdl_lists.Tables.{IsTabled, table_in, table_of};

use csdl_names::Lookups;
use emc_base::Memory;
use std::alloc::Global;

/// For each type the first table that has it, as places in the lists of types and of entity sets; `None` for a type that no table has. One
/// pass over the tables. `Memory` comes where memory ran out.
pub fn tables_of(alloc: Global, lookups: &Lookups<'_>) -> Result<Vec<Option<usize>>, Memory>
    ensures { IfOk result (λ tables. table_in tables.items ≡ table_of (names_in lookups.now.model.now) lookups.now.model.now) }
{
    let mut tables = no_tables(alloc, lookups.model.types.len())?;
    for (place, set) in lookups.model.container.sets.as_slice().iter().enumerate() {
        note_table(&mut tables, lookups.type_named(&set.element), place);
    }
    Ok(tables)
}

// So many types without a table.
fn no_tables(alloc: Global, count: usize) -> Result<Vec<Option<usize>>, Memory>
    ensures { IfOk result (λ tables. tables.items ≡ replicate count None) }
{
    let tables = vec![in alloc; None; count]?;
    Ok(tables)
}

// Notes the table of a type, unless the type has one.
fn note_table(tables: &mut Vec<Option<usize>>, ty: Option<usize>, table: usize)
    ensures { IsTabled tables.old.items ty table tables.new.items }
{
    let Some(ty) = ty else {
        return;
    };
    if ty < tables.len() && table_at(tables, ty).is_none() {
        tables[ty] = Some(table);
    }
}

/// What such a list says of a type; `None` outside of the list.
pub fn table_at(tables: &[Option<usize>], ty: usize) -> Option<usize>
    ensures { result ≡ table_in tables.now ty }
{
    *tables.get(ty)?
}
