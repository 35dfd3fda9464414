ghost use Rattle.std.specs.Prelude.{◌≡◌, ◌++◌, IfOk, map};
ghost use Rattle.query_cases.specs.case_index.Told.{GroupRows, case_rows, keyed_row};

use case_laws::{Case, CaseRow};
use emc_base::Memory;
use groupings::group;
use regions::Region;
use std::alloc::Global;
use std::collections::BTreeMap;

/// A row of a case, with the region of the case.
#[derive(Clone, Copy)]
pub struct ToldRow<'c> {
    pub region: &'c Region,
    pub row: &'c CaseRow,
}

/// The rows of cases by their tables.
pub type ByTable<'c> = BTreeMap<u32, Vec<ToldRow<'c>>>;

/// The rows of these cases by their tables. `Memory` comes where memory ran out.
pub fn rows_by_table<'c>(alloc: Global, cases: &'c [Case]) -> Result<ByTable<'c>, Memory>
    ensures { IfOk result (GroupRows cases.now) }
{
    let mut told = Vec::new(alloc);
    for case in cases {
        add_case(&mut told, case)?;
    }
    let grouped = group(alloc, told)?;
    Ok(grouped)
}

// Adds the rows of a case, each with the number of its table.
fn add_case<'c>(told: &mut Vec<(u32, ToldRow<'c>)>, case: &'c Case) -> Result<(), Memory>
    ensures { IfOk result (λ _. map keyed_row told.new.items ≡ map keyed_row told.old.items ++ case_rows case.now) }
{
    for row in case.rows.as_slice() {
        let one = ToldRow {
            region: &case.region,
            row,
        };
        told.push((row.table.index, one))?;
    }
    Ok(())
}
