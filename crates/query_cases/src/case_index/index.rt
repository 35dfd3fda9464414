ghost use Rattle.std.specs.Prelude.{◌≡◌, IfOk};
ghost use Rattle.cells.specs.Parts.{AreParts};
ghost use Rattle.region_states.specs.region_basis.BasisOf.{basis_of};
ghost use Rattle.case_laws.specs.candidates.Rows.{shown_rows};
ghost use Rattle.query_cases.specs.case_index.Found.{AreCoded, IsIndexOf, found_places};

use crate::case_index::codes::{case_code, rows_code};
use crate::case_index::known::known_values;
use crate::case_index::telling::{Telling, telling_columns};
use case_laws::{Case, PlacedRow};
use cells::Parts;
use emc_base::Memory;
use groupings::group;
use std::alloc::Global;
use std::collections::BTreeMap;

/// Finds the cases of a set that rows may meet.
#[derive(Drop)]
pub struct CaseIndex {
    // What is looked at in the rows of each table.
    telling: Telling,
    // The places of the cases of each code, in rising order.
    by_code: BTreeMap<Vec<usize>, Vec<usize>>,
}

impl CaseIndex {
    /// The index of cases, by their places in the list. `Memory` comes where memory ran out.
    pub fn of(alloc: Global, parts: &Parts<'_>, cases: &[Case]) -> Result<CaseIndex, Memory>
        requires { AreParts parts.now }
        ensures { IfOk result (IsIndexOf (basis_of parts.now) cases.now) }
    {
        let known = known_values(alloc, cases)?;
        let telling = telling_columns(alloc, parts, cases, known)?;
        let coded = codes_of(alloc, &telling, cases)?;
        Ok(CaseIndex {
            telling,
            by_code: group(alloc, coded)?,
        })
    }

    /// The places of the cases that the rows may meet, in rising order, and perhaps a few others. `Memory` comes where memory ran out.
    pub fn places(&self, alloc: Global, rows: &[PlacedRow<'_>]) -> Result<&[usize], Memory>
        ensures { IfOk result (λ places. places.now ≡ found_places self.now (shown_rows rows.now)) }
    {
        let code = rows_code(alloc, &self.telling, rows)?;
        match self.by_code.get(code.as_slice()) {
            Some(places) => Ok(places.as_slice()),
            None => Ok(&[]),
        }
    }
}

// The codes of cases, each with its place.
fn codes_of(
    alloc: Global,
    telling: &Telling,
    cases: &[Case],
) -> Result<Vec<(Vec<usize>, usize)>, Memory>
    ensures { IfOk result (λ coded. AreCoded telling.now cases.now coded.items) }
{
    let mut coded = Vec::new(alloc);
    for (place, case) in cases.iter().enumerate() {
        coded.push((case_code(alloc, telling, case)?, place))?;
    }
    Ok(coded)
}
