ghost use Rattle.std.specs.Prelude.{◌≡◌, ◌<◌, All, AllPairs, IfOk, length, slice_get};
ghost use Rattle.std.specs.Option.{option_and_then, option_copied};
ghost use Rattle.case_laws.specs.candidates.Rows.{shown_rows};
ghost use Rattle.cells.specs.Parts.{AreParts};
ghost use Rattle.region_states.specs.region_basis.BasisOf.{basis_of};
ghost use Rattle.query_views.specs.First.{FindsAmong, FindsFirst, cases_in, readings_in};
ghost use Rattle.query_views.specs.Views.{IsReaderOf};
ghost use Rattle.std.specs.List.{AllZip};

use case_laws::{Case, PlacedRow};
use cells::Parts;
use emc_base::{Memory, Seq, SetId};
use query_cases::{CaseIndex, Reading};
use std::alloc::Global;

/// The query views of a mapping: of each entity set the cases, in the order of its regions, how entities are read by each, and an index that finds which of
/// them rows may meet.
#[derive(Drop)]
pub struct QueryViews {
    pub(crate) cases: Seq<Seq<Case>>,
    pub(crate) readers: Seq<SetReader>,
}

/// How the entities of a set are read.
#[derive(Drop)]
pub(crate) struct SetReader {
    /// By each case, in their order.
    pub readings: Seq<Reading>,
    /// Finds the cases that rows may meet.
    pub index: CaseIndex,
}

/// A case that rows meet, and how their entity is read by it.
#[derive(Clone, Copy)]
pub(crate) struct Met<'v> {
    pub case: &'v Case,
    pub reading: &'v Reading,
}

impl QueryViews {
    /// Lends the case of a set at a place, counted from 0; `None` exactly where the set has not so many.
    pub fn case_at(&self, set: SetId, i: usize) -> Option<&Case>
        ensures { option_copied result ≡ slice_get (cases_in self.now set) i }
    {
        match self.cases.get(set.index as usize) {
            Some(cases) => cases.get(i),
            None => None,
        }
    }

    /// Lends the cases of each entity set, in the order of the model.
    pub fn cases(&self) -> &[Seq<Case>]
        ensures { result.now ≡ self.now.cases }
    {
        self.cases.as_slice()
    }

    // The first case of a set that the rows at a key meet; `None` where they meet none.
    pub(crate) fn first_met(
        &self,
        alloc: Global,
        parts: &Parts<'_>,
        set: SetId,
        rows: &[PlacedRow<'_>],
    ) -> Result<Option<Met<'_>>, Memory>
        requires parts { AreParts parts.now }
        requires readers { AllZip (IsReaderOf (basis_of parts.now)) self.now.cases self.now.readers }
        ensures { IfOk result (FindsFirst (basis_of parts.now) (shown_rows rows.now) (cases_in self.now set) (readings_in self.now set)) }
    {
        let index = set.index as usize;
        match (self.cases.get(index), self.readers.get(index)) {
            (Some(cases), Some(reader)) => reader.first_met(alloc, parts, cases.as_slice(), rows),
            _ => Ok(None),
        }
    }
}

impl SetReader {
    // The first of the set's cases that rows meet: only those are tried that the index finds.
    fn first_met<'v>(
        &'v self,
        alloc: Global,
        parts: &Parts<'_>,
        cases: &'v [Case],
        rows: &[PlacedRow<'_>],
    ) -> Result<Option<Met<'v>>, Memory>
        requires parts { AreParts parts.now }
        requires reader { IsReaderOf (basis_of parts.now) cases.now self.now }
        ensures { IfOk result (FindsFirst (basis_of parts.now) (shown_rows rows.now) cases.now self.now.readings) }
    {
        let places = self.index.places(alloc, rows)?;
        Ok(self.first_among(parts, cases, places, rows))
    }

    // The first of the cases at these places that rows meet.
    fn first_among<'v>(
        &'v self,
        parts: &Parts<'_>,
        cases: &'v [Case],
        places: &[usize],
        rows: &[PlacedRow<'_>],
    ) -> Option<Met<'v>>
        requires parts { AreParts parts.now }
        requires size { length self.now.readings ≡ length cases.now }
        requires within { All (λ i. i < length cases.now) places.now }
        requires rising { AllPairs (λ i j. i < j) places.now }
        ensures { FindsAmong (basis_of parts.now) (shown_rows rows.now) cases.now self.now.readings places.now result }
    {
        for place in places {
            let met = Met {
                case: &cases[*place],
                reading: self.readings.at(*place),
            };
            if met.reading.meets(parts, met.case, rows) {
                return Some(met);
            }
        }
        None
    }
}
