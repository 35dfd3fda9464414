ghost use Rattle.std.specs.Prelude.{◌≡◌, All, IfOk};
ghost use Rattle.std.specs.List.{AllZip};
ghost use Rattle.query_cases.specs.case_reading.Reading.{IsReadingOf};
ghost use Rattle.cells.specs.Cells.{is_free_in};
ghost use Rattle.cells.specs.Parts.{AreParts};
ghost use Rattle.region_states.specs.region_basis.BasisOf.{basis_of};
ghost use Rattle.region_partition.specs.set_regions.Regions.{AreRegions};
ghost use Rattle.query_views.specs.Views.{AreCases, AreQueryViewsOf, IsCaseOf, IsReaderOf};

use crate::views::{QueryViews, SetReader};
use case_laws::Case;
use cells::Parts;
use emc_base::{Memory, Seq};
use query_cases::{CaseIndex, Reading, cases_of};
use regions::Region;
use std::alloc::Global;

impl QueryViews {
    /// The query views of a mapping, by the regions of each entity set. `Memory` comes where memory ran out.
    pub fn of(
        alloc: Global,
        parts: &Parts<'_>,
        regions: &Seq<Seq<Region>>,
    ) -> Result<QueryViews, Memory>
        requires parts { AreParts parts.now }
        requires regions { AreRegions (basis_of parts.now) regions.now }
        ensures { IfOk result (AreQueryViewsOf (basis_of parts.now) (is_free_in parts.now.cells.now)) }
    {
        let cases = cases_of_sets(alloc, parts, regions)?;
        let readers = readers_of(alloc, parts, cases.as_slice())?;
        Ok(QueryViews { cases, readers })
    }
}

// The cases of each set, in the order of its regions.
fn cases_of_sets(
    alloc: Global,
    parts: &Parts<'_>,
    regions: &Seq<Seq<Region>>,
) -> Result<Seq<Seq<Case>>, Memory>
    requires parts { AreParts parts.now }
    requires regions { AreRegions (basis_of parts.now) regions.now }
    ensures { IfOk result (AreCases (basis_of parts.now) (is_free_in parts.now.cells.now)) }
{
    let mut cases = Seq::empty(alloc);
    for of_set in regions.as_slice() {
        cases.push(cases_of(alloc, parts, of_set.as_slice())?)?;
    }
    Ok(cases)
}

// The reader of each set.
fn readers_of(
    alloc: Global,
    parts: &Parts<'_>,
    cases: &[Seq<Case>],
) -> Result<Seq<SetReader>, Memory>
    requires parts { AreParts parts.now }
    requires cases { AreCases (basis_of parts.now) (is_free_in parts.now.cells.now) cases.now }
    ensures { IfOk result (AllZip (IsReaderOf (basis_of parts.now)) cases.now) }
{
    let mut readers = Seq::empty(alloc);
    for of_set in cases {
        readers.push(reader_of(alloc, parts, of_set.as_slice())?)?;
    }
    Ok(readers)
}

// The reader of a set, by its cases.
fn reader_of(alloc: Global, parts: &Parts<'_>, cases: &[Case]) -> Result<SetReader, Memory>
    requires parts { AreParts parts.now }
    requires cases { All (IsCaseOf (basis_of parts.now) (is_free_in parts.now.cells.now)) cases.now }
    ensures { IfOk result (IsReaderOf (basis_of parts.now) cases.now) }
{
    Ok(SetReader {
        readings: readings_of(alloc, parts, cases)?,
        index: CaseIndex::of(alloc, parts, cases)?,
    })
}

// How entities are read by each case.
fn readings_of(alloc: Global, parts: &Parts<'_>, cases: &[Case]) -> Result<Seq<Reading>, Memory>
    requires parts { AreParts parts.now }
    requires cases { All (IsCaseOf (basis_of parts.now) (is_free_in parts.now.cells.now)) cases.now }
    ensures { IfOk result (AllZip (IsReadingOf (basis_of parts.now)) cases.now) }
{
    let mut readings = Seq::empty(alloc);
    for case in cases {
        readings.push(Reading::of(alloc, parts, case)?)?;
    }
    Ok(readings)
}
