ghost use Rattle.std.specs.Prelude.{◌≡◌, IfOk, map};
ghost use Rattle.cells.specs.Parts.{AreParts};
ghost use Rattle.region_states.specs.region_basis.BasisOf.{basis_of};
ghost use Rattle.dangling_search.specs.Rows.{region_rows, tables_of, writes};

use cells::Parts;
use emc_base::{Memory, Seq, TableId};
use regions::{PatternRow, Region};
use std::alloc::Global;
use symbolic_rows::{copy_region, region_pattern};

/// A region with the tables in which its entities have a row.
#[derive(Drop)]
pub struct RegionRows {
    pub region: Region,
    /// In the order of the store.
    pub tables: Seq<TableId>,
}

/// Whether the entities of a region have a row of a table.
pub fn writes(rows: &RegionRows, table: TableId) -> bool
    ensures { result ≡ writes table rows.now }
{
    rows.tables
        .as_slice()
        .iter()
        .any(|one| one.index == table.index)
}

/// Each region of each set with its tables. The pattern of each is made once, and let go. `Memory` comes where memory ran out.
pub fn rows_of_sets(
    alloc: Global,
    parts: &Parts<'_>,
    regions: &Seq<Seq<Region>>,
) -> Result<Seq<Seq<RegionRows>>, Memory>
    requires { AreParts parts.now }
    ensures { IfOk result (λ rows. rows ≡ map (map (region_rows (basis_of parts.now))) regions.now) }
{
    let mut list = Seq::empty(alloc);
    for of_set in regions.as_slice() {
        list.push(rows_of_set(alloc, parts, of_set)?)?;
    }
    Ok(list)
}

// The same of one set.
fn rows_of_set(
    alloc: Global,
    parts: &Parts<'_>,
    regions: &Seq<Region>,
) -> Result<Seq<RegionRows>, Memory>
    requires { AreParts parts.now }
    ensures { IfOk result (λ rows. rows ≡ map (region_rows (basis_of parts.now)) regions.now) }
{
    let mut list = Seq::empty(alloc);
    for region in regions.as_slice() {
        list.push(rows_of(alloc, parts, region)?)?;
    }
    Ok(list)
}

// The same of one region.
fn rows_of(alloc: Global, parts: &Parts<'_>, region: &Region) -> Result<RegionRows, Memory>
    requires { AreParts parts.now }
    ensures { IfOk result (λ rows. rows ≡ region_rows (basis_of parts.now) region.now) }
{
    let tables = tables_of(alloc, parts, region)?;
    Ok(RegionRows {
        region: copy_region(region)?,
        tables,
    })
}

// The tables in which the entities of a region have a row.
fn tables_of(alloc: Global, parts: &Parts<'_>, region: &Region) -> Result<Seq<TableId>, Memory>
    requires { AreParts parts.now }
    ensures { IfOk result (λ tables. tables ≡ tables_of (basis_of parts.now) region.now) }
{
    let pattern = region_pattern(alloc, parts, region)?;
    let tables = tables_in(alloc, pattern.rows.as_slice());
    drop(pattern);
    tables
}

// The tables of rows.
fn tables_in(alloc: Global, rows: &[PatternRow]) -> Result<Seq<TableId>, Memory>
    ensures { IfOk result (λ tables. tables ≡ map (λ row. row.table) rows.now) }
{
    let mut list = Seq::empty(alloc);
    for row in rows {
        list.push(row.table)?;
    }
    Ok(list)
}
