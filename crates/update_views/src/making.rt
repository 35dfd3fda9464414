ghost use Rattle.std.specs.Prelude.{◌≡◌, IfOk, map};
ghost use Rattle.round_trip.specs.Words.{At};
ghost use Rattle.cells.specs.Parts.{AreParts};
ghost use Rattle.region_states.specs.region_basis.BasisOf.{basis_of};
ghost use Rattle.regions.specs.Regions.{regions_of};
ghost use Rattle.region_partition.specs.set_regions.Regions.{AreRegions};
ghost use Rattle.update_views.specs.Making.{AreJoinedRows, AreSetViews, IsSetView, joined_by};
ghost use Rattle.update_views.specs.Views.{AreViewsOf};
ghost use Rattle.update_views.specs.view_rows.Made.{rows_of_region};

use crate::region_table::RegionTable;
use crate::view_rows::{LinkRow, ViewRow, link_row, rows_of_region};
use crate::views::{SetView, UpdateViews};
use cells::{LinkPlace, Parts};
use edm_types::Assoc;
use emc_base::{AssocId, Memory, Seq, SetId};
use regions::Region;
use std::alloc::Global;

impl UpdateViews {
    /// The update views of a mapping, by the regions of each entity set. `Memory` comes where memory ran out.
    pub fn of(
        alloc: Global,
        parts: &Parts<'_>,
        regions: &Seq<Seq<Region>>,
    ) -> Result<UpdateViews, Memory>
        requires parts { AreParts parts.now }
        requires regions { AreRegions (basis_of parts.now) regions.now }
        ensures { IfOk result (AreViewsOf (basis_of parts.now)) }
    {
        Ok(UpdateViews {
            sets: set_views(alloc, parts, regions)?,
            joined: joined_rows(alloc, parts)?,
        })
    }
}

// The views of all entity sets, by their regions.
fn set_views(
    alloc: Global,
    parts: &Parts<'_>,
    regions: &Seq<Seq<Region>>,
) -> Result<Seq<SetView>, Memory>
    requires parts { AreParts parts.now }
    requires regions { AreRegions (basis_of parts.now) regions.now }
    ensures { IfOk result (AreSetViews (basis_of parts.now)) }
{
    let mut views = Seq::empty(alloc);
    for (index, of_set) in regions.as_slice().iter().enumerate() {
        let set = SetId {
            index: index as u32,
        };
        views.push(set_view(alloc, parts, set, of_set.as_slice())?)?;
    }
    Ok(views)
}

// The view of a set, by its regions.
fn set_view(
    alloc: Global,
    parts: &Parts<'_>,
    set: SetId,
    regions: &[Region],
) -> Result<SetView, Memory>
    requires parts { AreParts parts.now }
    requires regions { regions.now ≡ regions_of (basis_of parts.now) set }
    ensures { IfOk result (IsSetView (basis_of parts.now) set) }
{
    Ok(SetView {
        regions: RegionTable::of(alloc, parts, set)?,
        rows: rows_of_regions(alloc, parts, regions)?,
    })
}

// The rows of each region.
fn rows_of_regions(
    alloc: Global,
    parts: &Parts<'_>,
    regions: &[Region],
) -> Result<Seq<Seq<ViewRow>>, Memory>
    requires { AreParts parts.now }
    ensures { IfOk result (λ rows. rows ≡ map (rows_of_region (basis_of parts.now)) regions.now) }
{
    let mut rows = Seq::empty(alloc);
    for region in regions {
        rows.push(rows_of_region(alloc, parts, region)?)?;
    }
    Ok(rows)
}

// The row of the links of each association set, if they have rows of their own.
fn joined_rows(alloc: Global, parts: &Parts<'_>) -> Result<Seq<Option<LinkRow>>, Memory>
    requires { AreParts parts.now }
    ensures { IfOk result (AreJoinedRows (basis_of parts.now) parts.now.cells.now.places) }
{
    let mut rows = Seq::empty(alloc);
    for (index, assoc) in parts.model.assocs.as_slice().iter().enumerate() {
        let id = AssocId {
            index: index as u32,
        };
        rows.push(joined_row(alloc, parts, id, assoc)?)?;
    }
    Ok(rows)
}

// The row of the links of an association set, if they have rows of their own.
fn joined_row(
    alloc: Global,
    parts: &Parts<'_>,
    id: AssocId,
    assoc: &Assoc,
) -> Result<Option<LinkRow>, Memory>
    requires parts { AreParts parts.now }
    requires here { At parts.now.model.now.assocs id.index assoc.now }
    ensures { IfOk result (λ row. row ≡ joined_by (basis_of parts.now) parts.now.cells.now.places (id.index, assoc.now)) }
{
    match parts.cells.link_place(id) {
        LinkPlace::Joined(_) => link_row(alloc, parts, id, assoc),
        LinkPlace::Hosted { .. } | LinkPlace::Unmapped | LinkPlace::Constraint => Ok(None),
    }
}
