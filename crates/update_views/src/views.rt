ghost use Rattle.std.specs.Prelude.{◌≡◌, [], IfOk, slice_get, unwrap_or};
ghost use Rattle.std.specs.Option.{option_copied};
ghost use Rattle.update_views.specs.Views.{joined_at, local_rows, rows_at, rows_in_set};

use crate::region_table::RegionTable;
use crate::view_rows::{LinkRow, ViewRow, filled};
use edm_types::{Entity, Hosted, Link};
use emc_base::{AssocId, Ledger, Memory, Seq, SetId};
use std::alloc::Global;
use table_files::{LocalRows, TableRow};

/// The update views of a mapping. They keep of each entity set how an entity's region is found and the rows of each region, and of each association set the row
/// of a link, if its links have rows of their own.
#[derive(Drop)]
pub struct UpdateViews {
    pub(crate) sets: Seq<SetView>,
    pub(crate) joined: Seq<Option<LinkRow>>,
}

/// The view of an entity set.
#[derive(Drop)]
pub(crate) struct SetView {
    /// Finds the place of the region that holds an entity.
    pub regions: RegionTable,
    /// The rows of each region, in the order of regions.
    pub rows: Seq<Seq<ViewRow>>,
}

impl UpdateViews {
    /// The rows that an entity of the set demands with the links that it hosts; none where no region of the set holds it. `Memory` comes where memory ran out.
    pub(crate) fn rows_of(
        &self,
        alloc: Global,
        set: SetId,
        entity: &Entity,
        links: &Seq<Hosted>,
    ) -> Result<Vec<TableRow>, Memory>
        ensures { IfOk result (λ rows. rows.items ≡ local_rows self.now set entity.now links.now) }
    {
        filled(
            alloc,
            self.rows_at(set, entity, links),
            entity,
            links.as_slice(),
        )
    }

    // The rows of the region that holds an entity of the set with the links that it hosts; none where there is no such region.
    fn rows_at(&self, set: SetId, entity: &Entity, links: &Seq<Hosted>) -> &[ViewRow]
        ensures { result.now ≡ rows_at self.now set entity.now links.now }
    {
        match self.sets.get(set.index as usize) {
            Some(view) => view.rows_of(entity, links),
            None => &[],
        }
    }
}

impl UpdateViews {
    /// The row of the links of an association set; `None` where they have no rows of their own.
    pub(crate) fn joined_at(&self, assoc: AssocId) -> Option<&LinkRow>
        ensures { option_copied result ≡ joined_at self.now assoc }
    {
        match self.joined.get(assoc.index as usize) {
            Some(row) => row.as_ref(),
            None => None,
        }
    }
}

impl SetView {
    // The rows of the region that holds an entity of this set.
    fn rows_of(&self, entity: &Entity, links: &Seq<Hosted>) -> &[ViewRow]
        ensures { result.now ≡ rows_in_set self.now entity.now links.now }
    {
        match self.regions.place(entity, links) {
            Some(place) => rows_of_place(self.rows.as_slice(), place),
            None => &[],
        }
    }
}

// The rows of the region at a place; none where there is none.
fn rows_of_place(rows: &[Seq<ViewRow>], place: usize) -> &[ViewRow]
    ensures { result.now ≡ unwrap_or (slice_get rows.now place) [] }
{
    match rows.get(place) {
        Some(of_region) => of_region.as_slice(),
        None => &[],
    }
}

impl LocalRows for UpdateViews {
    ghost use Rattle.update_views.specs.Views.{joined_row, local_rows};

    ghost rows = { local_rows };

    ghost joined_row = { joined_row };

    fn local<L: Ledger>(
        &self,
        alloc: Global,
        set: SetId,
        entity: &Entity,
        links: &Seq<Hosted>,
        steps: &mut L,
    ) -> Result<Seq<TableRow>, Memory> {
        steps.tick();
        Seq::from_vec(self.rows_of(alloc, set, entity, links)?)
    }

    fn joined(
        &self,
        alloc: Global,
        assoc: AssocId,
        link: &Link,
    ) -> Result<Option<TableRow>, Memory> {
        match self.joined_at(assoc) {
            Some(row) => Ok(Some(row.filled(alloc, link)?)),
            None => Ok(None),
        }
    }
}
