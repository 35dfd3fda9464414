ghost use Rattle.std.specs.Prelude.{◌≡◌, ◌<◌, length};
ghost use Rattle.cells.specs.Cells.{is_free_in};
ghost use Rattle.cells.specs.Parts.{AreParts, schema_in};
ghost use Rattle.region_states.specs.region_basis.BasisOf.{basis_of};
ghost use Rattle.round_trip.specs.Words.{AreLegalTables, RoundTrips};
ghost use Rattle.round_trip.specs.soundness.Lookups.{set_key};
ghost use Rattle.query_views.specs.Answers.{EntityAt};
ghost use Rattle.query_views.specs.Views.{AreQueryViewsOf};

use crate::fault::{EntityFault, Found};
use crate::views::QueryViews;
use cells::Parts;
use emc_base::{Key, SetId};
use keyed_rows::rows_at;
use query_cases::met_cases_are_read;
use region_states::parts_are_a_basis;
use std::alloc::Global;
use table_files::Tables;

impl QueryViews {
    /// The entity that legal tables tell at a key of a set, and the links that it hosts, by the first case that the rows there meet. `Absent` comes exactly where no table that the set owns
    /// has a row with this key, `NoCase` exactly where there are such rows and they meet no case, and `Memory` where memory ran out.
    pub fn entity_at(
        &self,
        alloc: Global,
        parts: &Parts<'_>,
        tables: &Tables,
        set: SetId,
        key: &Key,
    ) -> Result<Found, EntityFault>
        requires parts { AreParts parts.now }
        requires views { AreQueryViewsOf (basis_of parts.now) (is_free_in parts.now.cells.now) self.now }
        requires round_trips { RoundTrips (schema_in parts.now) }
        requires legal { AreLegalTables parts.now.store.now tables.now }
        requires set { set.index < length parts.now.model.now.sets }
        requires whole { length key.now ≡ length (set_key parts.now.model.now set) }
        ensures { EntityAt (basis_of parts.now) (is_free_in parts.now.cells.now) tables.now set key.now result }
    {
        parts_are_a_basis();
        met_cases_are_read();
        let rows = rows_at(alloc, parts, tables, set, key)?;
        let rows = rows.as_slice();
        if rows.is_empty() {
            return Err(EntityFault::Absent);
        }
        match self.first_met(alloc, parts, set, rows)? {
            Some(met) => {
                let entity = met.reading.entity(alloc, met.case, rows)?;
                let links = met.reading.hosted(alloc, rows)?;
                Ok(Found { entity, links })
            }
            None => Err(EntityFault::NoCase),
        }
    }
}
