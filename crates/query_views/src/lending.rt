ghost use Rattle.std.specs.Prelude.{◌≡◌, ◌<◌, IfOk, length};
ghost use Rattle.cells.specs.Cells.{is_free_in};
ghost use Rattle.cells.specs.Parts.{AreParts, schema_in};
ghost use Rattle.region_states.specs.region_basis.BasisOf.{basis_of};
ghost use Rattle.round_trip.specs.Words.{AreLegalTables, RoundTrips};
ghost use Rattle.query_views.specs.Answers.{LendsAt, LendsSet, TellsKey};
ghost use Rattle.round_trip.specs.Words.{Tables as RowsOfEach};
ghost use Rattle.query_views.specs.Lent.{shown_values};
ghost use Rattle.query_views.specs.Views.{AreQueryViewsOf};

use crate::fault::StateFault;
use crate::views::{Met, QueryViews};
use case_laws::PlacedRow;
use cells::Parts;
use edm_types::EntityModel;
use emc_base::{Key, Memory, Place, Seq, SetId, Txt, Value};
use keyed_rows::{KeyGroup, rows_by_key};
use query_cases::met_cases_are_read;
use region_states::parts_are_a_basis;
use std::alloc::Global;
use table_files::Tables;

/// An entity that is lent: its key, the case that its rows meet, and these rows.
#[derive(Drop)]
pub(crate) struct LentEntity<'t> {
    pub key: Vec<&'t Value>,
    pub met: Met<'t>,
    pub rows: Vec<PlacedRow<'t>>,
}

/// The entities of a set that tables tell, in the order of their keys.
pub(crate) fn lent_set<'t>(
    alloc: Global,
    views: &'t QueryViews,
    parts: &Parts<'_>,
    tables: &'t Tables,
    set: SetId,
) -> Result<Vec<LentEntity<'t>>, StateFault>
    requires parts { AreParts parts.now }
    requires set { set.index < length parts.now.model.now.sets }
    requires views { AreQueryViewsOf (basis_of parts.now) (is_free_in parts.now.cells.now) views.now }
    requires round_trips { RoundTrips (schema_in parts.now) }
    requires legal { AreLegalTables parts.now.store.now tables.now }
    ensures { LendsSet (basis_of parts.now) (is_free_in parts.now.cells.now) tables.now set result }
{
    let mut entities = Vec::new(alloc);
    for group in rows_by_key(alloc, parts, tables, set)? {
        entities.push(lent_entity(alloc, views, parts, set, group)?)?;
    }
    Ok(entities)
}

// The entity that the rows at a key tell.
fn lent_entity<'t>(
    alloc: Global,
    views: &'t QueryViews,
    parts: &Parts<'_>,
    set: SetId,
    group: KeyGroup<'t, PlacedRow<'t>>,
) -> Result<LentEntity<'t>, StateFault>
    requires parts { AreParts parts.now }
    requires set { set.index < length parts.now.model.now.sets }
    requires views { AreQueryViewsOf (basis_of parts.now) (is_free_in parts.now.cells.now) views.now }
    requires round_trips { RoundTrips (schema_in parts.now) }
    ensures { (tables : RowsOfEach) → AreLegalTables parts.now.store.now tables → LendsAt (basis_of parts.now) (is_free_in parts.now.cells.now) tables set group.entry result }
{
    parts_are_a_basis();
    met_cases_are_read();
    match views.first_met(alloc, parts, set, group.items.as_slice())? {
        Some(met) => Ok(LentEntity {
            key: group.key,
            met,
            rows: group.items,
        }),
        None => {
            let place = place_of(alloc, parts.model, set, group.key.as_slice())?;
            Err(StateFault::NoCase(place))
        }
    }
}

// The place of a key of a set.
fn place_of(alloc: Global, model: &EntityModel, set: SetId, key: &[&Value]) -> Result<Place, Memory>
    requires { set.index < length model.now.sets }
    ensures { IfOk result (TellsKey model.now set (shown_values key.now)) }
{
    Ok(Place {
        name: model.sets.at(set.index as usize).name.copy(alloc)?,
        key: copied_key(alloc, key)?,
        part: Txt::of(alloc, "")?,
    })
}

/// A key of these values. `Memory` comes where memory ran out.
pub(crate) fn copied_key(alloc: Global, values: &[&Value]) -> Result<Key, Memory>
    ensures { IfOk result (λ key. key ≡ shown_values values.now) }
{
    let mut key = Seq::empty(alloc);
    for value in values {
        key.push(value.copy(alloc)?)?;
    }
    Ok(key)
}
