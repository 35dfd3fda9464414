ghost use Rattle.std.specs.Prelude.{◌≡◌, IfOk};
ghost use Rattle.groupings.specs.name_places.GivenNames.{first_place};
ghost use Rattle.groupings.specs.name_places.PlacesIn.{place_in};
ghost use Rattle.schema_names.specs.Columns.{AreColumnsOf};

use crate::columns::{TableColumns, columns_of};
use crate::lent_names::places_by;
use crate::own_props::{OwnProps, own_props_of};
use edm_types::{EntityModel, StoreModel};
use emc_base::{Memory, Seq, beside};
use groupings::Places;
use std::alloc::Global;

/// Where the names in an entity model and a store are given first.
#[derive(Drop)]
pub struct NameTables {
    /// The entity types.
    pub types: Places,
    /// The entity sets.
    pub sets: Places,
    /// The association sets, each by its own name.
    pub association_sets: Places,
    /// The same, each by the name of its association.
    pub associations: Places,
    /// The tables.
    pub tables: Places,
    /// The columns of each table.
    pub columns: Seq<TableColumns>,
    /// The properties that each type declares.
    pub own_props: Vec<OwnProps>,
}

impl NameTables {
    ghost use Rattle.schema_names.specs.Tables.{AreTablesOf};

    /// Those of a model and a store.
    pub fn of(alloc: Global, model: &EntityModel, store: &StoreModel) -> Result<NameTables, Memory>
        ensures { IfOk result (AreTablesOf model.now store.now) }
    {
        let in_model = beside(
            entity_places(alloc, model)?,
            association_places(alloc, model),
        )?;
        let names = beside(in_model, table_places(alloc, store))?;
        let (names, own_props) = beside(names, own_props_of(alloc, model))?;
        let (((types, sets), (association_sets, associations)), (tables, columns)) = names;
        Ok(NameTables {
            types,
            sets,
            association_sets,
            associations,
            tables,
            columns,
            own_props,
        })
    }
}

// Where the names of entity types are given first, and those of entity sets.
fn entity_places(alloc: Global, model: &EntityModel) -> Result<(Places, Places), Memory>
    ensures types { IfOk result (λ places. place_in places.0 ≡ first_place (λ type. type.name) model.now.types) }
    ensures sets { IfOk result (λ places. place_in places.1 ≡ first_place (λ set. set.name) model.now.sets) }
{
    let types = places_by(alloc, model.types.as_slice(), |ty| &ty.name)?;
    beside(
        types,
        places_by(alloc, model.sets.as_slice(), |set| &set.name),
    )
}

// Where the names of association sets are given first, and those of their associations.
fn association_places(alloc: Global, model: &EntityModel) -> Result<(Places, Places), Memory>
    ensures sets { IfOk result (λ places. place_in places.0 ≡ first_place (λ assoc. assoc.set_name) model.now.assocs) }
    ensures associations { IfOk result (λ places. place_in places.1 ≡ first_place (λ assoc. assoc.assoc_name) model.now.assocs) }
{
    let assocs = model.assocs.as_slice();
    let sets = places_by(alloc, assocs, |assoc| &assoc.set_name)?;
    beside(sets, places_by(alloc, assocs, |assoc| &assoc.assoc_name))
}

// Where the names of tables are given first, and those of the columns of each.
fn table_places(alloc: Global, store: &StoreModel) -> Result<(Places, Seq<TableColumns>), Memory>
    ensures tables { IfOk result (λ places. place_in places.0 ≡ first_place (λ table. table.name) store.now.tables) }
    ensures columns { IfOk result (λ places. AreColumnsOf store.now.tables places.1) }
{
    let tables = places_by(alloc, store.tables.as_slice(), |table| &table.name)?;
    beside(tables, columns_of(alloc, store.tables.as_slice()))
}
