ghost use Rattle.std.specs.Prelude.{◌≡◌, ◌+◌, ◌<◌, ◌^◌, ◌↔◌, length, Contains, IfOk, IsTrue};
ghost use Rattle.round_trip.specs.Words.{key_props};
ghost use Rattle.round_trip.specs.soundness.mappings.Joined.{prop, col};
ghost use Rattle.member_groups.specs.joined_groups.Places.{ArePlacesOf, HavePlaces, IsAdded, IsColumnOfKey, IsPropOfKey, place_of};

use edm_types::{EntityModel, StoreModel, Table};
use emc_base::{ColId, Memory, PropId, Seq, TableId, TypeId};
use std::alloc::Global;

/// A place for each property and each column that is no part of a key: for a property its number, for a column the number of
/// all properties and of all columns before it.
#[derive(Drop)]
pub struct Places {
    /// The place of each property.
    pub props: Seq<Option<usize>>,
    /// The place of each column of each table.
    pub tables: Seq<Seq<Option<usize>>>,
    /// How many places there are. Those of keys count, too.
    pub count: usize,
}

impl Places {
    /// The places of these properties and columns. More than can be counted are want of memory.
    pub fn of(alloc: Global, model: &EntityModel, store: &StoreModel) -> Result<Places, Memory>
        ensures { IfOk result (ArePlacesOf model.now store.now) }
    {
        let props = prop_places(alloc, model)?;
        let mut places = Places {
            count: props.len(),
            props,
            tables: Seq::empty(alloc),
        };
        for table in store.tables.as_slice() {
            places.add_table(alloc, table)?;
        }
        Ok(places)
    }

    // Places for the columns of one table more.
    fn add_table(&mut self, alloc: Global, table: &Table) -> Result<(), Memory>
        ensures { IfOk result (λ _. IsAdded table.now self.old self.new) }
    {
        let count = self.count.checked_add(table.cols.len()).ok_or(Memory)?;
        let columns = column_places(alloc, table, self.count)?;
        self.tables.push(columns)?;
        self.count = count;
        Ok(())
    }

    /// The place of a property. `None` for a part of a key, and where there is no such property.
    pub fn of_prop(&self, property: PropId) -> Option<usize>
        ensures { result ≡ place_of self.now (prop property) }
    {
        self.props.get(property.index as usize).copied().flatten()
    }

    /// The place of a column. `None` for a part of a key, and where there is no such column.
    pub fn of_column(&self, table: TableId, column: ColId) -> Option<usize>
        ensures { result ≡ place_of self.now (col table column) }
    {
        let columns = self.tables.get(table.index as usize)?;
        columns.get(column.index as usize).copied().flatten()
    }
}

// The places of all properties.
fn prop_places(alloc: Global, model: &EntityModel) -> Result<Seq<Option<usize>>, Memory>
    ensures { IfOk result (HavePlaces (IsPropOfKey model.now) (length model.now.props) 0) }
{
    let mut places = Seq::empty(alloc);
    for (place, declared) in model.props.as_slice().iter().enumerate() {
        let property = PropId {
            index: place as u32,
        };
        places.push((!is_key_prop(model, declared.owner, property)).then_some(place))?;
    }
    Ok(places)
}

// The places of a table's columns. The first column has this one.
fn column_places(alloc: Global, table: &Table, first: usize) -> Result<Seq<Option<usize>>, Memory>
    requires { first + length table.now.cols < 2 ^ 64 }
    ensures { IfOk result (HavePlaces (IsColumnOfKey table.now) (length table.now.cols) first) }
{
    let mut places = Seq::empty(alloc);
    for place in 0..table.cols.len() {
        let column = ColId {
            index: place as u32,
        };
        places.push((!is_key_column(table, column)).then_some(first + place))?;
    }
    Ok(places)
}

// Whether a property is part of a type's key.
fn is_key_prop(model: &EntityModel, ty: TypeId, property: PropId) -> bool
    ensures { IsTrue result ↔ Contains (key_props model.now ty) property }
{
    match model.types.get(ty.index as usize) {
        Some(declared) => declared.key.as_slice().contains(&property),
        None => false,
    }
}

// Whether a column is part of a table's primary key.
fn is_key_column(table: &Table, column: ColId) -> bool
    ensures { IsTrue result ↔ Contains table.now.key column }
{
    table.key.as_slice().contains(&column)
}
