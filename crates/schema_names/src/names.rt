ghost use Rattle.std.specs.Prelude.{◌≡◌, ◌↔◌, IfOk, IfSome, IsTrue, Some};
ghost use Rattle.round_trip.specs.soundness.models.Models.{IsSoundModel};
ghost use Rattle.schema_names.specs.Inherited.{InheritsProps, base_place};
ghost use Rattle.schema_names.specs.SchemaNames.{
  IsColumnAt,
  IsOfAssociation,
  NamesAssociation,
  association_set_named,
  column_named,
  end_named,
  own_prop,
  prop_named,
  set_named,
  table_named,
  type_named,
};
ghost use Rattle.schema_names.specs.Tables.{AreTablesOf};

use crate::ends::{WhichEnd, end_of_role};
use crate::local_names::local_name;
use crate::tables::NameTables;
use edm_types::{EntityModel, StoreModel, Table};
use emc_base::{Memory, PropId};
use std::alloc::Global;

/// An entity model and a store, in which names are looked up.
#[derive(Drop)]
pub struct SchemaNames<'a> {
    /// The entity model.
    pub model: &'a EntityModel,
    /// The store.
    pub store: &'a StoreModel,
    tables: NameTables,
    ghost tabled: { AreTablesOf model.now store.now tables },
    ghost inherits: { InheritsProps model.now },
}

impl<'a> SchemaNames<'a> {
    /// The names in a sound model and a store. `Memory` comes where memory ran out.
    pub fn of(
        alloc: Global,
        model: &'a EntityModel,
        store: &'a StoreModel,
    ) -> Result<SchemaNames<'a>, Memory>
        requires { IsSoundModel model.now }
        ensures model { IfOk result (λ names. names.model.now ≡ model.now) }
        ensures store { IfOk result (λ names. names.store.now ≡ store.now) }
    {
        let tables = NameTables::of(alloc, model, store)?;
        Ok(SchemaNames {
            model,
            store,
            tables,
        })
    }

    /// The entity type that a reference names.
    pub fn type_named(&self, reference: &str) -> Option<usize>
        ensures { result ≡ type_named self.now.model.now reference.now }
    {
        self.tables
            .types
            .place_of(local_name(self.model, reference)?)
    }

    /// The entity set of a name.
    pub fn set_named(&self, name: &str) -> Option<usize>
        ensures { result ≡ set_named self.now.model.now name.now }
    {
        self.tables.sets.place_of(name)
    }

    /// The association set of a name.
    pub fn association_set_named(&self, name: &str) -> Option<usize>
        ensures { result ≡ association_set_named self.now.model.now name.now }
    {
        self.tables.association_sets.place_of(name)
    }

    /// Whether an association set is of the association that a reference names.
    pub fn names_association(&self, reference: &str) -> bool
        ensures { IsTrue result ↔ NamesAssociation self.now.model.now reference.now }
    {
        let Some(name) = local_name(self.model, reference) else {
            return false;
        };
        self.tables.associations.place_of(name).is_some()
    }

    /// Whether the association set at a place is of the association that a reference names.
    pub fn is_of_association(&self, place: usize, reference: &str) -> bool
        ensures { IsTrue result ↔ IsOfAssociation self.now.model.now place reference.now }
    {
        let Some(assoc) = self.model.assocs.get(place) else {
            return false;
        };
        local_name(self.model, reference).is_some_and(|name| name == assoc.assoc_name.as_str())
    }

    /// The end of the association set at a place that has a role.
    pub fn end_named(&self, place: usize, role: &str) -> Option<WhichEnd>
        ensures { result ≡ end_named self.now.model.now place role.now }
    {
        end_of_role(self.model.assocs.get(place)?, role)
    }

    /// The table of a name.
    pub fn table_named(&self, name: &str) -> Option<usize>
        ensures { result ≡ table_named self.now.store.now name.now }
    {
        self.tables.tables.place_of(name)
    }

    /// The column of a name in the table at a place.
    pub fn column_named(&self, table: usize, name: &str) -> Option<usize>
        ensures { result ≡ column_named self.now.store.now table name.now }
    {
        self.tables.columns.get(table)?.places.place_of(name)
    }

    /// The column of a name in the table at a place, as `column_named` tells it. It is looked for at the column of this number first, and at no
    /// other where it is there: names mostly come in the order of the columns.
    pub fn column_near(&self, table: usize, name: &str, near: usize) -> Option<usize>
        ensures { result ≡ column_named self.now.store.now table name.now }
    {
        if self.has_column_at(table, name, near) {
            return Some(near);
        }
        self.column_named(table, name)
    }

    // Whether the columns of a table are known to have different names, and the one at a place has this name.
    fn has_column_at(&self, table: usize, name: &str, place: usize) -> bool
        ensures { IsTrue result → (column_named self.now.store.now table name.now ≡ Some place) }
    {
        let (Some(known), Some(held)) = (
            self.tables.columns.get(table),
            self.store.tables.get(table),
        ) else {
            return false;
        };
        known.apart && is_column_at(held, name, place)
    }

    /// The property of a name that the type at a place has, its own or an inherited one.
    pub fn prop_named(&self, ty: usize, name: &str) -> Option<PropId>
        ensures { result ≡ prop_named self.now.model.now ty name.now }
    {
        let mut found = None;
        let mut next = Some(ty);
        while let Some(place) = next {
            found = self.own_prop(place, name).or(found);
            next = self.base(place);
        }
        found
    }

    /// The property of a name that the type at a place has, its own or an inherited one, as `prop_named` tells it. It is looked for at the type's
    /// property of this number first, and at no other where it is there: names mostly come in the order of the properties.
    pub fn prop_near(&self, ty: usize, name: &str, near: usize) -> Option<PropId>
        ensures { result ≡ prop_named self.now.model.now ty name.now }
    {
        match self.prop_at(ty, name, near) {
            Some(prop) => Some(prop),
            None => self.prop_named(ty, name),
        }
    }

    // The property of this number that the type at a place has, where it has this name.
    fn prop_at(&self, ty: usize, name: &str, number: usize) -> Option<PropId>
        ensures { IfSome result (λ prop. prop_named self.now.model.now ty name.now ≡ Some prop) }
    {
        let prop = self.model.types.get(ty)?.props.get(number)?;
        let declared = self.model.props.get(prop.index as usize)?;
        if name == declared.name.as_str() {
            return Some(*prop);
        }
        None
    }

    // The property of a name that the type at a place declares.
    fn own_prop(&self, ty: usize, name: &str) -> Option<PropId>
        ensures { result ≡ own_prop self.now.model.now ty name.now }
    {
        self.tables.own_props.get(ty)?.prop_of(name)
    }

    // The base type of the type at a place.
    fn base(&self, ty: usize) -> Option<usize>
        ensures { result ≡ base_place self.now.model.now ty }
    {
        let base = self.model.types.get(ty)?.base?;
        Some(base.index as usize)
    }
}

// Whether the column at a place has this name.
fn is_column_at(table: &Table, name: &str, place: usize) -> bool
    ensures { IsTrue result ↔ IsColumnAt table.now name.now place }
{
    table
        .cols
        .get(place)
        .is_some_and(|col| name == col.name.as_str())
}
