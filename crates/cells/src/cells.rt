ghost use Rattle.std.specs.Prelude.{◌≡◌, ◌<◌, IfOk, IsSome, Some, length};
ghost use Rattle.round_trip.specs.soundness.mappings.Joined.{prop, col};
ghost use Rattle.round_trip.specs.soundness.mappings.Mappings.{IsSoundSchema};
ghost use Rattle.round_trip.specs.Between.{schema_of};
ghost use Rattle.emc_base.specs.Lists.{At};
ghost use Rattle.member_groups.specs.MemberGroups.{constants_in, group_in, is_tested_in};
ghost use Rattle.cells.specs.Cells.{TellsCells, is_free_in};

use edm_types::{EntityModel, Mapping, StoreModel};
use emc_base::{AssocId, ColId, GroupId, Memory, PropId, Seq, TableId, Value};
use member_groups::MemberGroups;
use std::alloc::Global;
use table_owners::{LinkPlace, Owner, free_columns_of, owners_of, pairings_of, places_of};

/// What a mapping between a model and a store says of tables, columns and properties.
#[derive(Drop)]
pub struct Cells {
    owners: Seq<Option<Owner>>,
    pairings: Seq<Seq<PropId>>,
    places: Seq<LinkPlace>,
    free: Seq<Seq<bool>>,
    groups: MemberGroups,
}

impl Cells {
    /// The cells of a mapping. `Memory` comes where memory ran out.
    pub fn of(
        alloc: Global,
        model: &EntityModel,
        store: &StoreModel,
        mapping: &Mapping,
    ) -> Result<Cells, Memory>
        requires { IsSoundSchema (schema_of model.now store.now mapping.now) }
        ensures { IfOk result (TellsCells (schema_of model.now store.now mapping.now)) }
    {
        Ok(Cells {
            owners: owners_of(alloc, model, store, mapping)?,
            pairings: pairings_of(alloc, store, mapping)?,
            places: places_of(alloc, model, store, mapping)?,
            free: free_columns_of(alloc, store, mapping)?,
            groups: MemberGroups::of(alloc, model, store, mapping)?,
        })
    }

    /// Whom a table belongs to; `None` exactly where nothing writes it.
    pub fn owner(&self, table: TableId) -> Option<Owner>
        requires { table.index < length self.now.owners }
        ensures { At self.now.owners table.index result }
    {
        self.owners.as_slice()[table.index as usize]
    }

    /// The key properties that are written to a table's primary key, in the order of this key; none where no set owns the table.
    pub fn pairing(&self, table: TableId) -> &Seq<PropId>
        requires { table.index < length self.now.pairings }
        ensures { At self.now.pairings table.index result.now }
    {
        &self.pairings.as_slice()[table.index as usize]
    }

    /// Where the links of an association set stand.
    pub fn link_place(&self, assoc: AssocId) -> LinkPlace
        requires { assoc.index < length self.now.places }
        ensures { At self.now.places assoc.index result }
    {
        self.places.as_slice()[assoc.index as usize]
    }

    /// The group of a property. A part of a key is alone in its group.
    pub fn group_of_prop(&self, property: PropId) -> GroupId
        requires { IsSome (group_in self.now.groups (prop property)) }
        ensures { group_in self.now.groups (prop property) ≡ Some result }
    {
        match self.groups.of_prop(property) {
            Some(group) => group,
            None => unreachable!(),
        }
    }

    /// The group of a column. A part of a primary key is alone in its group.
    pub fn group_of_col(&self, table: TableId, column: ColId) -> GroupId
        requires { IsSome (group_in self.now.groups (col table column)) }
        ensures { group_in self.now.groups (col table column) ≡ Some result }
    {
        match self.groups.of_column(table, column) {
            Some(group) => group,
            None => unreachable!(),
        }
    }

    /// The constants of a group, in their order, each once.
    pub fn constants(&self, group: GroupId) -> &Seq<Value>
        requires { IsSome (constants_in self.now.groups group) }
        ensures { constants_in self.now.groups group ≡ Some result.now }
    {
        match self.groups.constants(group) {
            Some(constants) => constants,
            None => unreachable!(),
        }
    }

    /// Whether a group is tested: its properties have atoms.
    pub fn tested(&self, group: GroupId) -> bool
        ensures { result ≡ is_tested_in self.now.groups group }
    {
        self.groups.is_tested(group)
    }

    /// Whether a column is free: its table is written, and no fragment names it.
    pub fn is_free(&self, table: TableId, column: ColId) -> bool
        ensures { result ≡ is_free_in self.now table column }
    {
        match self.free.get(table.index as usize) {
            Some(columns) => columns.get(column.index as usize).copied().unwrap_or(false),
            None => false,
        }
    }
}
