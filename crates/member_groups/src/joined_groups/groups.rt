ghost use Rattle.std.specs.Prelude.{◌≡◌, IfOk};
ghost use Rattle.round_trip.specs.soundness.mappings.Joined.{prop, col};
ghost use Rattle.member_groups.specs.joined_groups.Groups.{TellsGroups, group_of};

use crate::joined_groups::links::links_of;
use crate::joined_groups::places::Places;
use edm_types::{EntityModel, Fragment, StoreModel};
use emc_base::{ColId, Memory, PropId, TableId};
use groupings::Classes;
use std::alloc::Global;

/// The groups of joined properties and columns. Each group has a number, and no two have the same.
#[derive(Drop)]
pub struct Groups {
    places: Places,
    // The places of joined properties and columns are in one class.
    classes: Classes,
}

impl Groups {
    /// The groups by what these fragments write. The time grows a little faster than the number of properties, columns and
    /// pairs. `Memory` comes where memory ran out.
    pub fn of(
        alloc: Global,
        model: &EntityModel,
        store: &StoreModel,
        fragments: &[Fragment],
    ) -> Result<Groups, Memory>
        ensures { IfOk result (TellsGroups model.now store.now fragments.now) }
    {
        let places = Places::of(alloc, model, store)?;
        let links = links_of(alloc, &places, fragments)?;
        let classes = Classes::of(alloc, places.count, links.as_slice())?;
        Ok(Groups { places, classes })
    }

    /// The group of a property. `None` exactly for a part of its type's key, and where there is no such property.
    pub fn of_prop(&self, property: PropId) -> Option<usize>
        ensures { result ≡ group_of self.now (prop property) }
    {
        self.classes.number_of(self.places.of_prop(property)?)
    }

    /// The group of a column. `None` exactly for a part of its table's primary key, and where there is no such column.
    pub fn of_column(&self, table: TableId, column: ColId) -> Option<usize>
        ensures { result ≡ group_of self.now (col table column) }
    {
        self.classes
            .number_of(self.places.of_column(table, column)?)
    }
}
