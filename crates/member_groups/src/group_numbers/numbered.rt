ghost use Rattle.std.specs.Prelude.{◌≡◌, IfOk};
ghost use Rattle.member_groups.specs.mapping_asks.Asks.{member_at};
ghost use Rattle.member_groups.specs.group_numbers.Joint.{joint_in};
ghost use Rattle.member_groups.specs.OfNumbered.{TellsNumbered};

use crate::group_numbers::numbers::Numbers;
use crate::joined_groups::Groups;
use crate::mapping_asks::MemberId;
use edm_types::{EntityModel, Fragment, StoreModel};
use emc_base::{GroupId, Memory};
use std::alloc::Global;

/// The groups of joined properties and columns, with the numbers of all groups.
#[derive(Drop)]
pub struct Numbered {
    pub groups: Groups,
    pub numbers: Numbers,
}

impl Numbered {
    /// Those of fragments between a model and a store. `Memory` comes where memory ran out or there are more groups than a `u32`
    /// counts.
    pub fn of(
        alloc: Global,
        model: &EntityModel,
        store: &StoreModel,
        fragments: &[Fragment],
    ) -> Result<Numbered, Memory>
        ensures { IfOk result (TellsNumbered model.now store.now fragments.now) }
    {
        let groups = Groups::of(alloc, model, store, fragments)?;
        let numbers = Numbers::of(alloc, &groups, model, store)?;
        Ok(Numbered { groups, numbers })
    }

    /// The number of the group of what is no part of a key. `None` for a part of a key, and where there is no such property or
    /// column.
    pub fn joint(&self, member: MemberId) -> Option<GroupId>
        ensures { result ≡ joint_in self.now (member_at member) }
    {
        match member {
            MemberId::Prop(property) => {
                self.groups.of_prop(property)?;
                self.numbers.of_prop(property)
            }
            MemberId::Column(table, column) => {
                self.groups.of_column(table, column)?;
                self.numbers.of_column(table, column)
            }
        }
    }
}
