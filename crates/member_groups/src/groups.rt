ghost use Rattle.std.specs.Prelude.{◌≡◌, IfOk, Ok};
ghost use Rattle.std.specs.Option.{option_copied};
ghost use Rattle.round_trip.specs.soundness.mappings.Joined.{prop, col};
ghost use Rattle.round_trip.specs.Between.{schema_of};
ghost use Rattle.member_groups.specs.MemberGroups.{TellsMemberGroups, constants_in, group_in, is_tested_in};
ghost use Rattle.member_groups.specs.OfNumbered.{AreOfNumbered};

use crate::group_constants::constants_of;
use crate::group_numbers::{Numbered, Numbers};
use crate::mapping_asks::{Ask, asks_of};
use crate::tested::tested_groups;
use edm_types::{EntityModel, Mapping, StoreModel};
use emc_base::{ColId, GroupId, Memory, PropId, Seq, TableId, Value};
use std::alloc::Global;
use std::collections::BTreeSet;

/// The groups of a mapping: for each property and column the group, for each group its constants and whether it is tested.
#[derive(Drop)]
pub struct MemberGroups {
    numbers: Numbers,
    tested: BTreeSet<u32>,
    // The constants of each group.
    constants: Seq<Seq<Value>>,
}

impl MemberGroups {
    /// Those of a mapping between a model and a store. `Memory` comes where memory ran out or there are more groups than a `u32`
    /// counts.
    pub fn of(
        alloc: Global,
        model: &EntityModel,
        store: &StoreModel,
        mapping: &Mapping,
    ) -> Result<MemberGroups, Memory>
        ensures { IfOk result (TellsMemberGroups (schema_of model.now store.now mapping.now)) }
    {
        let asks = asks_of(alloc, mapping)?;
        let numbered = Numbered::of(alloc, model, store, mapping.fragments.as_slice())?;
        let told = told_by(alloc, model, mapping, &numbered, &asks);
        put_together(numbered, told)
    }

    /// The group of a property. `None` exactly where there is no such property.
    pub fn of_prop(&self, property: PropId) -> Option<GroupId>
        ensures { result ≡ group_in self.now (prop property) }
    {
        self.numbers.of_prop(property)
    }

    /// The group of a column. `None` exactly where there is no such column.
    pub fn of_column(&self, table: TableId, column: ColId) -> Option<GroupId>
        ensures { result ≡ group_in self.now (col table column) }
    {
        self.numbers.of_column(table, column)
    }

    /// The constants of a group, in rising order. `None` exactly where there is no such group.
    pub fn constants(&self, group: GroupId) -> Option<&Seq<Value>>
        ensures { option_copied result ≡ constants_in self.now group }
    {
        self.constants.get(group.index as usize)
    }

    /// Whether a group is tested.
    pub fn is_tested(&self, group: GroupId) -> bool
        ensures { result ≡ is_tested_in self.now group }
    {
        self.tested.contains(&group.index)
    }
}

// What is tested of the groups of these numbers, and their constants.
fn told_by(
    alloc: Global,
    model: &EntityModel,
    mapping: &Mapping,
    numbered: &Numbered,
    asks: &[Ask],
) -> Result<(BTreeSet<u32>, Seq<Seq<Value>>), Memory>
    ensures { IfOk result (λ told. AreOfNumbered model.now mapping.now numbered.now asks.now (record { numbers = numbered.now.numbers; tested = told.0; constants = told.1 })) }
{
    let tested = tested_groups(alloc, model, mapping, numbered, asks)?;
    let constants = constants_of(alloc, model, numbered, asks, &tested)?;
    Ok((tested, constants))
}

// The groups of these numbers, of which this is told.
fn put_together(
    numbered: Numbered,
    told: Result<(BTreeSet<u32>, Seq<Seq<Value>>), Memory>,
) -> Result<MemberGroups, Memory>
    ensures { IfOk result (λ groups. (groups.numbers ≡ numbered.numbers) × (told ≡ Ok (groups.tested, groups.constants))) }
{
    let (tested, constants) = told?;
    Ok(MemberGroups {
        numbers: numbered.numbers,
        tested,
        constants,
    })
}
