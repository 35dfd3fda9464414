ghost use Rattle.std.specs.Prelude.{◌≡◌};
ghost use Rattle.round_trip.specs.soundness.mappings.Joined.{prop, col};
ghost use Rattle.member_groups.specs.joined_groups.Labels.{label_of};

use crate::joined_groups::groups::Groups;
use emc_base::{ColId, PropId, TableId};

/// What a property or a column is known by: its group, or where it has none, its own numbers. Joined ones are known by the
/// same.
#[derive(Clone, Copy, PartialEq, Eq, PartialOrd, Ord, Hash)]
pub enum Label {
    /// A group of joined properties and columns.
    Group(usize),
    /// A property that is in no group.
    Prop(u32),
    /// A column of a table that is in no group.
    Column(u32, u32),
}

/// What a property is known by.
pub fn prop_label(groups: &Groups, property: PropId) -> Label
    ensures { result ≡ label_of groups.now (prop property) }
{
    match groups.of_prop(property) {
        Some(group) => Label::Group(group),
        None => Label::Prop(property.index),
    }
}

/// What a column of a table is known by.
pub fn column_label(groups: &Groups, table: TableId, column: ColId) -> Label
    ensures { result ≡ label_of groups.now (col table column) }
{
    match groups.of_column(table, column) {
        Some(group) => Label::Group(group),
        None => Label::Column(table.index, column.index),
    }
}
