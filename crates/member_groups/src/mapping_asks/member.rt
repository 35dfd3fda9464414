ghost use Rattle.std.specs.Prelude.{◌≡◌};
ghost use Rattle.round_trip.specs.soundness.mappings.Joined.{member_of};
ghost use Rattle.member_groups.specs.mapping_asks.Asks.{id_of};

use edm_types::CondOn;
use emc_base::{ColId, PropId, TableId};

/// A property, or a column of a table.
#[derive(Clone, Copy, PartialEq, Eq)]
pub enum MemberId {
    /// A property.
    Prop(PropId),
    /// A column of this table.
    Column(TableId, ColId),
}

/// What a condition of a fragment to this table is on.
pub fn asked_by(table: TableId, on: CondOn) -> MemberId
    ensures { result ≡ id_of (member_of table on) }
{
    match on {
        CondOn::Prop(property) => MemberId::Prop(property),
        CondOn::Col(column) => MemberId::Column(table, column),
    }
}
