ghost use Rattle.std.specs.Prelude.{◌≡◌, ◌↔◌, IsTrue, option_map};
ghost use Rattle.round_trip.specs.soundness.Kinds.{Corresponds, IsEnum, IsNoSmaller, under_kind};
ghost use Rattle.round_trip.specs.soundness.Lookups.{column_kind, prop_kind};
ghost use Rattle.msl_rules.specs.Found.{table_numbered};

use edm_types::{EntityModel, StoreModel};
use emc_base::{ColId, Kind, PropId, Under};

/// The kind of a property; `None` where the model has none at this id.
pub(super) fn prop_kind(model: &EntityModel, prop: PropId) -> Option<&Kind>
    ensures { option_map (λ kind. kind.now) result ≡ prop_kind model.now prop }
{
    let declared = model.props.get(prop.index as usize)?;
    Some(&declared.kind)
}

/// The kind of a column of the table at a place; `None` where the store has none there.
pub(super) fn column_kind(store: &StoreModel, table: usize, col: ColId) -> Option<&Kind>
    ensures { option_map (λ kind. kind.now) result ≡ column_kind store.now (table_numbered table) col }
{
    let columns = &store.tables.get(table)?.cols;
    let column = columns.get(col.index as usize)?;
    Some(&column.kind)
}

/// Whether it is the kind of an enumeration.
pub(super) fn is_enum(kind: &Kind) -> bool
    ensures { IsTrue result ↔ IsEnum kind.now }
{
    matches!(kind, Kind::Enum(_))
}

/// Whether a column of the second kind holds what a property of the first does.
pub(super) fn corresponds(property: &Kind, column: &Kind) -> bool
    ensures { IsTrue result ↔ Corresponds property.now column.now }
{
    match (property, column) {
        (Kind::Byte, Kind::Byte)
        | (Kind::Int16, Kind::Int16)
        | (Kind::Int32, Kind::Int32)
        | (Kind::Int64, Kind::Int64)
        | (Kind::Boolean, Kind::Boolean) => true,
        (Kind::Text(bound), Kind::Text(most)) => is_no_smaller(*bound, *most),
        (Kind::Binary(bound), Kind::Binary(most)) => is_no_smaller(*bound, *most),
        (Kind::Enum(numbers), column) => is_under(numbers.under, column),
        _ => false,
    }
}

// Whether the second bound is no smaller than the first, no bound being the largest.
fn is_no_smaller(bound: Option<u32>, most: Option<u32>) -> bool
    ensures { IsTrue result ↔ IsNoSmaller bound most }
{
    match (bound, most) {
        (_, None) => true,
        (None, Some(_)) => false,
        (Some(bound), Some(most)) => bound <= most,
    }
}

// Whether a kind is that of an enumeration's numbers.
fn is_under(under: Under, kind: &Kind) -> bool
    ensures { IsTrue result ↔ (kind.now ≡ under_kind under) }
{
    matches!(
        (under, kind),
        (Under::Byte, Kind::Byte)
            | (Under::Int16, Kind::Int16)
            | (Under::Int32, Kind::Int32)
            | (Under::Int64, Kind::Int64)
    )
}
