ghost use Rattle.std.specs.Prelude.{◌≡◌, ◌≤◌, ◌<◌, ◌↔◌, All, IsTrue, length};
ghost use Rattle.cells.specs.Cells.{TellsCells};
ghost use Rattle.cells.specs.Limits.{HasFewConstants, HasSmallGroups, IsSmallModel, IsWithinLimits, most_assocs, most_props};
ghost use Rattle.cells.specs.Parts.{schema_in};
ghost use Rattle.round_trip.specs.soundness.mappings.Joined.{prop};

use crate::parts::Parts;
use edm_types::{EntityModel, EntityType};
use emc_base::PropId;

/// The most association sets of a model.
pub const MOST_ASSOCS: usize = 256;

/// The most properties of a type, those of its base types included.
pub const MOST_PROPS: usize = 256;

/// The most constants of a group that holds a property.
pub const MOST_CONSTANTS: usize = 64;

/// Whether none of these limits is passed. The cells are those of the model, the store and the mapping.
pub fn is_within_limits(parts: &Parts<'_>) -> bool
    requires { TellsCells (schema_in parts.now) parts.now.cells.now }
    ensures { IsTrue result ↔ IsWithinLimits (schema_in parts.now) }
{
    keep_limits(parts)
}

// The same, first of the model and then of groups.
fn keep_limits(parts: &Parts<'_>) -> bool
    requires { TellsCells (schema_in parts.now) parts.now.cells.now }
    ensures { IsTrue result ↔ (IsSmallModel parts.now.model.now × HasSmallGroups (schema_in parts.now)) }
{
    is_small_model(parts.model) && have_few_constants(parts)
}

// Whether there aren't too many association sets, and no type has too many properties.
fn is_small_model(model: &EntityModel) -> bool
    ensures { IsTrue result ↔ IsSmallModel model.now }
{
    has_few_assocs(model) && have_few_props(model.types.as_slice())
}

// Whether there aren't too many association sets.
fn has_few_assocs(model: &EntityModel) -> bool
    ensures { IsTrue result ↔ (length model.now.assocs ≤ most_assocs) }
{
    model.assocs.len() <= MOST_ASSOCS
}

// Whether no type has too many properties.
fn have_few_props(types: &[EntityType]) -> bool
    ensures { IsTrue result ↔ All (λ type. length type.props ≤ most_props) types.now }
{
    types.iter().all(|ty| ty.props.len() <= MOST_PROPS)
}

// Whether no group of a property has too many constants.
fn have_few_constants(parts: &Parts<'_>) -> bool
    requires { TellsCells (schema_in parts.now) parts.now.cells.now }
    ensures { IsTrue result ↔ HasSmallGroups (schema_in parts.now) }
{
    for place in 0..parts.model.props.len() {
        let property = PropId {
            index: place as u32,
        };
        if !has_few_constants(parts, property) {
            return false;
        }
    }
    true
}

// Whether the group of a property hasn't too many constants.
fn has_few_constants(parts: &Parts<'_>, property: PropId) -> bool
    requires told { TellsCells (schema_in parts.now) parts.now.cells.now }
    requires within { property.index < length parts.now.model.now.props }
    ensures { IsTrue result ↔ HasFewConstants (schema_in parts.now) (prop property) }
{
    let group = parts.cells.group_of_prop(property);
    parts.cells.constants(group).len() <= MOST_CONSTANTS
}
