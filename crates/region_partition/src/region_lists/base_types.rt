ghost use Rattle.std.specs.Prelude.{◌≡◌};
ghost use Rattle.round_trip.specs.Words.{props_of};
ghost use Rattle.schema_laws.specs.sound_demand.Deriving.{base_of, derives};

use edm_types::EntityModel;
use emc_base::{PropId, TypeId};

/// Whether a type is another or derived from it. The time is linear in the number of types above the first.
pub fn derives(model: &EntityModel, t: TypeId, u: TypeId) -> bool
    ensures { result ≡ derives model.now t u }
{
    let mut at = t;
    for _ in 0..model.types.len() {
        if at.index == u.index {
            return true;
        }
        let Some(base) = base_of(model, at) else {
            return false;
        };
        at = base;
    }
    at.index == u.index
}

// The base type of a type.
fn base_of(model: &EntityModel, t: TypeId) -> Option<TypeId>
    ensures { result ≡ base_of model.now t }
{
    match model.types.get(t.index as usize) {
        Some(declared) => declared.base,
        None => None,
    }
}

/// The properties of a type, inherited ones included.
pub fn props_of(model: &EntityModel, t: TypeId) -> &[PropId]
    ensures { result.now ≡ props_of model.now t }
{
    match model.types.get(t.index as usize) {
        Some(declared) => declared.props.as_slice(),
        None => &[],
    }
}
