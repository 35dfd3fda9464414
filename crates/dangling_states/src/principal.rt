ghost use Rattle.std.specs.Prelude.{◌≡◌, ◌==◌, IfOk, find};
ghost use Rattle.std.specs.Option.{option_copied};
ghost use Rattle.cells.specs.Parts.{AreParts};
ghost use Rattle.region_states.specs.region_basis.BasisOf.{basis_of};
ghost use Rattle.region_states.specs.Entities.{focus_entity};
ghost use Rattle.dangling_keys.specs.DanglingStates.{held_value, principal_values, shown_value};
ghost use Rattle.dangling_keys.specs.FlowStates.{values_of_focus};
ghost use Rattle.dangling_search.specs.Lent.{settled_of};
ghost use Rattle.dangling_states.specs.Referring.{IsReferring};

use crate::referring::Referring;
use crate::values::focus_value;
use cells::Parts;
use dangling_search::{Shown, shown_at};
use edm_types::{Entity, Pair};
use emc_base::{Memory, PropId, Seq, Value};
use regions::Region;
use std::alloc::Global;
use witness_state::{default_value, is_among, key_props, props_of};

/// The entity of a region that has the key that is shown, by these pairs of the key with the columns: the usual values, but for its key. `Memory` comes where
/// memory ran out.
pub fn principal_entity(
    alloc: Global,
    parts: &Parts<'_>,
    referring: Referring<'_>,
    pairing: &[Pair],
    region: &Region,
) -> Result<Entity, Memory>
    requires parts { AreParts parts.now }
    requires referring { IsReferring (basis_of parts.now) referring }
    ensures { IfOk result (λ entity. entity
        ≡ focus_entity (basis_of parts.now) region.now (principal_values (basis_of parts.now) referring.entry.look.of.now referring.entry.key.now pairing.now region.now)) }
{
    let mut values = Seq::empty(alloc);
    for property in props_of(parts.model, region.ty) {
        values.push(principal_value(alloc, parts, referring, pairing, region, *property)?)?;
    }
    Ok(Entity {
        ty: region.ty,
        values,
    })
}

// Its value of a property.
fn principal_value(
    alloc: Global,
    parts: &Parts<'_>,
    referring: Referring<'_>,
    pairing: &[Pair],
    region: &Region,
    property: PropId,
) -> Result<Value, Memory>
    requires parts { AreParts parts.now }
    requires referring { IsReferring (basis_of parts.now) referring }
    ensures { IfOk result (λ value. value
        ≡ (principal_values (basis_of parts.now) referring.entry.look.of.now referring.entry.key.now pairing.now region.now).prop property) }
{
    if is_among(property, key_props(parts.model, region.ty)) {
        return shown_value(alloc, parts, referring, pairing, property);
    }
    default_value(alloc, parts, referring.row, region, property)
}

// The value that is shown for a property of the key; null where no pair names it.
fn shown_value(
    alloc: Global,
    parts: &Parts<'_>,
    referring: Referring<'_>,
    pairing: &[Pair],
    property: PropId,
) -> Result<Value, Memory>
    requires parts { AreParts parts.now }
    requires referring { IsReferring (basis_of parts.now) referring }
    ensures { IfOk result (λ value. value ≡ shown_value (basis_of parts.now) referring.entry.look.of.now referring.entry.key.now pairing.now property) }
{
    match pair_of(pairing, property) {
        Some(pair) => {
            let shown = shown_at(parts, referring.look, referring.key, pair.col);
            held_value(alloc, parts, referring, &shown)
        }
        None => Ok(Value::Null),
    }
}

// The first pair of a property.
fn pair_of(pairs: &[Pair], property: PropId) -> Option<&Pair>
    ensures { option_copied result ≡ find (λ pair. pair.prop.index == property.index) pairs.now }
{
    pairs.iter().find(|pair| pair.prop.index == property.index)
}

// The value that a cell holds.
fn held_value(
    alloc: Global,
    parts: &Parts<'_>,
    referring: Referring<'_>,
    shown: &Shown<'_>,
) -> Result<Value, Memory>
    requires parts { AreParts parts.now }
    requires referring { IsReferring (basis_of parts.now) referring }
    ensures { IfOk result (λ value. value
        ≡ held_value (values_of_focus (basis_of parts.now) referring.entry.row referring.entry.look.of.now referring.entry.not_null.now) (settled_of shown.now)) }
{
    match shown {
        Shown::Nothing => Ok(Value::Null),
        Shown::Known(value) => value.copy(alloc),
        Shown::Symbol { one, .. } => focus_value(
            alloc,
            parts,
            referring.row,
            referring.look.of,
            referring.not_null,
            one,
        ),
    }
}
