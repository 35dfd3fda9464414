ghost use Rattle.std.specs.Prelude.{◌≡◌, ◌&&◌, IfOk, not};
ghost use Rattle.round_trip.specs.Words.{key_props};
ghost use Rattle.cells.specs.Parts.{AreParts};
ghost use Rattle.regions.specs.declared.pattern.Symbol.TheVariants as symbol;
ghost use Rattle.regions.specs.Settled.{possible};
ghost use Rattle.region_states.specs.defaults.Defaults.{changed, default_valuation};
ghost use Rattle.region_states.specs.conflicts.SameFacts.{is_multi, is_one_of, lists_anywhere};
ghost use Rattle.region_states.specs.region_basis.BasisOf.{basis_of};
ghost use Rattle.region_states.specs.Entities.{focus_entity};
ghost use Rattle.conflict_laws.specs.rival.RivalValues.{rival_value};
ghost use Rattle.witness_state.specs.region_values.Rivals.{IsRival};

use crate::region_values::declared::{is_among, key_props, props_of};
use crate::region_values::facing::{faces_null, lists_anywhere};
use crate::region_values::shared::shared_value;
use crate::region_values::symbols::has_several;
use crate::region_values::usual::default_value;
use cells::Parts;
use edm_types::Entity;
use emc_base::{Memory, PropId, Seq, Value};
use regions::{Pattern, Region};
use std::alloc::Global;

/// One of two regions with its pattern, beside the other.
#[derive(Drop)]
pub struct Rival<'r> {
    /// The first of the two.
    pub first: &'r Region,
    /// The second.
    pub second: &'r Region,
    /// Which of them this is.
    pub region: &'r Region,
    /// Its pattern.
    pub pattern: &'r Pattern,
    /// The other one.
    pub other: &'r Region,
    /// The other one's pattern.
    pub facing: &'r Pattern,
}

/// The entity of the region, with values by which it is written as one of the other region is. `Memory` comes where memory ran out.
pub fn rival_entity(alloc: Global, parts: &Parts<'_>, rival: &Rival<'_>) -> Result<Entity, Memory>
    requires parts { AreParts parts.now }
    requires rival { IsRival (basis_of parts.now) rival.now }
    ensures { IfOk result (λ entity. entity ≡ focus_entity (basis_of parts.now) rival.now.region.now (changed (default_valuation (basis_of parts.now) 0 rival.now.region.now)
        (rival_value (basis_of parts.now) rival.now.first.now rival.now.second.now rival.now.region.now rival.now.other.now))) }
{
    let mut values = Seq::empty(alloc);
    for property in props_of(parts.model, rival.region.ty) {
        values.push(value_of(alloc, parts, rival, *property)?)?;
    }
    Ok(Entity {
        ty: rival.region.ty,
        values,
    })
}

// The entity's value of a property.
fn value_of(
    alloc: Global,
    parts: &Parts<'_>,
    rival: &Rival<'_>,
    property: PropId,
) -> Result<Value, Memory>
    requires parts { AreParts parts.now }
    requires rival { IsRival (basis_of parts.now) rival.now }
    ensures { IfOk result (λ value. value ≡ (changed (default_valuation (basis_of parts.now) 0 rival.now.region.now)
        (rival_value (basis_of parts.now) rival.now.first.now rival.now.second.now rival.now.region.now rival.now.other.now)).prop property) }
{
    match rival_value(alloc, parts, rival, property)? {
        Some(value) => Ok(value),
        None => default_value(alloc, parts, 0, rival.region, property),
    }
}

// The value of a property, if this is no part of the key, may have several and is listed in the region's pattern: null where it faces
// null, else the shared one.
fn rival_value(
    alloc: Global,
    parts: &Parts<'_>,
    rival: &Rival<'_>,
    property: PropId,
) -> Result<Option<Value>, Memory>
    requires parts { AreParts parts.now }
    requires rival { IsRival (basis_of parts.now) rival.now }
    ensures { IfOk result (λ value. value ≡ rival_value (basis_of parts.now) rival.now.first.now rival.now.second.now rival.now.region.now rival.now.other.now property) }
{
    if !is_open(parts, rival, property) {
        return Ok(None);
    }
    if faces_null(rival, property) {
        return Ok(Some(Value::Null));
    }
    match parts.model.props.get(property.index as usize) {
        Some(declared) => Ok(Some(shared_value(alloc, parts, rival, property, declared)?)),
        None => Ok(None),
    }
}

// Whether a property is no part of the key, may have several values and is listed in the region's pattern.
fn is_open(parts: &Parts<'_>, rival: &Rival<'_>, property: PropId) -> bool
    ensures { result ≡ (not (is_one_of property (key_props parts.now.model.now rival.now.region.now.ty))
        && is_multi (possible parts.now.model.now rival.now.region.now.atoms (symbol.Prop property)) && lists_anywhere rival.now.pattern.now (symbol.Prop property)) }
{
    !is_among(property, key_props(parts.model, rival.region.ty))
        && has_several(rival.region.atoms.as_slice(), property)
        && lists_anywhere(rival.pattern, property)
}
