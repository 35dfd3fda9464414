ghost use Rattle.std.specs.Prelude.{◌≡◌, ◌≤◌, [], IfOk};
ghost use Rattle.cells.specs.Parts.{AreParts};
ghost use Rattle.round_trip.specs.Words.{key_props, value_beside};
ghost use Rattle.region_states.specs.region_basis.BasisOf.{basis_of};
ghost use Rattle.region_states.specs.Entities.{focus_entity};
ghost use Rattle.regions.specs.declared.pattern.Focus.TheVariants as focus;
ghost use Rattle.regions.specs.Patterns.{value_under};
ghost use Rattle.dangling_keys.specs.FlowStates.{flow_values, values_of_focus};

use cells::Parts;
use edm_types::{Entity, EntityModel};
use emc_base::{AssocId, Key, Memory, PropId, Seq, TypeId, Value};
use regions::{Focus, Region, Symbol};
use std::alloc::Global;
use witness_state::{
    default_part, default_value, is_among, key_props, plain_link, props_of, some_value,
    value_beside,
};

/// The entity of a region with the usual values of a row of numbers, but that none of the given properties is null. `Memory` comes where memory ran out.
pub fn flow_entity(
    alloc: Global,
    parts: &Parts<'_>,
    row: u32,
    region: &Region,
    not_null: &[PropId],
) -> Result<Entity, Memory>
    requires parts { AreParts parts.now }
    requires row { row ≤ 4 }
    ensures { IfOk result (λ entity. entity ≡ focus_entity (basis_of parts.now) region.now (flow_values (basis_of parts.now) row region.now not_null.now)) }
{
    let mut values = Seq::empty(alloc);
    for property in props_of(parts.model, region.ty) {
        values.push(flow_value(alloc, parts, row, region, not_null, *property)?)?;
    }
    Ok(Entity {
        ty: region.ty,
        values,
    })
}

// Its value of a property.
fn flow_value(
    alloc: Global,
    parts: &Parts<'_>,
    row: u32,
    region: &Region,
    not_null: &[PropId],
    property: PropId,
) -> Result<Value, Memory>
    requires parts { AreParts parts.now }
    requires row { row ≤ 4 }
    ensures { IfOk result (λ value. value ≡ (flow_values (basis_of parts.now) row region.now not_null.now).prop property) }
{
    if is_among(property, not_null) {
        if let Some(declared) = parts.model.props.get(property.index as usize) {
            return some_value(alloc, parts, row, region.ty, property, declared);
        }
    }
    default_value(alloc, parts, row, region, property)
}

/// The value of a symbol of a focus, in the state that holds it by a row of numbers. `Memory` comes where memory ran out.
pub fn focus_value(
    alloc: Global,
    parts: &Parts<'_>,
    row: u32,
    of: &Focus,
    not_null: &[PropId],
    symbol: &Symbol,
) -> Result<Value, Memory>
    requires parts { AreParts parts.now }
    requires row { row ≤ 4 }
    ensures { IfOk result (λ value. value ≡ value_under (values_of_focus (basis_of parts.now) row of.now not_null.now) symbol.now) }
{
    match of {
        Focus::Entity(region) => entity_value(alloc, parts, row, region, not_null, symbol),
        Focus::Link(assoc) => link_value(alloc, parts, row, *assoc, symbol),
    }
}

// That of a symbol of an entity.
fn entity_value(
    alloc: Global,
    parts: &Parts<'_>,
    row: u32,
    region: &Region,
    not_null: &[PropId],
    symbol: &Symbol,
) -> Result<Value, Memory>
    requires parts { AreParts parts.now }
    requires row { row ≤ 4 }
    ensures { IfOk result (λ value. value ≡ value_under (flow_values (basis_of parts.now) row region.now not_null.now) symbol.now) }
{
    match symbol {
        Symbol::Null => Ok(Value::Null),
        Symbol::Const(value) => value.copy(alloc),
        Symbol::Prop(property) => flow_value(alloc, parts, row, region, not_null, *property),
        Symbol::End { assoc, first, prop } => default_part(
            alloc, parts, row, *assoc, *first, *prop,
        ),
    }
}

// That of a symbol of a link.
fn link_value(
    alloc: Global,
    parts: &Parts<'_>,
    row: u32,
    assoc: AssocId,
    symbol: &Symbol,
) -> Result<Value, Memory>
    requires { row ≤ 4 }
    ensures { IfOk result (λ value. value ≡ value_under (values_of_focus (basis_of parts.now) row (focus.Link assoc) []) symbol.now) }
{
    match symbol {
        Symbol::Null | Symbol::Prop(_) => Ok(Value::Null),
        Symbol::Const(value) => value.copy(alloc),
        Symbol::End { first, prop, .. } => end_value(alloc, parts, row, assoc, *first, *prop),
    }
}

// A part of the key at an end of the link.
fn end_value(
    alloc: Global,
    parts: &Parts<'_>,
    row: u32,
    assoc: AssocId,
    first: bool,
    property: PropId,
) -> Result<Value, Memory>
    requires { row ≤ 4 }
    ensures { IfOk result (λ value. value ≡ (values_of_focus (basis_of parts.now) row (focus.Link assoc) []).part assoc first property) }
{
    let Some(declared) = parts.model.assocs.get(assoc.index as usize) else {
        return Ok(Value::Null);
    };
    let link = plain_link(alloc, parts.model, row, declared)?;
    if first {
        part_of(alloc, parts.model, declared.first.ty, property, &link.first)
    } else {
        part_of(
            alloc,
            parts.model,
            declared.second.ty,
            property,
            &link.second,
        )
    }
}

// A part of a key of a type.
fn part_of(
    alloc: Global,
    model: &EntityModel,
    ty: TypeId,
    property: PropId,
    key: &Key,
) -> Result<Value, Memory>
    ensures { IfOk result (λ value. value ≡ value_beside property (key_props model.now ty) key.now) }
{
    value_beside(alloc, property, key_props(model, ty), key.as_slice())
}
