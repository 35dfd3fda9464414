ghost use Rattle.std.specs.Prelude.{◌≡◌, ◌≤◌, IfOk, slice_get};
ghost use Rattle.std.specs.Option.{option_copied, option_map_or};
ghost use Rattle.cells.specs.Parts.{AreParts};
ghost use Rattle.regions.specs.Atoms.{atom_at};
ghost use Rattle.round_trip.specs.Words.{Null};
ghost use Rattle.round_trip.specs.soundness.mappings.Joined.{prop};
ghost use Rattle.region_states.specs.defaults.Candidates.{first_free};
ghost use Rattle.region_states.specs.defaults.Defaults.{declared_value, default_part, default_value, one_value, other_value, some_value, value_by};
ghost use Rattle.region_states.specs.region_basis.BasisOf.{basis_of};

use crate::region_values::declared::{
    constants_of, end_at, is_among, is_dependent, key_props, place_in, props_of,
};
use crate::region_values::free::{first_free, next_free};
use crate::region_values::indices::{DEPENDENT, LOST, PARTNER_KEY, PARTNER_PARTS};
use cells::Parts;
use condition_logic::{Atom, AtomOf};
use edm_types::Prop;
use emc_base::{AssocId, Memory, PropId, TypeId, Value};
use regions::Region;
use std::alloc::Global;
use supported_states::{fresh, fresh_at};

/// The usual value of a property in entities of a region, by one of the five rows of numbered values; null where there is no such property.
/// `Memory` comes where memory ran out.
pub fn default_value(
    alloc: Global,
    parts: &Parts<'_>,
    row: u32,
    region: &Region,
    property: PropId,
) -> Result<Value, Memory>
    requires parts { AreParts parts.now }
    requires row { row ≤ 4 }
    ensures { IfOk result (λ value. value ≡ default_value (basis_of parts.now) row region.now property) }
{
    match parts.model.props.get(property.index as usize) {
        Some(declared) => declared_value(alloc, parts, row, region, property, declared),
        None => Ok(Value::Null),
    }
}

// The same by its declaration: of a part of the key by its place there, else as its atom tells.
fn declared_value(
    alloc: Global,
    parts: &Parts<'_>,
    row: u32,
    region: &Region,
    property: PropId,
    declared: &Prop,
) -> Result<Value, Memory>
    requires parts { AreParts parts.now }
    requires row { row ≤ 4 }
    ensures { IfOk result (λ value. value ≡ declared_value (basis_of parts.now) row region.now property declared.now) }
{
    let key = key_props(parts.model, region.ty);
    if is_among(property, key) {
        return fresh(alloc, &declared.kind, row, place_in(property, key) as u64);
    }
    let told = told_atom(region.atoms.as_slice(), property);
    value_by(alloc, parts, row, region.ty, property, declared, told)
}

/// The atom that is told of a property.
pub fn told_atom(atoms: &[AtomOf], property: PropId) -> Option<&Atom>
    ensures { option_copied result ≡ atom_at atoms.now property }
{
    match symbolic_rows::atom_at(atoms, property) {
        Some(told) => Some(&told.atom),
        None => None,
    }
}

// The value that the atom tells; where none is told, null if it may be.
fn value_by(
    alloc: Global,
    parts: &Parts<'_>,
    row: u32,
    ty: TypeId,
    property: PropId,
    declared: &Prop,
    told: Option<&Atom>,
) -> Result<Value, Memory>
    requires parts { AreParts parts.now }
    requires row { row ≤ 4 }
    ensures { IfOk result (λ value. value ≡ value_by (basis_of parts.now) row ty property declared.now (option_copied told.entry)) }
{
    match told {
        Some(Atom::Null) => Ok(Value::Null),
        Some(Atom::Is(one)) => one.copy(alloc),
        Some(Atom::Other) => some_value(alloc, parts, row, ty, property, declared),
        None if declared.nullable => Ok(Value::Null),
        None => some_value(alloc, parts, row, ty, property, declared),
    }
}

/// A value of a property in entities of a type that isn't null and no constant: of a dependent property the one by its place in the type, of
/// one of the five rows of numbered values, else the first free one, whatever the row. `Memory` comes where memory ran out.
pub fn some_value(
    alloc: Global,
    parts: &Parts<'_>,
    row: u32,
    ty: TypeId,
    property: PropId,
    declared: &Prop,
) -> Result<Value, Memory>
    requires parts { AreParts parts.now }
    requires row { row ≤ 4 }
    ensures { IfOk result (λ value. value ≡ some_value (basis_of parts.now) row ty property declared.now) }
{
    if is_dependent(parts.model, property) {
        let place = place_in(property, props_of(parts.model, ty));
        return fresh(alloc, &declared.kind, row, DEPENDENT + place as u64);
    }
    first_free(alloc, &declared.kind, constants_of(parts, property))
}

/// The first candidate of a property's kind that is no constant of its group; of flags and of an enumeration the first one of all. Null where there is no such
/// property. `Memory` comes where memory ran out.
pub fn first_free_of(alloc: Global, parts: &Parts<'_>, property: PropId) -> Result<Value, Memory>
    requires { AreParts parts.now }
    ensures { IfOk result (λ value. value
        ≡ option_map_or (λ declared. first_free declared.kind ((basis_of parts.now).constants (prop property))) (slice_get parts.now.model.now.props property.index) Null) }
{
    match parts.model.props.get(property.index as usize) {
        Some(declared) => first_free(alloc, &declared.kind, constants_of(parts, property)),
        None => Ok(Value::Null),
    }
}

/// A value that isn't null of a property that may have several. `Memory` comes where memory ran out.
pub fn one_value(
    alloc: Global,
    parts: &Parts<'_>,
    property: PropId,
    declared: &Prop,
) -> Result<Value, Memory>
    requires { AreParts parts.now }
    ensures { IfOk result (λ value. value ≡ one_value (basis_of parts.now) property declared.now) }
{
    if is_dependent(parts.model, property) {
        return fresh(alloc, &declared.kind, 0, LOST);
    }
    first_free(alloc, &declared.kind, constants_of(parts, property))
}

/// Another one.
pub fn other_value(
    alloc: Global,
    parts: &Parts<'_>,
    property: PropId,
    declared: &Prop,
) -> Result<Value, Memory>
    requires { AreParts parts.now }
    ensures { IfOk result (λ value. value ≡ other_value (basis_of parts.now) property declared.now) }
{
    if is_dependent(parts.model, property) {
        return fresh(alloc, &declared.kind, 0, LOST + 1);
    }
    next_free(alloc, &declared.kind, constants_of(parts, property))
}

/// The usual value of a part of the key of the partner by an association, at its first end or at its second, by one of the five rows of
/// numbered values; null where there is no such association or no such property. `Memory` comes where memory ran out.
pub fn default_part(
    alloc: Global,
    parts: &Parts<'_>,
    row: u32,
    assoc: AssocId,
    first: bool,
    property: PropId,
) -> Result<Value, Memory>
    requires { row ≤ 4 }
    ensures { IfOk result (λ value. value ≡ default_part (basis_of parts.now) row assoc first property) }
{
    let Some(declared) = parts.model.assocs.get(assoc.index as usize) else {
        return Ok(Value::Null);
    };
    let key = key_props(parts.model, end_at(first, declared).ty);
    let place = place_in(property, key) as u64;
    let index = PARTNER_KEY + PARTNER_PARTS * u64::from(assoc.index) + place;
    fresh_at(alloc, parts.model, row, property, index)
}
