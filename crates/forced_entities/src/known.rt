ghost use Rattle.std.specs.Prelude.{◌≡◌, ◌↔◌, ◌&&◌, ◌==◌, IsTrue};
ghost use Rattle.std.specs.List.{list_all, list_any};
ghost use Rattle.round_trip.specs.Words.{IsA, dependent_end, key_props, principal_end};
ghost use Rattle.round_trip.specs.soundness.models.Models.{IsSoundModel};
ghost use Rattle.schema_laws.specs.short_values.Places.{is_among};
ghost use Rattle.cells.specs.Parts.{AreParts};
ghost use Rattle.region_states.specs.region_basis.BasisOf.{basis_of};
ghost use Rattle.forced_entities.specs.Listed.{has_value, is_arrow, is_covered, is_known, is_needed};

use cells::Parts;
use condition_logic::{Atom, AtomOf};
use edm_types::{Assoc, Constraint, End, EntityModel, is_of};
use emc_base::{PropId, SetId, TypeId, Value};
use regions::Region;

/// The key properties of a type; none where there is no such type.
pub fn key_props(model: &EntityModel, t: TypeId) -> &[PropId]
    ensures { result.now ≡ key_props model.now t }
{
    match model.types.get(t.index as usize) {
        Some(declared) => declared.key.as_slice(),
        None => &[],
    }
}

/// The end of an association at which the dependent entities stand.
pub fn dependent_end<'a>(assoc: &'a Assoc, constraint: &Constraint) -> &'a End
    ensures { result.now ≡ dependent_end assoc.now constraint.now }
{
    if constraint.dependent_first {
        &assoc.first
    } else {
        &assoc.second
    }
}

/// The end at which the principal entities stand.
pub fn principal_end<'a>(assoc: &'a Assoc, constraint: &Constraint) -> &'a End
    ensures { result.now ≡ principal_end assoc.now constraint.now }
{
    if constraint.dependent_first {
        &assoc.second
    } else {
        &assoc.first
    }
}

/// Whether a constraint covers the entities of a type in a set.
pub fn is_covered(
    parts: &Parts<'_>,
    u: SetId,
    t: TypeId,
    assoc: &Assoc,
    constraint: &Constraint,
) -> bool
    requires { AreParts parts.now }
    ensures { result ≡ is_covered (basis_of parts.now) u t assoc.now constraint.now }
{
    let end = dependent_end(assoc, constraint);
    end.set.index == u.index && is_under(parts, t, end.ty)
}

// Whether a type is another or derived from it.
fn is_under(parts: &Parts<'_>, t: TypeId, u: TypeId) -> bool
    requires { AreParts parts.now }
    ensures { result ≡ (basis_of parts.now).is_a t u }
{
    derives(parts.model, t, u)
}

// The same, of a sound model.
fn derives(model: &EntityModel, t: TypeId, u: TypeId) -> bool
    requires { IsSoundModel model.now }
    ensures { IsTrue result ↔ IsA model.now t u }
{
    is_of(model, t, u)
}

/// Whether each entity has a principal by a constraint whose dependent list has a part of its key.
pub fn is_arrow(parts: &Parts<'_>, assoc: &Assoc, constraint: &Constraint) -> bool
    ensures { result ≡ is_arrow (basis_of parts.now) assoc.now constraint.now }
{
    let keys = key_props(parts.model, dependent_end(assoc, constraint).ty);
    has_some(keys, constraint.dependent.as_slice())
        && all_needed(parts, constraint.dependent.as_slice())
}

// Whether one of these properties is among others.
fn has_some(keys: &[PropId], props: &[PropId]) -> bool
    ensures { result ≡ list_any (λ d. is_among d keys.now) props.now }
{
    props.iter().any(|d| is_among(*d, keys))
}

// Whether none of these properties may be null.
fn all_needed(parts: &Parts<'_>, props: &[PropId]) -> bool
    ensures { result ≡ list_all (is_needed (basis_of parts.now)) props.now }
{
    props.iter().all(|d| is_needed(parts, *d))
}

// Whether a property is one of these.
fn is_among(prop: PropId, props: &[PropId]) -> bool
    ensures { result ≡ is_among prop props.now }
{
    props.iter().any(|other| other.index == prop.index)
}

// Whether a property may not be null.
fn is_needed(parts: &Parts<'_>, prop: PropId) -> bool
    ensures { result ≡ is_needed (basis_of parts.now) prop }
{
    match parts.model.props.get(prop.index as usize) {
        Some(declared) => !declared.nullable,
        None => false,
    }
}

/// Whether none of these properties can be null in an entity of the region in which none of some others is.
pub fn all_known(parts: &Parts<'_>, region: &Region, not_null: &[PropId], props: &[PropId]) -> bool
    ensures { result ≡ list_all (is_known (basis_of parts.now) region.now not_null.now) props.now }
{
    props.iter().all(|d| is_known(parts, region, not_null, *d))
}

// Whether a property is known not to be null.
fn is_known(parts: &Parts<'_>, region: &Region, not_null: &[PropId], prop: PropId) -> bool
    ensures { result ≡ is_known (basis_of parts.now) region.now not_null.now prop }
{
    is_among(prop, key_props(parts.model, region.ty))
        || is_needed(parts, prop)
        || has_value_at(region.atoms.as_slice(), prop)
        || is_among(prop, not_null)
}

// Whether the property has an atom in which null doesn't lie.
fn has_value_at(atoms: &[AtomOf], prop: PropId) -> bool
    ensures { result ≡ list_any (λ told. (told.prop.index == prop.index) && has_value told.atom) atoms.now }
{
    atoms.iter().any(|told| told.prop.index == prop.index && has_value(&told.atom))
}

// Whether null lies in no such atom.
fn has_value(atom: &Atom) -> bool
    ensures { result ≡ has_value atom.now }
{
    match atom {
        Atom::Null => false,
        Atom::Is(value) => *value != Value::Null,
        Atom::Other => true,
    }
}
