ghost use Rattle.std.specs.Prelude.{◌≡◌};
ghost use Rattle.round_trip.specs.Words.{EntityModel, key_props, props_of};
ghost use Rattle.regions.specs.declared.pattern.Symbol.TheVariants as symbol;
ghost use Rattle.regions.specs.Settled.{possible};
ghost use Rattle.region_states.specs.conflicts.SameFacts.{is_multi, is_one_of};
ghost use Rattle.region_states.specs.region_basis.BasisOf.{basis_of};
ghost use Rattle.conflict_laws.specs.same.SameValues.{first_several, may_differ};

use cells::Parts;
use condition_logic::{Atom, AtomOf};
use edm_types::EntityModel;
use emc_base::{PropId, TypeId};
use regions::Region;
use symbolic_rows::atom_at;

/// The first property of the region's type that is no part of the key and may have several values.
pub fn first_several(parts: &Parts<'_>, region: &Region) -> Option<PropId>
    ensures { result ≡ first_several (basis_of parts.now) region.now }
{
    props_of(parts.model, region.ty)
        .iter()
        .copied()
        .find(|property| may_differ(parts, region, *property))
}

// Whether a property is no part of the key and may have several values.
fn may_differ(parts: &Parts<'_>, region: &Region, property: PropId) -> bool
    ensures { result ≡ may_differ (basis_of parts.now) region.now property }
{
    !is_one_of(property, key_props(parts.model, region.ty))
        && has_several(region.atoms.as_slice(), property)
}

// Whether a property may have several values, where these atoms are told.
fn has_several(atoms: &[AtomOf], property: PropId) -> bool
    ensures { (model : EntityModel) → result ≡ is_multi (possible model atoms.now (symbol.Prop property)) }
{
    match atom_at(atoms, property) {
        Some(told) => matches!(told.atom, Atom::Other),
        None => true,
    }
}

// Whether a property is one of these.
fn is_one_of(property: PropId, props: &[PropId]) -> bool
    ensures { result ≡ is_one_of property props.now }
{
    props.iter().any(|other| other.index == property.index)
}

// The properties of a type, inherited ones included; none where there is no such type.
fn props_of(model: &EntityModel, ty: TypeId) -> &[PropId]
    ensures { result.now ≡ props_of model.now ty }
{
    match model.types.get(ty.index as usize) {
        Some(declared) => declared.props.as_slice(),
        None => &[],
    }
}

// The key of a type; none where there is no such type.
fn key_props(model: &EntityModel, ty: TypeId) -> &[PropId]
    ensures { result.now ≡ key_props model.now ty }
{
    match model.types.get(ty.index as usize) {
        Some(declared) => declared.key.as_slice(),
        None => &[],
    }
}
