ghost use Rattle.std.specs.Prelude.{◌≡◌, option_map};
ghost use Rattle.std.specs.List.{list_all, list_any};
ghost use Rattle.schema_laws.specs.state_demand.Selecting.{is_picked, passes};
ghost use Rattle.regions.specs.Symbols.{atom_passes, met_by_atoms};
ghost use Rattle.round_trip.specs.soundness.models.Models.{IsSoundModel};
ghost use Rattle.schema_laws.specs.sound_demand.Deriving.{derives};
ghost use Rattle.symbolic_rows.specs.Selected.{selected_by, told_of};

use condition_logic::{Atom, AtomOf};
use edm_types::{Cond, CondOn, EntityModel, Fragment, Pick, Test, is_of};
use emc_base::{PropId, TypeId, Value};

/// Whether a fragment of its set selects the entities of this type and these atoms.
pub fn selects(model: &EntityModel, ty: TypeId, atoms: &[AtomOf], fragment: &Fragment) -> bool
    requires { IsSoundModel model.now }
    ensures { result ≡ selected_by model.now ty atoms.now fragment.now }
{
    has_picked(model, ty, fragment.picks.as_slice()) && meet_all(atoms, fragment.conds.as_slice())
}

// Whether one of these picks fits the type.
fn has_picked(model: &EntityModel, ty: TypeId, picks: &[Pick]) -> bool
    requires { IsSoundModel model.now }
    ensures { result ≡ list_any (is_picked (derives model.now) ty) picks.now }
{
    for pick in picks {
        if is_picked(model, ty, *pick) {
            return true;
        }
    }
    false
}

// Whether a pick fits the type.
fn is_picked(model: &EntityModel, ty: TypeId, pick: Pick) -> bool
    requires { IsSoundModel model.now }
    ensures { result ≡ is_picked (derives model.now) ty pick }
{
    if pick.below {
        derives(model, ty, pick.ty)
    } else {
        ty.index == pick.ty.index
    }
}

// Whether a type is another or derived from it.
fn derives(model: &EntityModel, ty: TypeId, other: TypeId) -> bool
    requires { IsSoundModel model.now }
    ensures { result ≡ derives model.now ty other }
{
    is_of(model, ty, other)
}

// Whether the atoms meet each of these conditions.
fn meet_all(atoms: &[AtomOf], conds: &[Cond]) -> bool
    ensures { result ≡ list_all (λ cond. met_by_atoms atoms.now cond.on cond.test) conds.now }
{
    conds.iter().all(|cond| meet(atoms, cond))
}

// Whether the atoms meet a condition, if it is on a property.
fn meet(atoms: &[AtomOf], cond: &Cond) -> bool
    ensures { result ≡ met_by_atoms atoms.now cond.now.on cond.now.test }
{
    match cond.on {
        CondOn::Prop(prop) => match atom_at(atoms, prop) {
            Some(told) => atom_passes(&cond.test, &told.atom),
            None => passes(&cond.test, &Value::Null),
        },
        CondOn::Col(_) => true,
    }
}

/// What is told of a property.
pub fn atom_at(atoms: &[AtomOf], prop: PropId) -> Option<&AtomOf>
    ensures { option_map (λ told. told.now) result ≡ told_of atoms.now prop }
{
    atoms.iter().find(|told| told.prop.index == prop.index)
}

// Whether a value that lies in an atom passes a test.
fn atom_passes(test: &Test, atom: &Atom) -> bool
    ensures { result ≡ atom_passes test.now atom.now }
{
    match (atom, test) {
        (Atom::Null, _) => passes(test, &Value::Null),
        (Atom::Is(value), _) => passes(test, value),
        (Atom::Other, Test::IsNull(asked)) => !*asked,
        (Atom::Other, Test::Equals(_)) => false,
    }
}

/// Whether a value passes a test. Null equals no value.
pub fn passes(test: &Test, value: &Value) -> bool
    ensures { result ≡ passes test.now value.now }
{
    match test {
        Test::IsNull(asked) => (*value == Value::Null) == *asked,
        Test::Equals(constant) => value == constant && *value != Value::Null,
    }
}
