ghost use Rattle.std.specs.Prelude.{◌≡◌, ◌==◌, ◌↔◌, IsTrue, find, unwrap_or};
ghost use Rattle.std.specs.Option.{option_copied};
ghost use Rattle.condition_logic.specs.Words.{Null, value_beside, value_of};
ghost use Rattle.condition_logic.specs.declared.atoms.Atom.TheVariants as atom;
ghost use Rattle.condition_logic.specs.Readings.{Equals};
ghost use Rattle.condition_logic.specs.Subjects.{EqualsAtom, IsNullAtom, atom_at};

use crate::atoms::{Atom, AtomOf};
use edm_types::{Entity, EntityModel};
use emc_base::{PropId, Value};

/// An entity's value of a property; none where it has none.
pub fn value_of<'e>(model: &EntityModel, entity: &'e Entity, prop: PropId) -> Option<&'e Value>
    ensures { unwrap_or (option_copied result) Null ≡ value_of model.now entity.now prop }
{
    match model.types.get(entity.ty.index as usize) {
        Some(declared) => value_beside(prop, declared.props.as_slice(), entity.values.as_slice()),
        None => None,
    }
}

// The value that stands beside a property; none where none does.
fn value_beside<'e>(prop: PropId, props: &[PropId], values: &'e [Value]) -> Option<&'e Value>
    ensures { unwrap_or (option_copied result) Null ≡ value_beside prop props.now values.now }
{
    for (other, value) in props.iter().zip(values) {
        if *other == prop {
            return Some(value);
        }
    }
    None
}

/// Whether a value is null, or there is none.
pub fn is_null(value: Option<&Value>) -> bool
    ensures { IsTrue result ↔ (unwrap_or (option_copied value.entry) Null ≡ Null) }
{
    matches!(value, None | Some(Value::Null))
}

/// Whether there is a value that equals the constant. Null equals none.
pub fn equals(value: Option<&Value>, constant: &Value) -> bool
    ensures { IsTrue result ↔ Equals (unwrap_or (option_copied value.entry) Null) constant.now }
{
    if is_null(value) {
        return false;
    }
    match value {
        Some(value) => value == constant,
        None => false,
    }
}

/// The atom that is first told of a property; none where none is.
pub fn atom_of(atoms: &[AtomOf], prop: PropId) -> Option<&Atom>
    ensures { unwrap_or (option_copied result) atom.Null ≡ atom_at atoms.now prop }
{
    match told_of(atoms, prop) {
        Some(told) => Some(&told.atom),
        None => None,
    }
}

// What is first told of a property.
fn told_of(atoms: &[AtomOf], prop: PropId) -> Option<&AtomOf>
    ensures { option_copied result ≡ find (λ told. told.prop.index == prop.index) atoms.now }
{
    atoms.iter().find(|told| told.prop.index == prop.index)
}

/// Whether the values of an atom are null. No atom counts as null.
pub fn is_null_atom(told: Option<&Atom>) -> bool
    ensures { IsTrue result ↔ IsNullAtom (unwrap_or (option_copied told.entry) atom.Null) }
{
    match told {
        None | Some(Atom::Null) => true,
        Some(Atom::Is(value)) => is_null(Some(value)),
        Some(Atom::Other) => false,
    }
}

/// Whether the values of an atom equal the constant.
pub fn equals_atom(told: Option<&Atom>, constant: &Value) -> bool
    ensures { IsTrue result ↔ EqualsAtom (unwrap_or (option_copied told.entry) atom.Null) constant.now }
{
    match told {
        Some(Atom::Is(value)) => equals(Some(value), constant),
        _ => false,
    }
}
