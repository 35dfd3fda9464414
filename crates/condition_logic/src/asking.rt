ghost use Rattle.std.specs.Prelude.{◌↔◌, IsTrue};
ghost use Rattle.condition_logic.specs.Subjects.{IsAnswerable, of_subject};

use crate::atoms::AtomOf;
use crate::reading::{atom_of, equals, equals_atom, is_null, is_null_atom, value_of};
use edm_types::{CondOn, Entity, EntityModel, Row, is_of};
use emc_base::{TypeId, Value};

/// Of what an expression is asked.
#[derive(Clone, Copy)]
pub enum Subject<'s> {
    /// An entity.
    Entity(&'s EntityModel, &'s Entity),
    /// A row.
    Row(&'s Row),
    /// All entities of a type that these atoms tell.
    Atoms(&'s EntityModel, TypeId, &'s [AtomOf]),
}

impl Subject<'_> {
    /// Whether its type is this one or derived from it.
    pub fn is_of(&self, t: TypeId) -> bool
        requires { IsAnswerable self.now }
        ensures { IsTrue result ↔ (of_subject self.now).is_of t }
    {
        match self {
            Subject::Entity(model, entity) => is_of(model, entity.ty, t),
            Subject::Row(_) => false,
            Subject::Atoms(model, ty, _) => is_of(model, *ty, t),
        }
    }

    /// Whether its type is this one.
    pub fn is_only_of(&self, t: TypeId) -> bool
        ensures { IsTrue result ↔ (of_subject self.now).only_of t }
    {
        match self {
            Subject::Entity(_, entity) => entity.ty == t,
            Subject::Row(_) => false,
            Subject::Atoms(_, ty, _) => *ty == t,
        }
    }

    /// Whether a property or a column is null.
    pub fn is_null(&self, on: CondOn) -> bool
        ensures { IsTrue result ↔ (of_subject self.now).is_null on }
    {
        match (self, on) {
            (Subject::Entity(model, entity), CondOn::Prop(prop)) => {
                is_null(value_of(model, entity, prop))
            }
            (Subject::Row(row), CondOn::Col(col)) => is_null(row.cells.get(col.index as usize)),
            (Subject::Atoms(_, _, atoms), CondOn::Prop(prop)) => is_null_atom(atom_of(atoms, prop)),
            _ => true,
        }
    }

    /// Whether a property or a column equals the constant.
    pub fn equals(&self, on: CondOn, constant: &Value) -> bool
        ensures { IsTrue result ↔ (of_subject self.now).equals on constant.now }
    {
        match (self, on) {
            (Subject::Entity(model, entity), CondOn::Prop(prop)) => {
                equals(value_of(model, entity, prop), constant)
            }
            (Subject::Row(row), CondOn::Col(col)) => {
                equals(row.cells.get(col.index as usize), constant)
            }
            (Subject::Atoms(_, _, atoms), CondOn::Prop(prop)) => {
                equals_atom(atom_of(atoms, prop), constant)
            }
            _ => false,
        }
    }
}
