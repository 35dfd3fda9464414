ghost use Rattle.std.specs.Prelude.{◌↔◌, IsTrue};
ghost use Rattle.edm_types.specs.Forest.{HoldsEachType, IsForest};
ghost use Rattle.condition_logic.specs.Words.{Entity};
ghost use Rattle.condition_logic.specs.Readings.{of_entity, of_row};
ghost use Rattle.condition_logic.specs.Holds.{Holds};
ghost use Rattle.condition_logic.specs.InAtoms.{IsInAtoms, IsOnAtoms};
ghost use Rattle.condition_logic.specs.Subjects.{IsAnswerable, of_subject};

use crate::asking::Subject;
use crate::atoms::AtomOf;
use crate::expr::Expr;
use edm_types::{Entity, EntityModel, Row};
use emc_base::{Seq, TypeId};

/// Whether an expression holds of an entity. It takes no memory, and each part is looked at once at most: a test of the type takes time linear
/// in the number of types, a test of a property in the number of the type's properties.
pub fn holds_entity(model: &EntityModel, expr: &Expr, entity: &Entity) -> bool
    requires forest { IsForest model.now model.now.forest }
    requires whole { HoldsEachType model.now model.now.forest }
    ensures { IsTrue result ↔ Holds (of_entity model.now entity.now) expr.now }
{
    holds(&Subject::Entity(model, entity), expr)
}

/// Whether an expression holds of a row. It takes no memory, and time linear in the size of the expression.
pub fn holds_row(expr: &Expr, row: &Row) -> bool
    ensures { IsTrue result ↔ Holds (of_row row.now) expr.now }
{
    holds(&Subject::Row(row), expr)
}

/// Whether an expression holds of the entities of a type that atoms tell. It takes no memory, and each part is looked at once at most: a test of
/// the type takes time linear in the number of types, a test of a property in the number of atoms. Of atoms of one property the first counts.
pub fn holds_atoms(model: &EntityModel, expr: &Expr, ty: TypeId, atoms: &Seq<AtomOf>) -> bool
    requires forest { IsForest model.now model.now.forest }
    requires whole { HoldsEachType model.now model.now.forest }
    requires told { IsOnAtoms model.now expr.now ty atoms.now }
    ensures { (entity : Entity) → IsInAtoms model.now expr.now ty atoms.now entity
        → IsTrue result ↔ Holds (of_entity model.now entity) expr.now }
{
    holds(&Subject::Atoms(model, ty, atoms.as_slice()), expr)
}

// Whether an expression holds of a subject.
fn holds(subject: &Subject<'_>, expr: &Expr) -> bool
    requires { IsAnswerable subject.now }
    ensures { IsTrue result ↔ Holds (of_subject subject.now) expr.now }
{
    match expr {
        Expr::All(parts) => {
            for part in parts.as_slice() {
                if !holds(subject, part) {
                    return false;
                }
            }
            true
        }
        Expr::Any(parts) => {
            for part in parts.as_slice() {
                if holds(subject, part) {
                    return true;
                }
            }
            false
        }
        Expr::Not(part) => !holds(subject, part),
        Expr::IsOf(t) => subject.is_of(*t),
        Expr::OnlyOf(t) => subject.is_only_of(*t),
        Expr::IsNull(on) => subject.is_null(*on),
        Expr::Equals(on, constant) => subject.equals(*on, constant),
    }
}
