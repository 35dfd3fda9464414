ghost use Rattle.std.specs.Prelude.{◌≡◌};
ghost use Rattle.regions.specs.Settled.{are_one, clashes, is_nullable, of_atom, possible, settle, settled_by, single};
ghost use Rattle.regions.specs.declared.pattern.Symbol.{Symbol};
ghost use Rattle.regions.specs.Shown.{settled_passes};
ghost use Rattle.region_states.specs.conflicts.Facts.{can_be_null};
ghost use Rattle.symbolic_rows.specs.settled_cells.Lent.{shown_possible};

use crate::{atom_at, passes, same_symbol};
use condition_logic::{Atom, AtomOf};
use edm_types::{EntityModel, Test};
use emc_base::{PropId, Value};
use regions::Symbol;

/// What a symbol can be.
#[derive(Drop)]
pub enum CanBe<'a> {
    /// Null alone.
    Null,
    /// This value alone.
    One(&'a Value),
    /// Several values.
    Several {
        /// Whether null is among them.
        nullable: bool,
    },
}

/// What a symbol can be, where these atoms are told.
pub fn possible<'a>(model: &EntityModel, atoms: &'a [AtomOf], symbol: &'a Symbol) -> CanBe<'a>
    ensures { shown_possible result ≡ possible model.now atoms.now symbol.now }
{
    match symbol {
        Symbol::Null => CanBe::Null,
        Symbol::Const(value) => CanBe::One(value),
        Symbol::Prop(prop) => match atom_at(atoms, *prop) {
            Some(told) => of_atom(&told.atom),
            None => CanBe::Several {
                nullable: is_nullable(model, *prop),
            },
        },
        Symbol::End { .. } => CanBe::Several { nullable: false },
    }
}

// What lies in an atom.
fn of_atom(atom: &Atom) -> CanBe<'_>
    ensures { shown_possible result ≡ of_atom atom.now }
{
    match atom {
        Atom::Null => CanBe::Null,
        Atom::Is(value) => CanBe::One(value),
        Atom::Other => CanBe::Several { nullable: false },
    }
}

// Whether a property is nullable.
fn is_nullable(model: &EntityModel, prop: PropId) -> bool
    ensures { result ≡ is_nullable model.now prop }
{
    match model.props.get(prop.index as usize) {
        Some(declared) => declared.nullable,
        None => false,
    }
}

/// Whether null is possible.
pub fn can_be_null(possible: &CanBe<'_>) -> bool
    ensures { result ≡ can_be_null (shown_possible possible.now) }
{
    match possible {
        CanBe::Null => true,
        CanBe::One(value) => **value == Value::Null,
        CanBe::Several { nullable } => *nullable,
    }
}

/// Whether two symbols of one cell can differ.
pub fn clash(model: &EntityModel, atoms: &[AtomOf], one: &Symbol, two: &Symbol) -> bool
    ensures { result ≡ clashes model.now atoms.now one.now two.now }
{
    !same_symbol(one, two) && !are_one(&possible(model, atoms, one), &possible(model, atoms, two))
}

// Whether both are one and the same value alone.
fn are_one(one: &CanBe<'_>, two: &CanBe<'_>) -> bool
    ensures { result ≡ are_one (shown_possible one.now) (shown_possible two.now) }
{
    match one {
        CanBe::Null => is_only(two, &Value::Null),
        CanBe::One(value) => is_only(two, value),
        CanBe::Several { .. } => false,
    }
}

// Whether it is this value alone.
fn is_only(possible: &CanBe<'_>, value: &Value) -> bool
    ensures { result ≡ are_one (single value.now) (shown_possible possible.now) }
{
    match possible {
        CanBe::Null => *value == Value::Null,
        CanBe::One(other) => *value == **other,
        CanBe::Several { .. } => false,
    }
}

/// Whether a cell that has no clash passes a test, whatever its value is: null where nothing is listed, else that of the first symbol.
pub fn cell_passes(model: &EntityModel, atoms: &[AtomOf], cell: &[Symbol], test: &Test) -> bool
    ensures { result ≡ settled_passes test.now (settle model.now atoms.now cell.now) }
{
    match cell.first() {
        Some(symbol) => possible_passes(&possible(model, atoms, symbol), test),
        None => passes(test, &Value::Null),
    }
}

// The same of what its symbol can be; what may be several values is taken to be no constant, and not null.
fn possible_passes(possible: &CanBe<'_>, test: &Test) -> bool
    ensures { (one : Symbol) → result ≡ settled_passes test.now (settled_by one (shown_possible possible.now)) }
{
    match (possible, test) {
        (CanBe::Null, _) => passes(test, &Value::Null),
        (CanBe::One(value), _) => passes(test, value),
        (CanBe::Several { .. }, Test::IsNull(asked)) => !*asked,
        (CanBe::Several { .. }, Test::Equals(_)) => false,
    }
}
