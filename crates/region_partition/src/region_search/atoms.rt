ghost use Rattle.std.specs.Prelude.{◌≡◌, ◌↔◌, Contains, IsTrue, unwrap_or};
ghost use Rattle.std.specs.List.{list_any};
ghost use Rattle.std.specs.Option.{option_copied};
ghost use Rattle.round_trip.specs.Words.{Null};
ghost use Rattle.round_trip.specs.soundness.mappings.Joined.{prop};
ghost use Rattle.cells.specs.Parts.{AreParts};
ghost use Rattle.schema_laws.specs.state_demand.Selecting.{same_value};
ghost use Rattle.regions.specs.Atoms.{LiesIn, atom_of, kind_atom};
ghost use Rattle.regions.specs.region_laws.RegionAt.{atom_in};
ghost use Rattle.region_states.specs.region_basis.BasisOf.{basis_of};
ghost use Rattle.region_partition.specs.region_search.Lent.{shown_atom};
ghost use Rattle.region_partition.specs.region_search.Standing.{IsTold, atom_cmp, atom_rank, told_cmp};

use cells::Parts;
use condition_logic::{Atom, AtomOf};
use edm_types::{Entity, Prop};
use emc_base::{Kind, PropId, Value, compare};
use entity_state::{is_null, value_at};
use std::cmp::Ordering;

// An atom whose value is lent.
#[derive(Drop)]
enum Lent<'v> {
    Null,
    Is(&'v Value),
    Other,
}

/// Whether the entity's value of the property lies in the atom.
pub fn is_told(parts: &Parts<'_>, told: &AtomOf, entity: &Entity) -> bool
    requires { AreParts parts.now }
    ensures { IsTrue result ↔ IsTold (basis_of parts.now) entity.now told.now }
{
    let constants = constants_of(parts, told.prop);
    match value_at(parts.model, entity, told.prop) {
        Some(value) => lies_in(constants, &told.atom, value),
        None => lies_in(constants, &told.atom, &Value::Null),
    }
}

// Whether a value lies in an atom, where these are the constants.
fn lies_in(constants: &[Value], atom: &Atom, value: &Value) -> bool
    ensures { IsTrue result ↔ LiesIn constants.now atom.now value.now }
{
    match atom {
        Atom::Null => is_null(value),
        Atom::Is(one) => is_same(value, one),
        Atom::Other => !is_null(value) && !is_among(constants, value),
    }
}

// Whether two values are one.
fn is_same(one: &Value, other: &Value) -> bool
    ensures { IsTrue result ↔ (one.now ≡ other.now) }
{
    one == other
}

// Whether a value is one of these.
fn is_among(values: &[Value], value: &Value) -> bool
    ensures { IsTrue result ↔ Contains values.now value.now }
{
    has(values, value)
}

fn has(values: &[Value], value: &Value) -> bool
    ensures { result ≡ list_any (same_value value.now) values.now }
{
    values.iter().any(|other| value == other)
}

// The constants of a property's group, in their order; none where there is no such property.
fn constants_of<'a>(parts: &Parts<'a>, property: PropId) -> &'a [Value]
    requires { AreParts parts.now }
    ensures { result.now ≡ (basis_of parts.now).constants (prop property) }
{
    if property.index as usize >= parts.model.props.len() {
        return &[];
    }
    let group = parts.cells.group_of_prop(property);
    parts.cells.constants(group).as_slice()
}

/// Where an atom stands against the atom of the entity's value of the property.
pub fn compare_told(parts: &Parts<'_>, told: &AtomOf, entity: &Entity) -> Ordering
    requires { AreParts parts.now }
    ensures { result ≡ told_cmp (basis_of parts.now) entity.now told.now }
{
    compare_atom(&told.atom, &atom_in(parts, entity, told.prop))
}

// Null stands first, then single values in their order, all others last.
fn compare_atom(atom: &Atom, other: &Lent<'_>) -> Ordering
    ensures { result ≡ atom_cmp atom.now (shown_atom other.now) }
{
    match (atom, other) {
        (Atom::Is(one), Lent::Is(value)) => compare(one, value),
        _ => rank(atom).cmp(&lent_rank(other)),
    }
}

fn rank(atom: &Atom) -> u8
    ensures { result ≡ atom_rank atom.now }
{
    match atom {
        Atom::Null => 0,
        Atom::Is(_) => 1,
        Atom::Other => 2,
    }
}

fn lent_rank(atom: &Lent<'_>) -> u8
    ensures { result ≡ atom_rank (shown_atom atom.now) }
{
    match atom {
        Lent::Null => 0,
        Lent::Is(_) => 1,
        Lent::Other => 2,
    }
}

// The atom of the entity's value of a property.
fn atom_in<'e>(parts: &Parts<'_>, entity: &'e Entity, property: PropId) -> Lent<'e>
    requires { AreParts parts.now }
    ensures { shown_atom result ≡ (atom_in (basis_of parts.now) entity.now property).atom }
{
    let Some(declared) = parts.model.props.get(property.index as usize) else {
        return Lent::Null;
    };
    let constants = constants_of(parts, property);
    atom_of(declared, constants, value_at(parts.model, entity, property))
}

// The atom of a value of a property; null's where there is none.
fn atom_of<'v>(declared: &Prop, constants: &[Value], value: Option<&'v Value>) -> Lent<'v>
    ensures { shown_atom result ≡ atom_of declared.now constants.now (unwrap_or (option_copied value.entry) Null) }
{
    match value {
        Some(value) => atom_of_value(declared, constants, value),
        None => Lent::Null,
    }
}

fn atom_of_value<'v>(declared: &Prop, constants: &[Value], value: &'v Value) -> Lent<'v>
    ensures { shown_atom result ≡ atom_of declared.now constants.now value.now }
{
    if is_null(value) {
        Lent::Null
    } else {
        kind_atom(&declared.kind, constants, value)
    }
}

// The atom of a value that isn't null: by itself where the kind is that of flags or of an enumeration, or the value is a constant.
fn kind_atom<'v>(kind: &Kind, constants: &[Value], value: &'v Value) -> Lent<'v>
    ensures { shown_atom result ≡ kind_atom kind.now constants.now value.now }
{
    match kind {
        Kind::Boolean | Kind::Enum(_) => Lent::Is(value),
        _ => {
            if has(constants, value) {
                Lent::Is(value)
            } else {
                Lent::Other
            }
        }
    }
}
