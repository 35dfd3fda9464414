ghost use Rattle.std.specs.Prelude.{◌≡◌, ◌≤◌, ◌<◌, ◌^◌, ◌++◌, ◌∷◌, [], IfOk, false, filter, length, map, true};
ghost use Rattle.round_trip.specs.soundness.mappings.Joined.{prop};
ghost use Rattle.cells.specs.Parts.{AreParts};
ghost use Rattle.round_trip.specs.Words.{Flag, Whole};
ghost use Rattle.condition_logic.specs.declared.atoms.Atom.TheVariants.{Is, Other};
ghost use Rattle.regions.specs.Atoms.{atoms_of, kind_atoms};
ghost use Rattle.regions.specs.Fitting.{fits};
ghost use Rattle.regions.specs.Regions.{atoms_at};
ghost use Rattle.region_states.specs.region_basis.BasisOf.{basis_of};
ghost use Rattle.region_partition.specs.region_lists.Listing.{told_atoms};

use cells::Parts;
use condition_logic::{Atom, AtomOf};
use edm_types::Prop;
use emc_base::{Kind, Memory, PropId, Seq, Value, in_domain};
use std::alloc::Global;

/// Whether a property is tested.
pub fn is_tested(parts: &Parts<'_>, property: PropId) -> bool
    requires parts { AreParts parts.now }
    requires within { property.index < length parts.now.model.now.props }
    ensures { result ≡ (basis_of parts.now).tested (prop property) }
{
    parts.cells.tested(parts.cells.group_of_prop(property))
}

/// The constants of a property's group, in their order.
pub fn constants_of<'p>(parts: &'p Parts<'_>, property: PropId) -> &'p Seq<Value>
    requires parts { AreParts parts.now }
    requires within { property.index < length parts.now.model.now.props }
    ensures { result.now ≡ (basis_of parts.now).constants (prop property) }
{
    parts.cells.constants(parts.cells.group_of_prop(property))
}

// How many atoms a tested property has.
pub(super) fn count_atoms(parts: &Parts<'_>, property: PropId) -> u64
    requires parts { AreParts parts.now }
    requires within { property.index < length parts.now.model.now.props }
    ensures count { result ≡ length (atoms_at (basis_of parts.now) property) }
    ensures bound { result < 2 ^ 33 }
{
    count_of_prop(
        parts.model.props.at(property.index as usize),
        constants_of(parts, property),
    )
}

// How many there are by its declaration and these constants.
fn count_of_prop(declared: &Prop, constants: &Seq<Value>) -> u64
    ensures count { result ≡ length (atoms_of fits declared.now constants.now) }
    ensures bound { result < 2 ^ 33 }
{
    u64::from(declared.nullable) + count_of_kind(&declared.kind, constants)
}

// How many there are of values that aren't null.
fn count_of_kind(kind: &Kind, constants: &Seq<Value>) -> u64
    ensures count { result ≡ length (kind_atoms fits kind.now constants.now) }
    ensures bound { result ≤ 2 ^ 32 }
{
    match kind {
        Kind::Boolean => 2,
        Kind::Enum(enumeration) => enumeration.members.len() as u64,
        _ => count_fitting(kind, constants) + 1,
    }
}

// How many of the constants are in the domain of the kind.
fn count_fitting(kind: &Kind, constants: &Seq<Value>) -> u64
    ensures count { result ≡ length (filter (λ value. fits value kind.now) constants.now) }
    ensures bound { result < 2 ^ 32 }
{
    let mut count = 0;
    for value in constants.as_slice() {
        if in_domain(value, kind) {
            count += 1;
        }
    }
    count
}

/// The atoms of a tested property, in their order.
pub fn atoms_at(alloc: Global, parts: &Parts<'_>, property: PropId) -> Result<Seq<AtomOf>, Memory>
    requires parts { AreParts parts.now }
    requires within { property.index < length parts.now.model.now.props }
    ensures { IfOk result (λ atoms. atoms ≡ atoms_at (basis_of parts.now) property) }
{
    let declared = parts.model.props.at(property.index as usize);
    let constants = constants_of(parts, property);
    atoms_of(alloc, property, declared, constants)
}

// The atoms by its declaration and these constants.
fn atoms_of(
    alloc: Global,
    property: PropId,
    declared: &Prop,
    constants: &Seq<Value>,
) -> Result<Seq<AtomOf>, Memory>
    ensures { IfOk result (λ atoms. atoms ≡ told_atoms property (atoms_of fits declared.now constants.now)) }
{
    let mut atoms = Seq::empty(alloc);
    if declared.nullable {
        push_atom(&mut atoms, property, Atom::Null)?;
    }
    match &declared.kind {
        Kind::Boolean => add_flags(&mut atoms, property)?,
        Kind::Enum(enumeration) => add_numbers(
            &mut atoms,
            property,
            enumeration.members.as_slice(),
        )?,
        kind => add_constants(alloc, &mut atoms, property, kind, constants.as_slice())?,
    }
    Ok(atoms)
}

// Adds an atom of the property.
fn push_atom(atoms: &mut Seq<AtomOf>, prop: PropId, atom: Atom) -> Result<(), Memory>
    ensures { IfOk result (λ _. atoms.new ≡ atoms.old ++ told_atoms prop (atom ∷ [])) }
{
    atoms.push(AtomOf { prop, atom })
}

// Adds the atoms of flags: false, and true.
fn add_flags(atoms: &mut Seq<AtomOf>, property: PropId) -> Result<(), Memory>
    ensures { IfOk result (λ _. atoms.new ≡ atoms.old ++ told_atoms property (Is (Flag false) ∷ Is (Flag true) ∷ [])) }
{
    push_atom(atoms, property, Atom::Is(Value::Flag(false)))?;
    push_atom(atoms, property, Atom::Is(Value::Flag(true)))
}

// Adds the atoms of the numbers of an enumeration.
fn add_numbers(atoms: &mut Seq<AtomOf>, property: PropId, numbers: &[i64]) -> Result<(), Memory>
    ensures { IfOk result (λ _. atoms.new ≡ atoms.old ++ told_atoms property (map (λ number. Is (Whole number)) numbers.now)) }
{
    for number in numbers {
        push_atom(atoms, property, Atom::Is(Value::Whole(*number)))?;
    }
    Ok(())
}

// Adds the atoms of the constants in the domain of the kind, and that of all other values.
fn add_constants(
    alloc: Global,
    atoms: &mut Seq<AtomOf>,
    property: PropId,
    kind: &Kind,
    constants: &[Value],
) -> Result<(), Memory>
    ensures { IfOk result (λ _. atoms.new ≡ atoms.old ++ told_atoms property (map (λ value. Is value) (filter (λ value. fits value kind.now) constants.now) ++ Other ∷ [])) }
{
    add_fitting(alloc, atoms, property, kind, constants)?;
    push_atom(atoms, property, Atom::Other)
}

// Adds the atoms of the constants in the domain of the kind.
fn add_fitting(
    alloc: Global,
    atoms: &mut Seq<AtomOf>,
    property: PropId,
    kind: &Kind,
    constants: &[Value],
) -> Result<(), Memory>
    ensures { IfOk result (λ _. atoms.new ≡ atoms.old ++ told_atoms property (map (λ value. Is value) (filter (λ value. fits value kind.now) constants.now))) }
{
    for value in constants {
        if in_domain(value, kind) {
            push_atom(atoms, property, Atom::Is(value.copy(alloc)?))?;
        }
    }
    Ok(())
}
