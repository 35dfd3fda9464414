ghost use Rattle.std.specs.Prelude.{◌≡◌, ◌≤◌, ◌<◌, ◌&&◌, All, filter, length, map, not, sum_by};
ghost use Rattle.round_trip.specs.Words.{At};
ghost use Rattle.round_trip.specs.soundness.mappings.Joined.{prop};
ghost use Rattle.schema_laws.specs.sound_demand.Deriving.{derives};
ghost use Rattle.cells.specs.Parts.{AreParts};
ghost use Rattle.regions.specs.Regions.{atoms_at, count_of, flags_at, types_of};
ghost use Rattle.regions.specs.region_laws.Counting.{count_by, product_of};
ghost use Rattle.region_states.specs.region_basis.BasisOf.{basis_of, host_at};
ghost use Rattle.region_partition.specs.region_lists.Counts.{capped};

use crate::region_lists::atoms::{count_atoms, is_tested};
use crate::region_lists::base_types::{derives, props_of};
use crate::region_lists::flags::flag_values;
use cells::Parts;
use edm_types::{Assoc, EntityModel, EntitySet, EntityType};
use emc_base::{AssocId, PropId, SetId, TypeId};
use region_states::hosting_end;

// The most regions that are counted.
const MOST_COUNTED: u64 = 1_048_576;

/// How many regions a set has, or 1,048,576 where there are more. It makes none, and takes no memory. The time is that of passing the types
/// of the model with their base types, and for each type of the set its properties and the association sets.
pub fn count(parts: &Parts<'_>, set: SetId) -> u64
    requires { AreParts parts.now }
    ensures { result ≡ count_of (basis_of parts.now) set }
{
    match parts.model.sets.get(set.index as usize) {
        Some(entry) => count_of_set(parts, set, entry),
        None => 0,
    }
}

// The same of a set with its entry.
fn count_of_set(parts: &Parts<'_>, set: SetId, entry: &EntitySet) -> u64
    requires { AreParts parts.now }
    ensures { result ≡ capped (sum_by (count_by (basis_of parts.now) set) (types_of (basis_of parts.now) entry.now)) }
{
    let mut total = 0;
    for (index, declared) in parts.model.types.as_slice().iter().enumerate() {
        let ty = TypeId {
            index: index as u32,
        };
        if is_listed(parts.model, entry, ty, declared) {
            total = capped(total + count_of_type(parts, set, ty));
        }
    }
    total
}

/// Whether a type is one of the set's, and concrete.
pub fn is_listed(model: &EntityModel, entry: &EntitySet, ty: TypeId, declared: &EntityType) -> bool
    ensures { result ≡ not declared.now.is_abstract && derives model.now ty entry.now.element }
{
    !declared.is_abstract && derives(model, ty, entry.element)
}

/// How many regions of the set have the type, or 1,048,576 where there are more: the choices of atoms and those of flags, multiplied.
pub fn count_of_type(parts: &Parts<'_>, set: SetId, ty: TypeId) -> u64
    requires { AreParts parts.now }
    ensures { result ≡ capped (count_by (basis_of parts.now) set ty) }
{
    let atoms = count_atom_choices(parts, props_of(parts.model, ty));
    let flags = count_flag_choices(parts, set, ty);
    capped(atoms * flags)
}

// How many choices there are of an atom of each tested property.
fn count_atom_choices(parts: &Parts<'_>, properties: &[PropId]) -> u64
    requires parts { AreParts parts.now }
    requires within { All (λ p. p.index < length parts.now.model.now.props) properties.now }
    ensures { result ≡ capped (product_of (map (λ p. length (atoms_at (basis_of parts.now) p)) (filter (λ p. (basis_of parts.now).tested (prop p)) properties.now))) }
{
    let mut product = 1;
    for property in properties {
        if is_tested(parts, *property) {
            product = capped(product * count_atoms(parts, *property));
        }
    }
    product
}

// How many choices there are of flags of the associations that are hosted at the set.
fn count_flag_choices(parts: &Parts<'_>, set: SetId, ty: TypeId) -> u64
    requires { AreParts parts.now }
    ensures { result ≡ capped (product_of (map (λ host. length (flags_at (basis_of parts.now) ty host)) ((basis_of parts.now).hosts set))) }
{
    let mut product = 1;
    for (index, assoc) in parts.model.assocs.as_slice().iter().enumerate() {
        let id = AssocId {
            index: index as u32,
        };
        product = capped(product * count_flags(parts, set, ty, id, assoc));
    }
    product
}

// How many values the flag of an association has; one where its links aren't hosted at the set.
fn count_flags(parts: &Parts<'_>, set: SetId, ty: TypeId, id: AssocId, assoc: &Assoc) -> u64
    requires parts { AreParts parts.now }
    requires is { At parts.now.model.now.assocs id.index assoc.now }
    ensures count { result ≡ product_of (map (λ host. length (flags_at (basis_of parts.now) ty host)) (host_at parts.now.cells.now.places set (id.index, assoc.now))) }
    ensures bound { result ≤ 2 }
{
    match hosting_end(set, assoc, parts.cells.link_place(id)) {
        Some(first_hosts) => flag_values(parts.model, ty, first_hosts, assoc).len() as u64,
        None => 1,
    }
}

// The number, or the most that is counted.
fn capped(number: u64) -> u64
    ensures { result ≡ capped number }
{
    number.min(MOST_COUNTED)
}
