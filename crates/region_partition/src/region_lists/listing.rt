ghost use Rattle.std.specs.Prelude.{◌≡◌, ◌≤◌, ◌++◌, IfOk, flat_map, length, map};
ghost use Rattle.cells.specs.Parts.{AreParts};
ghost use Rattle.regions.specs.Regions.{regions_by, regions_of, types_of};
ghost use Rattle.region_states.specs.region_basis.BasisOf.{basis_of};
ghost use Rattle.region_partition.specs.region_lists.Listing.{region_with};
ghost use Rattle.region_partition.specs.region_lists.Outcome.{TellsLimit};

use crate::region_lists::base_types::props_of;
use crate::region_lists::choices::{atom_choices, copied_list, linked_choices};
use crate::region_lists::counting::{count, is_listed};
use cells::Parts;
use condition_logic::AtomOf;
use edm_types::EntitySet;
use emc_base::{AssocId, Memory, Seq, SetId, TypeId};
use regions::Region;
use std::alloc::Global;

/// Why the regions of a set aren't listed.
#[derive(Drop)]
pub enum RegionsFault {
    /// There are more than are allowed.
    Limit {
        /// How many there are, or 1,048,576 where there are more.
        counted: u64,
        allowed: u64,
    },
    /// Memory ran out.
    Memory,
}

impl From<Memory> for RegionsFault {
    ghost use Rattle.std.specs.Prelude.{◌≡◌};
    ghost use Rattle.region_partition.specs.declared.region_lists.listing.RegionsFault.TheVariants as fault;

    ghost from_gives = { λ _ given. given ≡ fault.Memory };

    fn from(_memory: Memory) -> RegionsFault {
        RegionsFault::Memory
    }
}

/// The regions of a set in their order: by type, then by the atoms of its tested properties, then by the flags of the associations hosted at
/// the set; the last one varies fastest. `Limit` comes exactly where there are more than allowed, and then none is made; `Memory` where
/// memory ran out. The time is that of `count`, and for each type that of writing its regions once for each of its tested properties and each
/// association that is hosted at the set.
pub fn regions(
    alloc: Global,
    parts: &Parts<'_>,
    set: SetId,
    allowed: u64,
) -> Result<Seq<Region>, RegionsFault>
    requires parts { AreParts parts.now }
    requires few { allowed ≤ 16384 }
    ensures ok { IfOk result (λ regions. (regions ≡ regions_of (basis_of parts.now) set) × (length regions ≤ allowed)) }
    ensures limit { TellsLimit (basis_of parts.now) set allowed result }
{
    let counted = count(parts, set);
    if counted > allowed {
        return Err(RegionsFault::Limit { counted, allowed });
    }
    match parts.model.sets.get(set.index as usize) {
        Some(entry) => Ok(regions_of_set(alloc, parts, set, entry)?),
        None => Ok(Seq::empty(alloc)),
    }
}

// The same of a set with its entry, however many there are.
fn regions_of_set(
    alloc: Global,
    parts: &Parts<'_>,
    set: SetId,
    entry: &EntitySet,
) -> Result<Seq<Region>, Memory>
    requires { AreParts parts.now }
    ensures { IfOk result (λ regions. regions ≡ flat_map (regions_by (basis_of parts.now) set) (types_of (basis_of parts.now) entry.now)) }
{
    let mut regions = Seq::empty(alloc);
    for (index, declared) in parts.model.types.as_slice().iter().enumerate() {
        let ty = TypeId {
            index: index as u32,
        };
        if is_listed(parts.model, entry, ty, declared) {
            add_of_type(alloc, &mut regions, parts, set, ty)?;
        }
    }
    Ok(regions)
}

// Adds the regions that have the type.
fn add_of_type(
    alloc: Global,
    regions: &mut Seq<Region>,
    parts: &Parts<'_>,
    set: SetId,
    ty: TypeId,
) -> Result<(), Memory>
    requires { AreParts parts.now }
    ensures { IfOk result (λ _. regions.new ≡ regions.old ++ regions_by (basis_of parts.now) set ty) }
{
    let chosen = atom_choices(alloc, parts, props_of(parts.model, ty))?;
    let linked = linked_choices(alloc, parts, set, ty)?;
    add_chosen(alloc, regions, set, ty, &chosen, &linked)
}

// Adds a region for each choice of atoms and each choice of links.
fn add_chosen(
    alloc: Global,
    regions: &mut Seq<Region>,
    set: SetId,
    ty: TypeId,
    chosen: &Seq<Seq<AtomOf>>,
    linked: &Seq<Seq<AssocId>>,
) -> Result<(), Memory>
    ensures { IfOk result (λ _. regions.new ≡ regions.old ++ flat_map (λ atoms. map (region_with set ty atoms) linked.now) chosen.now) }
{
    for atoms in chosen.as_slice() {
        add_linked(alloc, regions, set, ty, atoms, linked.as_slice())?;
    }
    Ok(())
}

// Adds a region with these atoms for each choice of links.
fn add_linked(
    alloc: Global,
    regions: &mut Seq<Region>,
    set: SetId,
    ty: TypeId,
    atoms: &Seq<AtomOf>,
    linked: &[Seq<AssocId>],
) -> Result<(), Memory>
    ensures { IfOk result (λ _. regions.new ≡ regions.old ++ map (region_with set ty atoms.now) linked.now) }
{
    for assocs in linked {
        regions.push(Region {
            set,
            ty,
            atoms: copied_list(alloc, atoms)?,
            linked: copied_list(alloc, assocs)?,
        })?;
    }
    Ok(())
}
