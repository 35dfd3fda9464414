ghost use Rattle.std.specs.Prelude.{◌≡◌, ◌<◌, ◌++◌, ◌∷◌, [], All, IfOk, filter, length, map};
ghost use Rattle.round_trip.specs.soundness.mappings.Joined.{prop};
ghost use Rattle.cells.specs.Parts.{AreParts};
ghost use Rattle.regions.specs.Lists.{choices};
ghost use Rattle.regions.specs.Regions.{atoms_at, flagged, flags_at};
ghost use Rattle.region_states.specs.region_basis.BasisOf.{basis_of};
ghost use Rattle.region_partition.specs.region_lists.Listing.{beside, joined_choices};

use crate::region_lists::atoms::{atoms_at, is_tested};
use crate::region_lists::flags::flag_values;
use cells::Parts;
use condition_logic::AtomOf;
use emc_base::{AssocId, Memory, PropId, Seq, SetId, TypeId};
use region_states::hosting_end;
use std::alloc::Global;

// An atom of each tested property, for each choice, in their order; the last one varies fastest.
pub(super) fn atom_choices(
    alloc: Global,
    parts: &Parts<'_>,
    properties: &[PropId],
) -> Result<Seq<Seq<AtomOf>>, Memory>
    requires parts { AreParts parts.now }
    requires within { All (λ p. p.index < length parts.now.model.now.props) properties.now }
    ensures { IfOk result (λ lists. lists ≡ choices (map (atoms_at (basis_of parts.now)) (filter (λ p. (basis_of parts.now).tested (prop p)) properties.now))) }
{
    let mut chosen = single(alloc, Seq::empty(alloc))?;
    for property in properties {
        if is_tested(parts, *property) {
            let atoms = atoms_at(alloc, parts, *property)?;
            chosen = with_atoms(alloc, &chosen, &atoms)?;
        }
    }
    Ok(chosen)
}

// The associations whose links are there, for each choice of flags, in their order; the last one varies fastest.
pub(super) fn linked_choices(
    alloc: Global,
    parts: &Parts<'_>,
    set: SetId,
    ty: TypeId,
) -> Result<Seq<Seq<AssocId>>, Memory>
    requires { AreParts parts.now }
    ensures { IfOk result (λ lists. lists ≡ joined_choices (map (flags_at (basis_of parts.now) ty) ((basis_of parts.now).hosts set))) }
{
    let mut linked = single(alloc, Seq::empty(alloc))?;
    for (index, assoc) in parts.model.assocs.as_slice().iter().enumerate() {
        let id = AssocId {
            index: index as u32,
        };
        if let Some(first_hosts) = hosting_end(set, assoc, parts.cells.link_place(id)) {
            let flags = flag_values(parts.model, ty, first_hosts, assoc);
            linked = with_flags(alloc, &linked, id, flags)?;
        }
    }
    Ok(linked)
}

// Each of the lists with each of the flags behind it.
fn with_flags(
    alloc: Global,
    linked: &Seq<Seq<AssocId>>,
    id: AssocId,
    flags: &[bool],
) -> Result<Seq<Seq<AssocId>>, Memory>
    ensures { IfOk result (λ lists. lists ≡ beside linked.now (map (flagged id) flags.now)) }
{
    let lists = flag_lists(alloc, id, flags)?;
    beside(alloc, linked, &lists)
}

// Each flag as a list: the association where a link is there.
fn flag_lists(alloc: Global, id: AssocId, flags: &[bool]) -> Result<Seq<Seq<AssocId>>, Memory>
    ensures { IfOk result (λ lists. lists ≡ map (flagged id) flags.now) }
{
    let mut lists = Seq::empty(alloc);
    for flag in flags {
        lists.push(flagged(alloc, id, *flag)?)?;
    }
    Ok(lists)
}

// A flag as a list.
fn flagged(alloc: Global, id: AssocId, flag: bool) -> Result<Seq<AssocId>, Memory>
    ensures { IfOk result (λ list. list ≡ flagged id flag) }
{
    let mut list = Seq::empty(alloc);
    if flag {
        list.push(id)?;
    }
    Ok(list)
}

// A list of one item.
fn single<T: Drop>(alloc: Global, item: T) -> Result<Seq<T>, Memory>
    ensures { IfOk result (λ list. list ≡ item ∷ []) }
{
    let mut list = Seq::empty(alloc);
    list.push(item)?;
    Ok(list)
}

// Each of the lists with each of the atoms behind it.
fn with_atoms(
    alloc: Global,
    chosen: &Seq<Seq<AtomOf>>,
    atoms: &Seq<AtomOf>,
) -> Result<Seq<Seq<AtomOf>>, Memory>
    ensures { IfOk result (λ lists. lists ≡ beside chosen.now (map (λ atom. atom ∷ []) atoms.now)) }
{
    let lists = singles(alloc, atoms.as_slice())?;
    beside(alloc, chosen, &lists)
}

// Each atom as a list.
fn singles(alloc: Global, atoms: &[AtomOf]) -> Result<Seq<Seq<AtomOf>>, Memory>
    ensures { IfOk result (λ lists. lists ≡ map (λ atom. atom ∷ []) atoms.now) }
{
    let mut lists = Seq::empty(alloc);
    for atom in atoms {
        lists.push(single(alloc, copied(atom)?)?)?;
    }
    Ok(lists)
}

// An equal atom.
fn copied(atom: &AtomOf) -> Result<AtomOf, Memory>
    ensures { IfOk result (λ copy. copy ≡ atom.now) }
{
    Ok(atom.clone()?)
}

// Each of the first lists with each of the second ones behind it.
fn beside<T: Clone>(
    alloc: Global,
    firsts: &Seq<Seq<T>>,
    seconds: &Seq<Seq<T>>,
) -> Result<Seq<Seq<T>>, Memory>
    requires exact { (x c : T) → T.is_clone x c → c ≡ x }
    ensures { IfOk result (λ lists. lists ≡ beside firsts.now seconds.now) }
{
    let mut lists = Seq::empty(alloc);
    for first in firsts.as_slice() {
        add_beside(alloc, &mut lists, first, seconds.as_slice())?;
    }
    Ok(lists)
}

// Adds a list with each of the second ones behind it.
fn add_beside<T: Clone>(
    alloc: Global,
    lists: &mut Seq<Seq<T>>,
    first: &Seq<T>,
    seconds: &[Seq<T>],
) -> Result<(), Memory>
    requires exact { (x c : T) → T.is_clone x c → c ≡ x }
    ensures { IfOk result (λ _. lists.new ≡ lists.old ++ map (λ second. first.now ++ second) seconds.now) }
{
    for second in seconds {
        lists.push(joined(alloc, first, second)?)?;
    }
    Ok(())
}

// A list with another behind it.
fn joined<T: Clone>(alloc: Global, first: &Seq<T>, second: &Seq<T>) -> Result<Seq<T>, Memory>
    requires exact { (x c : T) → T.is_clone x c → c ≡ x }
    ensures { IfOk result (λ list. list ≡ first.now ++ second.now) }
{
    let mut list = copied_list(alloc, first)?;
    add_copies(&mut list, second.as_slice())?;
    Ok(list)
}

// An equal list.
pub(super) fn copied_list<T: Clone>(alloc: Global, items: &Seq<T>) -> Result<Seq<T>, Memory>
    requires exact { (x c : T) → T.is_clone x c → c ≡ x }
    ensures { IfOk result (λ list. list ≡ items.now) }
{
    let mut list = Seq::empty(alloc);
    add_copies(&mut list, items.as_slice())?;
    Ok(list)
}

// Adds a copy of each item.
fn add_copies<T: Clone>(list: &mut Seq<T>, items: &[T]) -> Result<(), Memory>
    requires exact { (x c : T) → T.is_clone x c → c ≡ x }
    ensures { IfOk result (λ _. list.new ≡ list.old ++ items.now) }
{
    for item in items {
        list.push(item.clone()?)?;
    }
    Ok(())
}
