ghost use Rattle.std.specs.Prelude.{◌≡◌, ◌<◌, ◌++◌, ◌∷◌, [], ℕ, length, set, if◌then◌else◌, IfOk, OnOk};
ghost use Rattle.std.specs.List.{cons_option};
ghost use Rattle.std.specs.Option.{option_map_or};
ghost use Rattle.graphs.specs.base_chains.Chains.{base_at};
ghost use Rattle.graphs.specs.base_chains.Walks.{IsBasesFirst};
ghost use Rattle.csdl_meaning.specs.csdl_making.Making.{chain_list, list_at};

use emc_base::{Memory, PropId, Seq};
use std::alloc::Global;
use std::mem;

/// Puts a place at the end of a list, where it is kept.
pub(super) fn put_kept(list: &mut Seq<usize>, place: usize, keep: bool) -> Result<(), Memory>
    ensures { OnOk result (list.new ≡ list.old ++ (if keep then place ∷ [] else [])) }
{
    if keep {
        return list.push(place);
    }
    Ok(())
}

/// Puts a place at the end of one of the lists, if one is named.
pub(super) fn put_at(
    lists: &mut Vec<Seq<usize>>,
    at: Option<usize>,
    place: usize,
) -> Result<(), Memory>
    ensures { OnOk result (lists.new.items ≡ option_map_or (λ i. set lists.old.items i (list_at lists.old.items i ++ place ∷ [])) at lists.old.items) }
{
    let Some(at) = at else {
        return Ok(());
    };
    match lists.get_mut(at) {
        None => Ok(()),
        Some(list) => list.push(place),
    }
}

/// Takes one of the lists out, and leaves an empty one.
pub(super) fn take_at(alloc: Global, lists: &mut Vec<Seq<PropId>>, place: usize) -> Seq<PropId>
    ensures list { result ≡ list_at lists.old.items place }
    ensures left { lists.new.items ≡ set lists.old.items place [] }
{
    match lists.get_mut(place) {
        None => Seq::empty(alloc),
        Some(list) => mem::replace(list, Seq::empty(alloc)),
    }
}

/// For each place what it and all that stand above it have, that of the root first, from what each has of its own and an order in which
/// each follows its base.
pub(super) fn inherited(
    alloc: Global,
    own: Vec<Seq<PropId>>,
    bases: &[Option<usize>],
    order: &[usize],
) -> Result<Vec<Seq<PropId>>, Memory>
    requires alike { length own.items ≡ length bases.now }
    requires order { IsBasesFirst (base_at bases.now) (length bases.now) order.now }
    ensures { IfOk result (λ lists. (i : ℕ) → i < length bases.now → list_at lists.items i ≡ chain_list (base_at bases.now) (length bases.now) own.items i) }
{
    let mut lists = own;
    for place in order {
        let list = with_base(alloc, lists.as_slice(), bases[*place], *place)?;
        lists[*place] = list;
    }
    Ok(lists)
}

// The list of a base, where there is one, and then the own one.
fn with_base(
    alloc: Global,
    lists: &[Seq<PropId>],
    base: Option<usize>,
    place: usize,
) -> Result<Seq<PropId>, Memory>
    ensures { IfOk result (λ list. list ≡ option_map_or (list_at lists.now) base [] ++ list_at lists.now place) }
{
    let mut list = Seq::empty(alloc);
    if let Some(base) = base {
        put_all(&mut list, lists.get(base))?;
    }
    put_all(&mut list, lists.get(place))?;
    Ok(list)
}

// Puts all items of a list, if there is one, at the end of another.
fn put_all(list: &mut Seq<PropId>, more: Option<&Seq<PropId>>) -> Result<(), Memory>
    ensures { OnOk result (list.new ≡ list.old ++ option_map_or (λ items. items.now) more.entry []) }
{
    let Some(more) = more else {
        return Ok(());
    };
    for item in more.as_slice() {
        list.push(*item)?;
    }
    Ok(())
}
