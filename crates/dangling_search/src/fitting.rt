ghost use Rattle.std.specs.Prelude.{◌≡◌, IfOk};
ghost use Rattle.std.specs.List.{list_all};
ghost use Rattle.std.specs.Option.{option_copied};
ghost use Rattle.round_trip.specs.Words.{key_props};
ghost use Rattle.region_states.specs.region_basis.BasisOf.{basis_of};
ghost use Rattle.forced_entities.specs.Forced.{own_member, part_beside, part_in};
ghost use Rattle.dangling_keys.specs.Showing.{fits, is_shown_part, is_symbol, shown_at};
ghost use Rattle.dangling_search.specs.Lent.{IsLook, settled_of};

use crate::shown::{Look, Shown, shown_at};
use crate::target::Owned;
use cells::Parts;
use edm_types::{EntityModel, ForeignKey};
use emc_base::{Memory, PropId, Seq, TypeId};
use forced_entities::Forced;
use regions::{Region, Symbol};
use std::alloc::Global;
use symbolic_rows::same_symbol;

/// Whether an entity that is there has the key that is shown, and is of the set that owns the table.
pub fn fits(
    parts: &Parts<'_>,
    look: Look<'_>,
    key: &ForeignKey,
    owned: &Owned,
    one: &Forced,
) -> bool
    requires { IsLook (basis_of parts.now) look }
    ensures { result ≡ fits (basis_of parts.now) look.entry.of.now key.now owned.now.set owned.now.pairing one.now }
{
    one.set.index == owned.set.index && all_shown(parts, look, key, owned, one)
}

// Whether each part of its key is what is shown for it.
fn all_shown(
    parts: &Parts<'_>,
    look: Look<'_>,
    key: &ForeignKey,
    owned: &Owned,
    one: &Forced,
) -> bool
    requires { IsLook (basis_of parts.now) look }
    ensures { result ≡ list_all (λ pair. is_shown_part (shown_at (basis_of parts.now) look.entry.of.now key.now pair.col) (part_in (basis_of parts.now) one.now pair.prop)) owned.now.pairing }
{
    owned.pairing.as_slice().iter().all(|pair| {
        is_shown_part(
            &shown_at(parts, look, key, pair.col),
            part_in(parts.model, one, pair.prop),
        )
    })
}

// Whether a part of a key is what a cell shows.
fn is_shown_part(shown: &Shown<'_>, part: Option<&Symbol>) -> bool
    ensures { result ≡ is_shown_part (settled_of shown.now) (option_copied part.entry) }
{
    match shown {
        Shown::Nothing | Shown::Known(_) => false,
        Shown::Symbol { one, .. } => is_symbol(one, part),
    }
}

// Whether it is this symbol.
fn is_symbol(one: &Symbol, part: Option<&Symbol>) -> bool
    ensures { result ≡ is_symbol one.now (option_copied part.entry) }
{
    match part {
        Some(part) => same_symbol(part, one),
        None => false,
    }
}

// What is told of a property of an entity.
fn part_in<'a>(model: &EntityModel, one: &'a Forced, prop: PropId) -> Option<&'a Symbol>
    ensures { option_copied result ≡ part_beside prop (key_props model.now one.now.ty) one.now.key }
{
    part_beside(prop, key_props(model, one.ty), one.key.as_slice())
}

// What is told beside a property.
fn part_beside<'a>(
    prop: PropId,
    props: &[PropId],
    parts: &'a [Option<Symbol>],
) -> Option<&'a Symbol>
    ensures { option_copied result ≡ part_beside prop props.now parts.now }
{
    for (other, part) in props.iter().zip(parts) {
        if *other == prop {
            return part.as_ref();
        }
    }
    None
}

// The key properties of a type; none where there is no such type.
fn key_props(model: &EntityModel, t: TypeId) -> &[PropId]
    ensures { result.now ≡ key_props model.now t }
{
    match model.types.get(t.index as usize) {
        Some(declared) => declared.key.as_slice(),
        None => &[],
    }
}

/// The entity of a region by its own properties. `Memory` comes where memory ran out.
pub fn own_member(alloc: Global, parts: &Parts<'_>, region: &Region) -> Result<Forced, Memory>
    ensures { IfOk result (λ one. one ≡ own_member (basis_of parts.now) region.now) }
{
    let mut key = Seq::empty(alloc);
    for prop in key_props(parts.model, region.ty) {
        key.push(Some(Symbol::Prop(*prop)))?;
    }
    Ok(Forced {
        set: region.set,
        ty: region.ty,
        key,
    })
}
