ghost use Rattle.std.specs.Prelude.{◌≡◌, IfOk, Some, map};
ghost use Rattle.regions.specs.declared.pattern.Symbol.TheVariants as symbol;
ghost use Rattle.round_trip.specs.Words.{principal_end};
ghost use Rattle.region_states.specs.region_basis.BasisOf.{basis_of};
ghost use Rattle.forced_entities.specs.Forced.{forced_at, part_beside, part_in};

use crate::known::{key_props, principal_end};
use crate::member::Forced;
use cells::Parts;
use edm_types::{Assoc, Constraint, End};
use emc_base::{AssocId, Memory, PropId, Seq};
use regions::Symbol;
use std::alloc::Global;
use symbolic_rows::copy_symbol;

/// The entity at an end of a link, whose key has the symbols of this end.
pub fn end_member(
    alloc: Global,
    parts: &Parts<'_>,
    end: &End,
    assoc: AssocId,
    first: bool,
) -> Result<Forced, Memory>
    ensures { IfOk result (λ one. one ≡ forced_at (basis_of parts.now) end.now.set end.now.ty (λ p. Some (symbol.End assoc first p))) }
{
    let mut key = Seq::empty(alloc);
    for prop in key_props(parts.model, end.ty) {
        key.push(Some(Symbol::End {
            assoc,
            first,
            prop: *prop,
        }))?;
    }
    Ok(Forced {
        set: end.set,
        ty: end.ty,
        key,
    })
}

/// The principal by a constraint, where this is told of the dependent properties, in their order.
pub fn principal_member(
    alloc: Global,
    parts: &Parts<'_>,
    assoc: &Assoc,
    constraint: &Constraint,
    told: &[Option<Symbol>],
) -> Result<Forced, Memory>
    ensures { IfOk result (λ one. one ≡ forced_at (basis_of parts.now) (principal_end assoc.now constraint.now).set (principal_end assoc.now constraint.now).ty
        (λ p. part_beside p constraint.now.principal told.now)) }
{
    let end = principal_end(assoc, constraint);
    let mut key = Seq::empty(alloc);
    for prop in key_props(parts.model, end.ty) {
        key.push(part_beside(alloc, *prop, constraint.principal.as_slice(), told)?)?;
    }
    Ok(Forced {
        set: end.set,
        ty: end.ty,
        key,
    })
}

// What is told beside a property.
fn part_beside(
    alloc: Global,
    prop: PropId,
    props: &[PropId],
    parts: &[Option<Symbol>],
) -> Result<Option<Symbol>, Memory>
    ensures { IfOk result (λ part. part ≡ part_beside prop props.now parts.now) }
{
    for (other, part) in props.iter().zip(parts) {
        if *other == prop {
            return copy_part(alloc, part);
        }
    }
    Ok(None)
}

// The same.
fn copy_part(alloc: Global, part: &Option<Symbol>) -> Result<Option<Symbol>, Memory>
    ensures { IfOk result (λ copy. copy ≡ part.now) }
{
    match part {
        Some(symbol) => Ok(Some(copy_symbol(alloc, symbol)?)),
        None => Ok(None),
    }
}

/// What an entity of a region tells of its properties: their own symbols.
pub fn own_parts(alloc: Global, props: &[PropId]) -> Result<Vec<Option<Symbol>>, Memory>
    ensures { IfOk result (λ told. told.items ≡ map (λ p. Some (symbol.Prop p)) props.now) }
{
    let mut told = Vec::with_capacity(alloc, props.len())?;
    for prop in props {
        told.push(Some(Symbol::Prop(*prop)))?;
    }
    Ok(told)
}

/// What is known of some properties of an entity that is forced.
pub fn parts_in(
    alloc: Global,
    parts: &Parts<'_>,
    from: &Forced,
    props: &[PropId],
) -> Result<Vec<Option<Symbol>>, Memory>
    ensures { IfOk result (λ told. told.items ≡ map (part_in (basis_of parts.now) from.now) props.now) }
{
    let keys = key_props(parts.model, from.ty);
    let mut told = Vec::with_capacity(alloc, props.len())?;
    for prop in props {
        told.push(part_beside(alloc, *prop, keys, from.key.as_slice())?)?;
    }
    Ok(told)
}
