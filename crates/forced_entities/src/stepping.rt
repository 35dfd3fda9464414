ghost use Rattle.std.specs.Prelude.{◌≡◌, [], IfOk, Some, filter, flat_map};
ghost use Rattle.std.specs.List.{cons_option, list_all};
ghost use Rattle.emc_base.specs.Lists.{At};
ghost use Rattle.cells.specs.Parts.{AreParts};
ghost use Rattle.regions.specs.Symbols.{is_linked};
ghost use Rattle.regions.specs.declared.pattern.Focus.TheVariants as focus;
ghost use Rattle.regions.specs.declared.pattern.Symbol.TheVariants as symbol;
ghost use Rattle.region_states.specs.region_basis.BasisOf.{basis_of, host_at, hosts_told};
ghost use Rattle.forced_entities.specs.Forced.{part_in};
ghost use Rattle.forced_entities.specs.Listed.{asked_by, begun, is_arrow, is_known, partner_by, steps};

use crate::known::{all_known, is_arrow, is_covered};
use crate::member::Forced;
use crate::members::{end_member, own_parts, parts_in, principal_member};
use cells::Parts;
use edm_types::Assoc;
use emc_base::{AssocId, Memory, PropId, Seq, put_found};
use region_states::{hosting_end, partner_end};
use regions::{Focus, Region};
use std::alloc::Global;
use symbolic_rows::is_linked;

/// What an entity that is forced leads to. `Memory` comes where memory ran out.
pub fn steps(alloc: Global, parts: &Parts<'_>, from: &Forced) -> Result<Seq<Forced>, Memory>
    requires { AreParts parts.now }
    ensures { IfOk result (λ list. list ≡ steps (basis_of parts.now) from.now) }
{
    let mut list = Seq::empty(alloc);
    for assoc in parts.model.assocs.as_slice() {
        put_found(&mut list, led_by(alloc, parts, from, assoc)?)?;
    }
    Ok(list)
}

// The principal by the constraint of an association, where each entity has one, and its dependent list has a part of the key.
fn led_by(
    alloc: Global,
    parts: &Parts<'_>,
    from: &Forced,
    assoc: &Assoc,
) -> Result<Option<Forced>, Memory>
    requires { AreParts parts.now }
    ensures { IfOk result (λ found. cons_option found []
        ≡ asked_by (basis_of parts.now) (is_arrow (basis_of parts.now)) from.now.set from.now.ty (part_in (basis_of parts.now) from.now) assoc.now) }
{
    let Some(constraint) = &assoc.constraint else {
        return Ok(None);
    };
    if !(is_covered(parts, from.set, from.ty, assoc, constraint)
        && is_arrow(parts, assoc, constraint))
    {
        return Ok(None);
    }
    let told = parts_in(alloc, parts, from, constraint.dependent.as_slice())?;
    Ok(Some(principal_member(alloc, parts, assoc, constraint, &told)?))
}

/// What the focus forces by itself. `Memory` comes where memory ran out.
pub fn begun(
    alloc: Global,
    parts: &Parts<'_>,
    of: &Focus,
    not_null: &[PropId],
) -> Result<Seq<Forced>, Memory>
    requires { AreParts parts.now }
    ensures { IfOk result (λ list. list ≡ begun (basis_of parts.now) of.now not_null.now) }
{
    match of {
        Focus::Entity(region) => begun_by_region(alloc, parts, region, not_null),
        Focus::Link(a) => link_ends(alloc, parts, *a),
    }
}

// What the entities of a region force: their partners, and the principals that they are known to have.
fn begun_by_region(
    alloc: Global,
    parts: &Parts<'_>,
    region: &Region,
    not_null: &[PropId],
) -> Result<Seq<Forced>, Memory>
    requires { AreParts parts.now }
    ensures { IfOk result (λ list. list ≡ begun (basis_of parts.now) (focus.Entity region.now) not_null.now) }
{
    let mut list = partners(alloc, parts, region)?;
    for assoc in parts.model.assocs.as_slice() {
        put_found(&mut list, begun_by(alloc, parts, region, not_null, assoc)?)?;
    }
    Ok(list)
}

// The principal by the constraint of an association, where no dependent property can be null.
fn begun_by(
    alloc: Global,
    parts: &Parts<'_>,
    region: &Region,
    not_null: &[PropId],
    assoc: &Assoc,
) -> Result<Option<Forced>, Memory>
    requires { AreParts parts.now }
    ensures { IfOk result (λ found. cons_option found []
        ≡ asked_by (basis_of parts.now) (λ _ constraint. list_all (is_known (basis_of parts.now) region.now not_null.now) constraint.dependent)
        region.now.set region.now.ty (λ p. Some (symbol.Prop p)) assoc.now) }
{
    let Some(constraint) = &assoc.constraint else {
        return Ok(None);
    };
    let dependent = constraint.dependent.as_slice();
    if !(is_covered(parts, region.set, region.ty, assoc, constraint)
        && all_known(parts, region, not_null, dependent))
    {
        return Ok(None);
    }
    let told = own_parts(alloc, dependent)?;
    Ok(Some(principal_member(alloc, parts, assoc, constraint, &told)?))
}

// The partners by the flags of a region.
fn partners(alloc: Global, parts: &Parts<'_>, region: &Region) -> Result<Seq<Forced>, Memory>
    requires { AreParts parts.now }
    ensures { IfOk result (λ list. list ≡ flat_map (partner_by (basis_of parts.now))
        (filter (λ host. is_linked (basis_of parts.now) region.now.linked host.assoc) ((basis_of parts.now).hosts region.now.set))) }
{
    let mut list = Seq::empty(alloc);
    for (index, assoc) in parts.model.assocs.as_slice().iter().enumerate() {
        let id = AssocId {
            index: index as u32,
        };
        put_found(&mut list, partner(alloc, parts, region, id, assoc)?)?;
    }
    Ok(list)
}

// The partner by an association, if it is hosted at the region's set and the region has a link of it.
fn partner(
    alloc: Global,
    parts: &Parts<'_>,
    region: &Region,
    id: AssocId,
    assoc: &Assoc,
) -> Result<Option<Forced>, Memory>
    requires parts { AreParts parts.now }
    requires here { At parts.now.model.now.assocs id.index assoc.now }
    ensures { IfOk result (λ found. cons_option found [] ≡ flat_map (partner_by (basis_of parts.now))
        (filter (λ host. is_linked (basis_of parts.now) region.now.linked host.assoc) (host_at parts.now.cells.now.places region.now.set (id.index, assoc.now)))) }
{
    let end = hosting_end(region.set, assoc, parts.cells.link_place(id));
    partner_at(alloc, parts, region, id, assoc, end)
}

// The same where it is told which end hosts.
fn partner_at(
    alloc: Global,
    parts: &Parts<'_>,
    region: &Region,
    id: AssocId,
    assoc: &Assoc,
    end: Option<bool>,
) -> Result<Option<Forced>, Memory>
    requires { At parts.now.model.now.assocs id.index assoc.now }
    ensures { IfOk result (λ found. cons_option found [] ≡ flat_map (partner_by (basis_of parts.now))
        (filter (λ host. is_linked (basis_of parts.now) region.now.linked host.assoc) (hosts_told id end))) }
{
    let Some(first_hosts) = end else {
        return Ok(None);
    };
    if !is_linked(region, id) {
        return Ok(None);
    }
    let partner = partner_end(first_hosts, assoc);
    Ok(Some(end_member(alloc, parts, partner, id, !first_hosts)?))
}

// Both ends of a link.
fn link_ends(alloc: Global, parts: &Parts<'_>, a: AssocId) -> Result<Seq<Forced>, Memory>
    ensures { IfOk result (λ list. list ≡ begun (basis_of parts.now) (focus.Link a) []) }
{
    let mut list = Seq::empty(alloc);
    if let Some(assoc) = parts.model.assocs.get(a.index as usize) {
        list.push(end_member(alloc, parts, &assoc.first, a, true)?)?;
        list.push(end_member(alloc, parts, &assoc.second, a, false)?)?;
    }
    Ok(list)
}
