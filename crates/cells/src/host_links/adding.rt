ghost use Rattle.std.specs.Prelude.{◌≡◌, ◌<◌, ◌++◌, ◌∷◌, [], List, IfOk, false, length};
ghost use Rattle.std.specs.BTreeMap.{get};
ghost use Rattle.std.specs.Cmp.Lexicographic.{slice_cmp};
ghost use Rattle.std.specs.Ordering.{is_eq};
ghost use Rattle.emc_base.specs.Order.{value_cmp};
ghost use Rattle.round_trip.specs.Words.{Value};
ghost use Rattle.cells.specs.HostedLinks.{host_key, host_set, hosted_at, of_key, partner_key};
ghost use Rattle.cells.specs.host_links.Grouped.{links_at_key, links_of};

use crate::LinkPlace;
use edm_types::{Assoc, Hosted, Link};
use emc_base::{AssocId, Key, KeyRef, Memory, Seq, SetId};
use std::alloc::Global;
use std::collections::BTreeMap;

/// Adds the links of one association set, each behind those of the entity that hosts it. `Memory` comes where memory ran out.
pub fn add_hosted<'s>(
    alloc: Global,
    by_set: &mut Vec<BTreeMap<KeyRef<'s>, Seq<Hosted>>>,
    place: LinkPlace,
    id: AssocId,
    assoc: &Assoc,
    links: &'s [Link],
) -> Result<(), Memory>
    requires first { assoc.now.first.set.index < length by_set.old.items }
    requires second { assoc.now.second.set.index < length by_set.old.items }
    ensures size { IfOk result (λ _. length by_set.new.items ≡ length by_set.old.items) }
    ensures added { IfOk result (λ _. (s : SetId) (key : List Value)
        → links_of by_set.new.items [] s key ≡ links_of by_set.old.items [] s key ++ hosted_at place id assoc.now s key links.now) }
{
    let LinkPlace::Hosted { first_hosts, .. } = place else {
        return Ok(());
    };
    let host = host_set(first_hosts, assoc);
    let by_key = &mut by_set[host.index as usize];
    add_links(alloc, by_key, first_hosts, id, links)?;
    Ok(())
}

// Adds links, each at the key of the entity that hosts it.
fn add_links<'s>(
    alloc: Global,
    by_key: &mut BTreeMap<KeyRef<'s>, Seq<Hosted>>,
    first_hosts: bool,
    id: AssocId,
    links: &'s [Link],
) -> Result<(), Memory>
    ensures { IfOk result (λ _. (key : List Value) → links_at_key by_key.new [] key ≡ links_at_key by_key.old [] key ++ of_key first_hosts id key links.now) }
{
    for link in links {
        let key = KeyRef::of(host_key(first_hosts, link));
        let partner = partner_key(first_hosts, link).copy(alloc)?;
        add_link(alloc, by_key, key, Hosted { assoc: id, partner })?;
    }
    Ok(())
}

// Adds a link at the key of the entity that hosts it.
fn add_link<'s>(
    alloc: Global,
    by_key: &mut BTreeMap<KeyRef<'s>, Seq<Hosted>>,
    key: KeyRef<'s>,
    hosted: Hosted,
) -> Result<(), Memory>
    ensures own { IfOk result (λ _. links_at_key by_key.new [] key.entry ≡ links_at_key by_key.old [] key.entry ++ hosted ∷ []) }
    ensures others { IfOk result (λ _. (other : List Value) → is_eq (slice_cmp value_cmp key.entry other) ≡ false
        → get (slice_cmp value_cmp) by_key.new other ≡ get (slice_cmp value_cmp) by_key.old other) }
{
    by_key
        .entry(key)?
        .or_insert(Seq::empty(alloc))
        .push(hosted)?;
    Ok(())
}

// The set of the end that hosts.
fn host_set(first_hosts: bool, assoc: &Assoc) -> SetId
    ensures { result ≡ host_set first_hosts assoc.now }
{
    if first_hosts {
        assoc.first.set
    } else {
        assoc.second.set
    }
}

// The key of the entity that hosts a link.
fn host_key(first_hosts: bool, link: &Link) -> &Key
    ensures { result.now ≡ host_key first_hosts link.now }
{
    if first_hosts {
        &link.first
    } else {
        &link.second
    }
}

// The key of its partner.
fn partner_key(first_hosts: bool, link: &Link) -> &Key
    ensures { result.now ≡ partner_key first_hosts link.now }
{
    if first_hosts {
        &link.second
    } else {
        &link.first
    }
}
