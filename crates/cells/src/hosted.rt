ghost use Rattle.std.specs.Prelude.{◌≡◌, ◌<◌, ◌++◌, ◌↔◌, IfOk, IsTrue, length};
ghost use Rattle.cells.specs.Parts.{CoverModel};
ghost use Rattle.cells.specs.HostedLinks.{host_key, host_set, hosted_at, hosted_links, of_key, partner_key};

use crate::cells::Cells;
use edm_types::{Assoc, EntityModel, Hosted, Link};
use emc_base::{AssocId, Key, Memory, Seq, SetId};
use entity_state::{EntityState, links_at};
use std::alloc::Global;
use table_owners::LinkPlace;

/// The links that an entity hosts, by where the cells tell that links stand: by association set, and then in the order of their list.
/// `Memory` comes where memory ran out.
pub fn hosted_links(
    alloc: Global,
    model: &EntityModel,
    cells: &Cells,
    state: &EntityState,
    set: SetId,
    key: &Key,
) -> Result<Seq<Hosted>, Memory>
    requires { CoverModel model.now cells.now }
    ensures { IfOk result (λ found. found ≡ hosted_links model.now cells.now state.now set key.now) }
{
    let mut found = Seq::empty(alloc);
    let lists = state.link_lists();
    for (index, assoc) in model.assocs.as_slice().iter().enumerate() {
        let id = AssocId {
            index: index as u32,
        };
        let host = Host {
            set,
            key,
            place: cells.link_place(id),
        };
        add_hosted(alloc, &mut found, &host, id, assoc, links_at(lists, id))?;
    }
    Ok(found)
}

// An entity by its set and its key, and where the links of an association set stand.
#[derive(Drop)]
struct Host<'k> {
    set: SetId,
    key: &'k Key,
    place: LinkPlace,
}

// Adds the links of one association set that the entity hosts.
fn add_hosted(
    alloc: Global,
    found: &mut Seq<Hosted>,
    host: &Host<'_>,
    id: AssocId,
    assoc: &Assoc,
    links: &[Link],
) -> Result<(), Memory>
    ensures { IfOk result (λ _. found.new ≡ found.old ++ hosted_at host.now.place id assoc.now host.now.set host.now.key.now links.now) }
{
    let LinkPlace::Hosted { first_hosts, .. } = host.place else {
        return Ok(());
    };
    if host_set(first_hosts, assoc) != host.set {
        return Ok(());
    }
    add_of_key(alloc, found, first_hosts, id, host.key, links)
}

// Adds those of these links whose hosting end has the key.
fn add_of_key(
    alloc: Global,
    found: &mut Seq<Hosted>,
    first_hosts: bool,
    id: AssocId,
    key: &Key,
    links: &[Link],
) -> Result<(), Memory>
    ensures { IfOk result (λ _. found.new ≡ found.old ++ of_key first_hosts id key.now links.now) }
{
    for link in links {
        if host_key(first_hosts, link) == key {
            let partner = partner_key(first_hosts, link).copy(alloc)?;
            found.push(Hosted { assoc: id, partner })?;
        }
    }
    Ok(())
}

// The set of the end that hosts.
fn host_set(first_hosts: bool, assoc: &Assoc) -> SetId
    ensures { result ≡ host_set first_hosts assoc.now }
{
    if first_hosts {
        assoc.first.set
    } else {
        assoc.second.set
    }
}

// The key of the entity that hosts a link.
fn host_key(first_hosts: bool, link: &Link) -> &Key
    ensures { result.now ≡ host_key first_hosts link.now }
{
    if first_hosts {
        &link.first
    } else {
        &link.second
    }
}

// The key of its partner.
fn partner_key(first_hosts: bool, link: &Link) -> &Key
    ensures { result.now ≡ partner_key first_hosts link.now }
{
    if first_hosts {
        &link.second
    } else {
        &link.first
    }
}
