ghost use Rattle.std.specs.Prelude.{◌≡◌, IfOk};
ghost use Rattle.member_groups.specs.joined_groups.Writes.{AreLinks, AreMore, link_by};

use crate::joined_groups::places::Places;
use edm_types::{Fragment, Pair};
use emc_base::{Memory, TableId};
use groupings::Link;
use std::alloc::Global;

/// The links of all pairs of these fragments whose property and column have places.
pub fn links_of(alloc: Global, places: &Places, fragments: &[Fragment]) -> Result<Vec<Link>, Memory>
    ensures { IfOk result (λ links. AreLinks places.now fragments.now links.items) }
{
    let mut links = Vec::new(alloc);
    for fragment in fragments {
        add_links(&mut links, places, fragment)?;
    }
    Ok(links)
}

// Adds the links of one fragment.
fn add_links(links: &mut Vec<Link>, places: &Places, fragment: &Fragment) -> Result<(), Memory>
    ensures { IfOk result (λ _. AreMore places.now fragment.now.table fragment.now.pairs links.old.items links.new.items) }
{
    for pair in fragment.pairs.as_slice() {
        if let Some(link) = link_of(places, fragment.table, *pair) {
            links.push(link)?;
        }
    }
    Ok(())
}

// The link of a pair, if its property and its column have places.
fn link_of(places: &Places, table: TableId, pair: Pair) -> Option<Link>
    ensures { result ≡ link_by places.now table pair }
{
    let one = places.of_prop(pair.prop)?;
    let other = places.of_column(table, pair.col)?;
    Some(Link { one, other })
}
