ghost use Rattle.std.specs.Prelude.{◌≡◌, ◌≢◌, ◌<◌, length};
ghost use Rattle.cells.specs.Parts.{AreParts, schema_in};
ghost use Rattle.region_states.specs.region_basis.BasisOf.{basis_of};
ghost use Rattle.regions.specs.Regions.{regions_of};
ghost use Rattle.round_trip.specs.declared.FailKind.TheVariants as fails;

mod all_pairs;
mod failures;

use crate::region_counts::MOST_REGIONS;
use all_pairs::has_same_tables;
use cells::Parts;
use containment::{first_conflict, first_link_conflict};
use emc_base::{AssocId, Seq, SetId};
pub use failures::put_failure;
use region_partition::regions;
use region_states::Conflict;
use regions::Region;
use round_trip::FailKind;
use std::alloc::Global;

/// Puts a line for each set, with the conflict of each kind at its regions, and whether all pairs of regions tell that two states have the same tables; and
/// a line for each association, with the conflict of each kind at its links.
pub fn put_conflicts(alloc: Global, text: &mut String, parts: &Parts<'_>) -> Option<()>
    requires { AreParts parts.now }
{
    for place in 0..parts.model.sets.len() {
        let set = SetId {
            index: place as u32,
        };
        let found = regions(alloc, parts, set, MOST_REGIONS).ok()?;
        let put = put_set(alloc, text, parts, set, &found);
        drop(found);
        put?;
        text.push_str("\n").ok()?;
    }
    for place in 0..parts.model.assocs.len() {
        let assoc = AssocId {
            index: place as u32,
        };
        put_links(alloc, text, parts, assoc)?;
    }
    Some(())
}

// Puts a line with the conflict of each kind at the links of an association.
fn put_links(alloc: Global, text: &mut String, parts: &Parts<'_>, assoc: AssocId) -> Option<()>
    requires parts { AreParts parts.now }
    requires assoc { assoc.index < length (schema_in parts.now).model.assocs }
{
    put_link_conflict(alloc, text, parts, FailKind::Clash, assoc)?;
    put_link_conflict(alloc, text, parts, FailKind::Null, assoc)?;
    put_link_conflict(alloc, text, parts, FailKind::Disagrees, assoc)?;
    put_link_conflict(alloc, text, parts, FailKind::Same, assoc)?;
    text.push_str("\n").ok()
}

// Puts the conflict of a kind.
fn put_link_conflict(
    alloc: Global,
    text: &mut String,
    parts: &Parts<'_>,
    kind: FailKind,
    assoc: AssocId,
) -> Option<()>
    requires parts { AreParts parts.now }
    requires kind { kind ≢ fails.Dangling }
    requires assoc { assoc.index < length (schema_in parts.now).model.assocs }
{
    let found = first_link_conflict(alloc, parts, kind, assoc).ok()?;
    let word = word_of(&found);
    drop(found);
    text.push_str(word).ok()
}

// Puts the conflict of each kind at the regions of a set, and what all pairs of these tell.
fn put_set(
    alloc: Global,
    text: &mut String,
    parts: &Parts<'_>,
    set: SetId,
    found: &Seq<Region>,
) -> Option<()>
    requires parts { AreParts parts.now }
    requires regions { found.now ≡ regions_of (basis_of parts.now) set }
{
    put_conflict(alloc, text, parts, FailKind::Clash, set, found)?;
    put_conflict(alloc, text, parts, FailKind::Null, set, found)?;
    put_conflict(alloc, text, parts, FailKind::Disagrees, set, found)?;
    put_conflict(alloc, text, parts, FailKind::Same, set, found)?;
    let word = match has_same_tables(alloc, parts, found.as_slice()).ok()? {
        true => " alike",
        false => " apart",
    };
    text.push_str(word).ok()
}

// Puts the conflict of a kind.
fn put_conflict(
    alloc: Global,
    text: &mut String,
    parts: &Parts<'_>,
    kind: FailKind,
    set: SetId,
    regions: &Seq<Region>,
) -> Option<()>
    requires parts { AreParts parts.now }
    requires kind { kind ≢ fails.Dangling }
    requires regions { regions.now ≡ regions_of (basis_of parts.now) set }
{
    let found = first_conflict(alloc, parts, kind, set, regions).ok()?;
    let word = word_of(&found);
    drop(found);
    text.push_str(word).ok()
}

// A word for a conflict, or for none.
fn word_of(found: &Option<Conflict>) -> &'static str {
    match found {
        None => "none;",
        Some(conflict) => word_of_conflict(conflict),
    }
}

// The same where there is one.
fn word_of_conflict(conflict: &Conflict) -> &'static str {
    match conflict {
        Conflict::Clash { .. } => "clash;",
        Conflict::ManyLinks(_) => "manylinks;",
        Conflict::NullIn { .. } => "null;",
        Conflict::Disagree { .. } => "disagree;",
        Conflict::Absent(_) => "absent;",
        Conflict::Rival { .. } => "rivals;",
        Conflict::Lost { .. } => "lost;",
        Conflict::Unmapped(_) => "unmapped;",
    }
}
