ghost use Rattle.cells.specs.Parts.{AreParts};

mod forcing;

use crate::printing::put;
use crate::views::all_regions;
use cells::Parts;
use dangling_keys::DanglingKey;
use dangling_search::first_dangling;
pub use forcing::{put_forced, put_forced_again};
use regions::{Focus, Region};
use std::alloc::Global;

/// Puts the foreign key that dangles, by its number, the set and the type of the region or the association whose row refers by it, and those of the region
/// whose row is missing; `none` where no key dangles.
pub fn put_dangling(alloc: Global, text: &mut String, parts: &Parts<'_>) -> Option<()>
    requires { AreParts parts.now }
{
    let regions = all_regions(alloc, parts)?;
    match first_dangling(alloc, parts, &regions).ok()? {
        Some(told) => put_key(alloc, text, &told)?,
        None => text.push_str("none").ok()?,
    }
    text.push_str("\n").ok()
}

// Puts a key that dangles.
fn put_key(alloc: Global, text: &mut String, told: &DanglingKey) -> Option<()> {
    put(alloc, text, "key ", u64::from(told.key.index))?;
    match &told.focus {
        Focus::Entity(region) => put_region(alloc, text, region)?,
        Focus::Link(assoc) => put(alloc, text, " links ", u64::from(assoc.index))?,
    }
    match &told.principal {
        Some(region) => {
            text.push_str(" lacks").ok()?;
            put_region(alloc, text, region)
        }
        None => text.push_str(" nobody").ok(),
    }
}

// Puts the set and the type of a region.
fn put_region(alloc: Global, text: &mut String, region: &Region) -> Option<()> {
    put(alloc, text, " set ", u64::from(region.set.index))?;
    put(alloc, text, " type ", u64::from(region.ty.index))
}
