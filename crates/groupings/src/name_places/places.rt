ghost use Rattle.std.specs.Prelude.{◌≡◌, ◌↔◌, List, ℕ, IfOk, IsTrue, OnOk};
ghost use Rattle.indexmap.specs.IndexMap.{get_by_text};
ghost use Rattle.groupings.specs.name_places.GivenNames.{first_place, noted, IsGivenBefore};
ghost use Rattle.groupings.specs.name_places.PlacesIn.{place_in};

use crate::name_places::hashes::NameHashes;
use crate::name_places::named::Named;
use emc_base::{Memory, Seq, Txt};
use indexmap::IndexMap;
use std::alloc::Global;

/// The names of a list, each with the place where it is given first.
#[derive(Drop)]
pub struct Places {
    by_name: IndexMap<String, usize, NameHashes>,
}

impl Places {
    /// The place where the name is given first, counted from 0; `None` exactly where it is given nowhere.
    pub fn place_of(&self, name: &str) -> Option<usize>
        ensures { result ≡ place_in self.now name.now }
    {
        self.by_name.get(name).copied()
    }

    /// Whether the item's name was given before its place, in any list whose places these are.
    pub fn is_given_before<T: Named>(&self, place: usize, item: &T) -> bool
        ensures { (items : List T) → place_in self.now ≡ first_place T.name_in items → (IsTrue result ↔ IsGivenBefore T.name_in items place item.now) }
    {
        self.place_of(item.name().as_str())
            .is_some_and(|first| first < place)
    }
}

/// The first place of each name in a list. `Memory` comes where memory ran out.
pub fn first_places<T: Named>(alloc: Global, items: &[T]) -> Result<Places, Memory>
    ensures { IfOk result (λ places. place_in places ≡ first_place T.name_in items.now) }
{
    let mut by_name = IndexMap::with_hasher(alloc, NameHashes::of(items));
    for (place, item) in items.iter().enumerate() {
        note_place(alloc, &mut by_name, item.name(), place)?;
    }
    Ok(Places { by_name })
}

/// The first place of each name in a list.
pub fn places_of<T: Named>(alloc: Global, items: &Seq<T>) -> Result<Places, Memory>
    ensures { IfOk result (λ places. place_in places ≡ first_place T.name_in items.now) }
{
    let places = first_places(alloc, items.as_slice())?;
    Ok(places)
}

// Notes the place of a name, unless the name has one.
fn note_place(
    alloc: Global,
    by_name: &mut IndexMap<String, usize, NameHashes>,
    name: &Txt,
    place: usize,
) -> Result<(), Memory>
    ensures { OnOk result ((other : List ℕ) → get_by_text by_name.new other ≡ noted (get_by_text by_name.old) name.now place other) }
{
    let key = name.copy(alloc)?.into_string();
    by_name.entry(key)?.or_insert(place);
    Ok(())
}
