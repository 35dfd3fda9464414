ghost use Rattle.std.specs.Prelude.{◌≡◌, ◌↔◌, All, IfOk, IsSome, IsTrue, map};
ghost use Rattle.std.specs.Option.{is_some};
ghost use Rattle.emc_base.specs.Lists.{AreApart, HoldsEachOnce};
ghost use Rattle.groupings.specs.name_places.GivenNames.{first_place};
ghost use Rattle.groupings.specs.name_places.PlacesIn.{place_in};

use crate::name_places::named::Named;
use crate::name_places::places::{Places, first_places};
use emc_base::Memory;
use std::alloc::Global;

/// Whether no two items have one name. `Memory` comes where memory ran out.
pub fn are_apart<T: Named>(alloc: Global, items: &[T]) -> Result<bool, Memory>
    ensures { IfOk result (λ answer. IsTrue answer ↔ AreApart (map T.name_in items.now)) }
{
    let places = first_places(alloc, items)?;
    let answer = stand_first(&places, items);
    drop(places);
    Ok(answer)
}

/// Whether the list names each of these once, in any order, and nothing else. One that stands twice among these is one. `Memory` comes
/// where memory ran out.
pub fn holds_each_once<T: Named, U: Named>(
    alloc: Global,
    these: &[T],
    list: &[U],
) -> Result<bool, Memory>
    ensures { IfOk result (λ answer. IsTrue answer ↔ HoldsEachOnce (map T.name_in these.now) (map U.name_in list.now)) }
{
    let wanted = first_places(alloc, these)?;
    let answer = holds_wanted(alloc, &wanted, these, list);
    drop(wanted);
    answer
}

// The same, where the places of those are known.
fn holds_wanted<T: Named, U: Named>(
    alloc: Global,
    wanted: &Places,
    these: &[T],
    list: &[U],
) -> Result<bool, Memory>
    requires { place_in wanted.now ≡ first_place T.name_in these.now }
    ensures { IfOk result (λ answer. IsTrue answer ↔ HoldsEachOnce (map T.name_in these.now) (map U.name_in list.now)) }
{
    let held = first_places(alloc, list)?;
    let answer = holds_each(wanted, &held, these, list);
    drop(held);
    Ok(answer)
}

// The same, where the places of both lists are known.
fn holds_each<T: Named, U: Named>(wanted: &Places, held: &Places, these: &[T], list: &[U]) -> bool
    requires wanted { place_in wanted.now ≡ first_place T.name_in these.now }
    requires held { place_in held.now ≡ first_place U.name_in list.now }
    ensures { IsTrue result ↔ HoldsEachOnce (map T.name_in these.now) (map U.name_in list.now) }
{
    if !stand_first(held, list) {
        return false;
    }
    if !are_known(held, these) {
        return false;
    }
    are_known(wanted, list)
}

// Whether each item is the first of its name.
fn stand_first<T: Named>(places: &Places, items: &[T]) -> bool
    requires { place_in places.now ≡ first_place T.name_in items.now }
    ensures { IsTrue result ↔ AreApart (map T.name_in items.now) }
{
    for (place, item) in items.iter().enumerate() {
        if places.is_given_before(place, item) {
            return false;
        }
    }
    true
}

// Whether the name of each item has a place.
fn are_known<T: Named>(places: &Places, items: &[T]) -> bool
    ensures { IsTrue result ↔ All (λ item. IsSome (place_in places.now (T.name_in item))) items.now }
{
    for item in items {
        if !is_known(places, item) {
            return false;
        }
    }
    true
}

// Whether the name of the item has a place.
fn is_known<T: Named>(places: &Places, item: &T) -> bool
    ensures { result ≡ is_some (place_in places.now (T.name_in item.now)) }
{
    places.place_of(item.name().as_str()).is_some()
}
