ghost use Rattle.std.specs.Prelude.{◌≡◌, ◌↔◌, [], IfOk, IsTrue};
ghost use Rattle.groupings.specs.least_fault.Least.{IsLeast};
ghost use Rattle.layouts.specs.Faults.{fault_cmp};
ghost use Rattle.groupings.specs.name_places.GivenNames.{first_place};
ghost use Rattle.groupings.specs.name_places.PlacesIn.{place_in};
ghost use Rattle.layouts.specs.rule_places.KnownNames.{IsKnown, IsKnownAgain, IsKnownAgainAt, IsLeastAgain};
ghost use Rattle.layouts.specs.rule_places.Names.{IsRepeatedIn};

use crate::fault::Fault;
use crate::rule::Rule;
use crate::rule_places::lists::first_at;
use crate::rule_places::sites::fault_if;
use emc_base::{Memory, Seq, Txt};
use groupings::{Finder, Named, Places};
use std::alloc::Global;

/// A list in a scope, some of whose names may be given before.
#[derive(Drop)]
pub struct Again<'a, T: Named> {
    /// The places of the lists that stand before it in the scope.
    pub others: &'a [&'a Places],
    /// Its items.
    pub items: &'a Seq<T>,
    /// Their places.
    pub own: &'a Places,
    /// The member of an item that has its name.
    pub last: &'a str,
    ghost of: { place_in own.now ≡ first_place T.name_in items.now },
}

impl<'a, T: Named> Finder<T, Fault> for Again<'a, T> {
    ghost wrong = { λ s. IsKnownAgainAt T.name_in s.others.now s.last.now s.items.now };

    fn find(&self, alloc: Global, place: usize, item: &T) -> Result<Option<Fault>, Memory> {
        let is_again = self.is_again(place, item);
        let found = fault_if(alloc, is_again, Rule::NamedOnce, self.last)?;
        Ok(found)
    }
}

impl<'a, T: Named> Again<'a, T> {
    /// The first of the items, which stand at this member, whose name is given before.
    pub fn first_again(&self, alloc: Global, member: &str) -> Result<Option<Fault>, Memory>
        ensures { IfOk result (IsLeastAgain T.name_in self.now.others.now member.now self.now.last.now self.now.items.now) }
    {
        let found = first_at(alloc, member, self, self.items)?;
        Ok(found)
    }

    // Whether the name of the item is known, or that of an item before its place.
    fn is_again(&self, place: usize, item: &T) -> bool
        ensures { IsTrue result ↔ IsKnownAgain T.name_in self.now.others.now self.now.items.now place item.now }
    {
        is_known(self.others, item.name()) || self.own.is_given_before(place, item)
    }
}

/// The first of the items of a list, which stand at this member, whose name was given before in the list.
pub fn first_twice<T: Named>(
    alloc: Global,
    member: &str,
    last: &str,
    items: &Seq<T>,
    places: &Places,
) -> Result<Option<Fault>, Memory>
    requires { place_in places.now ≡ first_place T.name_in items.now }
    ensures { IfOk result (λ found. IsLeast fault_cmp (IsRepeatedIn T.name_in [] member.now last.now items.now) found) }
{
    let search = Again {
        others: &[],
        items,
        own: places,
        last,
    };
    let found = search.first_again(alloc, member)?;
    Ok(found)
}

// Whether one of the lists has the name.
fn is_known(lists: &[&Places], name: &Txt) -> bool
    ensures { IsTrue result ↔ IsKnown lists.now name.now }
{
    lists
        .iter()
        .any(|places| places.place_of(name.as_str()).is_some())
}
