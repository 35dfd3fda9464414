ghost use Rattle.std.specs.Prelude.{◌≡◌, ◌↔◌, ℕ, length, Contains, IfOk, IsTrue};
ghost use Rattle.std.specs.Ordering.{nat_cmp};
ghost use Rattle.graphs.specs.base_chains.Chains.{base_at, IsAncestor, StaysWithin};
ghost use Rattle.groupings.specs.least_fault.Least.{Among, IsLeast};
ghost use Rattle.layouts.specs.Faults.{fault_cmp};
ghost use Rattle.groupings.specs.name_places.GivenNames.{first_place};
ghost use Rattle.groupings.specs.name_places.PlacesIn.{place_in};
ghost use Rattle.layouts.specs.rule_places.Places.{InList};
ghost use Rattle.csdl_types.specs.Inherited.{IsInheritedFault, IsInheritedNameFault, IsInNamesFault};
ghost use Rattle.csdl_types.specs.OwnNames.{DeclaresNone, IsItemAbove, IsPlaceOfName};

use csdl_names::{RawNav, RawProp, RawType};
use emc_base::Memory;
use graphs::places_above;
use groupings::{Finder, Named, Places, earlier, first_among, first_places};
use layouts::{Fault, Rule, fault_at_item};
use std::alloc::Global;

/// Looks for names among those whose places are known: finds the place of each.
#[derive(Clone, Copy)]
struct OwnNames<'a> {
    own: &'a Places,
}

impl<'a, T: Named> Finder<T, usize> for OwnNames<'a> {
    ghost use Rattle.std.specs.Prelude.{◌≡◌, Some};
    ghost use Rattle.groupings.specs.name_places.PlacesIn.{place_in};

    ghost wrong = { λ s _ item place. place_in s.own.now (T.name_in item) ≡ Some place };

    fn find(&self, _alloc: Global, _place: usize, item: &T) -> Result<Option<usize>, Memory> {
        Ok(self.own.place_of(item.name().as_str()))
    }
}

/// Looks in the types of some places for such names.
#[derive(Clone, Copy)]
struct TypesAbove<'a> {
    types: &'a [RawType],
    own: &'a Places,
}

impl<'a> Finder<usize, usize> for TypesAbove<'a> {
    ghost use Rattle.std.specs.Prelude.{slice_get, MatchOption};
    ghost use Rattle.groupings.specs.name_places.PlacesIn.{place_in};
    ghost use Rattle.csdl_types.specs.OwnNames.{IsPlaceOfName};

    ghost wrong = { λ s _ ancestor place. MatchOption (slice_get s.types.now ancestor) ⊥ (λ type. IsPlaceOfName (place_in s.own.now) type place) };

    fn find(&self, alloc: Global, _place: usize, item: &usize) -> Result<Option<usize>, Memory> {
        match self.types.get(*item) {
            None => Ok(None),
            Some(ty) => {
                let found = first_in_type(alloc, self.own, ty)?;
                Ok(found)
            }
        }
    }
}

// The first place that a name of the type has among those whose places are known.
fn first_in_type(alloc: Global, own: &Places, ty: &RawType) -> Result<Option<usize>, Memory>
    ensures { IfOk result (IsLeast nat_cmp (IsPlaceOfName (place_in own.now) ty.now)) }
{
    let search = OwnNames { own };
    let prop = first_among(alloc, &search, ty.props.as_slice())?;
    let nav = first_among(alloc, &search, ty.navs.as_slice())?;
    Ok(earlier(prop, nav))
}

// The first of a type's items, by its place, whose name a type above has.
fn first_inherited<T: Named>(
    alloc: Global,
    types: &[RawType],
    above: &[usize],
    items: &[T],
) -> Result<Option<usize>, Memory>
    ensures { IfOk result (IsLeast nat_cmp (IsItemAbove T.name_in types.now above.now items.now)) }
{
    if above.is_empty() {
        return Ok(None);
    }
    let own = first_places(alloc, items)?;
    let found = first_among(alloc, &TypesAbove { types, own: &own }, above)?;
    Ok(found)
}

// The least fault of a list of the type, where these places stand above the type.
fn first_in_items<T: Named>(
    alloc: Global,
    types: &[RawType],
    above: &[usize],
    list: &str,
    items: &[T],
) -> Result<Option<Fault>, Memory>
    ensures { IfOk result (IsLeast fault_cmp (InList list.now (λ k item. IsInheritedFault (Contains above.now) types.now (T.name_in item)) items.now)) }
{
    let first = first_inherited(alloc, types, above, items)?;
    let found = fault_at_item(alloc, Rule::InheritedName, list, first, "Name")?;
    Ok(found)
}

// The least fault of a type above which these places stand.
fn first_below(
    alloc: Global,
    types: &[RawType],
    above: &[usize],
    ty: &RawType,
) -> Result<Option<Fault>, Memory>
    ensures { IfOk result (IsLeast fault_cmp (IsInNamesFault (Contains above.now) types.now ty.now)) }
{
    let prop = first_in_items(alloc, types, above, "Property", ty.props.as_slice())?;
    let nav = first_in_items(
        alloc,
        types,
        above,
        "NavigationProperty",
        ty.navs.as_slice(),
    )?;
    Ok(earlier(prop, nav))
}

/// The least fault of the type at a place against V11.
pub(crate) fn first_inherited_fault(
    alloc: Global,
    types: &[RawType],
    bases: &[Option<usize>],
    place: usize,
    ty: &RawType,
) -> Result<Option<Fault>, Memory>
    requires within { StaysWithin (base_at bases.now) (length bases.now) }
    requires rooted { (i : ℕ) → ¬ IsAncestor (base_at bases.now) i i }
    ensures { IfOk result (IsLeast fault_cmp (IsInheritedNameFault (base_at bases.now) types.now place ty.now)) }
{
    if declares_none(ty) {
        return Ok(None);
    }
    let above = places_above(alloc, bases, place)?;
    let found = first_below(alloc, types, above.as_slice(), ty)?;
    Ok(found)
}

// Whether the type declares neither a property nor a navigation property.
fn declares_none(ty: &RawType) -> bool
    ensures { IsTrue result ↔ DeclaresNone ty.now }
{
    ty.props.is_empty() && ty.navs.is_empty()
}
