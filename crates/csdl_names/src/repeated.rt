ghost use Rattle.std.specs.Prelude.{◌≡◌, IfOk, codes};
ghost use Rattle.json_form.specs.declared.pointer.Step.TheVariants.{Member};
ghost use Rattle.layouts.specs.Inside.{Under};
ghost use Rattle.groupings.specs.least_fault.Least.{IsLeast};
ghost use Rattle.layouts.specs.Faults.{fault_cmp};
ghost use Rattle.groupings.specs.name_places.GivenNames.{first_place};
ghost use Rattle.groupings.specs.name_places.PlacesIn.{place_in};
ghost use Rattle.csdl_names.specs.csdl_lists.Scopes.{IsScopeOf};
ghost use Rattle.csdl_names.specs.Repeated.{IsRepeated, IsRepeatedInBoth, IsRepeatedInContainer, IsRepeatedInSchema};

use crate::csdl_lists::{RawAssociation, RawContainer, RawEnum, RawModel, RawType, Scope};
use crate::lookups::Lookups;
use emc_base::{Memory, Seq};
use groupings::{Finder, Named, Places, earlier_of, places_of};
use layouts::{Again, Fault, behind_member, first_at, first_twice};
use std::alloc::Global;

/// Searches the types of a model for names that are given twice in one.
#[derive(Clone, Copy)]
struct InTypes<'a> {
    lookups: &'a Lookups<'a>,
}

impl<'a> Finder<RawType, Fault> for InTypes<'a> {
    ghost use Rattle.std.specs.Prelude.{slice_get, MatchOption};
    ghost use Rattle.csdl_names.specs.Repeated.{IsRepeatedInType};

    ghost wrong = { λ s i _ fault. MatchOption (slice_get s.lookups.now.model.now.types i) ⊥ (λ type. IsRepeatedInType i type fault) };

    fn find(&self, alloc: Global, place: usize, _: &RawType) -> Result<Option<Fault>, Memory> {
        let Some(ty) = self.lookups.model.types.get(place) else {
            return Ok(None);
        };
        let Some(own) = self.lookups.props.get(place) else {
            return Ok(None);
        };
        let navs = &ty.navs;
        let props = &ty.props;
        let found = first_in_both(alloc, "NavigationProperty", navs, "Property", props, own)?;
        Ok(found)
    }
}

/// Searches what stands in the items of a list for names that are given twice.
#[derive(Clone, Copy)]
struct Inside {}

impl Finder<RawEnum, Fault> for Inside {
    ghost use Rattle.csdl_names.specs.Repeated.{IsRepeatedInEnum};

    ghost wrong = { λ _. IsRepeatedInEnum };

    fn find(&self, alloc: Global, _: usize, item: &RawEnum) -> Result<Option<Fault>, Memory> {
        let places = places_of(alloc, &item.members)?;
        let found = first_twice(alloc, "Member", "Name", &item.members, &places);
        drop(places);
        found
    }
}

impl Finder<RawAssociation, Fault> for Inside {
    ghost use Rattle.csdl_names.specs.Repeated.{IsRepeatedInAssociation};

    ghost wrong = { λ _. IsRepeatedInAssociation };

    fn find(
        &self,
        alloc: Global,
        _: usize,
        item: &RawAssociation,
    ) -> Result<Option<Fault>, Memory> {
        let places = places_of(alloc, &item.ends)?;
        let found = first_twice(alloc, "End", "Role", &item.ends, &places);
        drop(places);
        found
    }
}

// The least of the names that are given twice in two lists, of which the first stands before the second in their scope. The places of
// the second are known.
fn first_in_both<T: Named, U: Named>(
    alloc: Global,
    first: &str,
    firsts: &Seq<T>,
    second: &str,
    seconds: &Seq<U>,
    own: &Places,
) -> Result<Option<Fault>, Memory>
    requires { place_in own.now ≡ first_place U.name_in seconds.now }
    ensures { IfOk result (λ found. IsLeast fault_cmp (IsRepeatedInBoth T.name_in U.name_in first.now firsts.now second.now seconds.now) found) }
{
    let known = places_of(alloc, firsts)?;
    let found = first_twice(alloc, first, "Name", firsts, &known);
    let search = Again {
        others: &[&known],
        items: seconds,
        own,
        last: "Name",
    };
    let other = search.first_again(alloc, second);
    let least = earlier_of(found, other);
    drop(known);
    least
}

// The least of the names of associations, types and enumeration types that are given twice.
fn first_in_schema(alloc: Global, model: &RawModel, scope: &Scope) -> Result<Option<Fault>, Memory>
    requires { IsScopeOf model.now scope.now }
    ensures { IfOk result (λ found. IsLeast fault_cmp (IsRepeatedInSchema model.now) found) }
{
    let of_associations = first_twice(
        alloc,
        "Association",
        "Name",
        &model.associations,
        &scope.associations,
    );
    let types = Again {
        others: &[&scope.associations],
        items: &model.types,
        own: &scope.types,
        last: "Name",
    };
    let of_types = types.first_again(alloc, "EntityType");
    let enums = Again {
        others: &[&scope.associations, &scope.types],
        items: &model.enums,
        own: &scope.enums,
        last: "Name",
    };
    let of_enums = enums.first_again(alloc, "EnumType");
    earlier_of(of_associations, earlier_of(of_types, of_enums))
}

// The least of the names of sets that are given twice, seen from the model.
fn first_in_container(
    alloc: Global,
    container: &RawContainer,
    scope: &Scope,
) -> Result<Option<Fault>, Memory>
    requires { place_in scope.now.sets ≡ first_place (λ set. set.name) container.now.sets }
    ensures { IfOk result (λ found. IsLeast fault_cmp (Under (Member (codes "EntityContainer")) (IsRepeatedInContainer container.now)) found) }
{
    let found = first_in_both(
        alloc,
        "AssociationSet",
        &container.association_sets,
        "EntitySet",
        &container.sets,
        &scope.sets,
    )?;
    behind_member(alloc, "EntityContainer", found)
}

/// The least of the names that are given twice in their scope. Of two names the later one is told, in the order of places.
/// `Memory` comes where memory ran out.
pub fn first_repeated(alloc: Global, lookups: &Lookups<'_>) -> Result<Option<Fault>, Memory>
    requires { IsScopeOf lookups.now.model.now lookups.now.scope.now }
    ensures { IfOk result (λ found. IsLeast fault_cmp (IsRepeated lookups.now.model.now) found) }
{
    let model = lookups.model;
    let scope = lookups.scope;
    let schema = first_in_schema(alloc, model, scope);
    let container = first_in_container(alloc, &model.container, scope);
    let types = first_at(alloc, "EntityType", &InTypes { lookups }, &model.types);
    let enums = first_at(alloc, "EnumType", &Inside {}, &model.enums);
    let roles = first_at(alloc, "Association", &Inside {}, &model.associations);
    let in_items = earlier_of(types, earlier_of(enums, roles));
    earlier_of(schema, earlier_of(container, in_items))
}
