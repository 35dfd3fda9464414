ghost use Rattle.std.specs.Prelude.{◌≡◌, ◌<◌, ℕ, List, length, map, slice_get, IfOk};
ghost use Rattle.std.specs.List.{filter_map, range_with_len};
ghost use Rattle.std.specs.Option.{option_and_then, option_copied};
ghost use Rattle.graphs.specs.base_chains.Chains.{base_at};
ghost use Rattle.graphs.specs.base_chains.Walks.{IsBasesFirst};
ghost use Rattle.csdl_meaning.specs.Meaning.{declared_by, nav_of, own_key, own_props, prop_named, types_in};
ghost use Rattle.csdl_meaning.specs.csdl_making.Making.{AddInherited, AreInherited, AreStarts, type_with};

use crate::csdl_making::ids::{base_id, found_id, prop_id};
use crate::csdl_making::lists::{inherited, take_at};
use csdl_names::{Lookups, PropPlace, RawModel, RawNav, RawType};
use edm_types::{EntityType, Nav};
use emc_base::{Memory, PropId, Seq, Txt, both, put_found};
use std::alloc::Global;

/// The types, by where the properties of each begin, and by an order in which each follows its base.
pub(super) fn types_in(
    alloc: Global,
    lookups: &Lookups<'_>,
    starts: &Seq<usize>,
    order: &[usize],
) -> Result<Seq<EntityType>, Memory>
    requires order { IsBasesFirst (base_at lookups.now.bases.now) (length lookups.now.bases.now) order.now }
    requires starts { AreStarts lookups.now.model.now starts.now }
    ensures { IfOk result (λ types. types ≡ types_in lookups.now.model.now) }
{
    let own_keys = own_keys(alloc, lookups, starts)?;
    let keys = with_inherited(alloc, lookups, own_keys, order)?;
    let own_props = all_own_props(alloc, lookups, starts)?;
    let props = with_inherited(alloc, lookups, own_props, order)?;
    make_types(alloc, lookups, keys, props)
}

// For each type what all in its chain have, from what each type has of its own.
fn with_inherited(
    alloc: Global,
    lookups: &Lookups<'_>,
    own: Vec<Seq<PropId>>,
    order: &[usize],
) -> Result<Vec<Seq<PropId>>, Memory>
    requires alike { length own.items ≡ length lookups.now.model.now.types }
    requires order { IsBasesFirst (base_at lookups.now.bases.now) (length lookups.now.bases.now) order.now }
    ensures { IfOk result (λ lists. AddInherited lookups.now.model.now own.items lists.items) }
{
    let lists = inherited(alloc, own, lookups.bases.as_slice(), order)?;
    Ok(lists)
}

// For each type the key that it declares.
fn own_keys(
    alloc: Global,
    lookups: &Lookups<'_>,
    starts: &Seq<usize>,
) -> Result<Vec<Seq<PropId>>, Memory>
    requires starts { AreStarts lookups.now.model.now starts.now }
    ensures { IfOk result (λ keys. keys.items ≡ map (own_key lookups.now.model.now) (range_with_len 0 (length lookups.now.model.now.types))) }
{
    let mut keys = Vec::new(alloc);
    for place in 0..lookups.model.types.len() {
        keys.push(own_key(alloc, lookups, starts, place)?)?;
    }
    Ok(keys)
}

fn own_key(
    alloc: Global,
    lookups: &Lookups<'_>,
    starts: &Seq<usize>,
    place: usize,
) -> Result<Seq<PropId>, Memory>
    requires starts { AreStarts lookups.now.model.now starts.now }
    ensures { IfOk result (λ key. key ≡ own_key lookups.now.model.now place) }
{
    match key_names(lookups.model, place) {
        None => Ok(Seq::empty(alloc)),
        Some(names) => ids_named(alloc, lookups, starts, place, names),
    }
}

// The names of the key that a type declares.
fn key_names<'a>(model: &'a RawModel, place: usize) -> Option<&'a Seq<Txt>>
    ensures { option_copied result ≡ option_and_then (λ type. type.key) (slice_get model.now.types place) }
{
    model.types.get(place)?.key.as_ref()
}

// The ids of the properties of these names that a type declares.
fn ids_named(
    alloc: Global,
    lookups: &Lookups<'_>,
    starts: &Seq<usize>,
    place: usize,
    names: &Seq<Txt>,
) -> Result<Seq<PropId>, Memory>
    requires starts { AreStarts lookups.now.model.now starts.now }
    ensures { IfOk result (λ ids. ids ≡ filter_map (prop_named lookups.now.model.now place) names.now) }
{
    let mut ids = Seq::empty(alloc);
    for name in names.as_slice() {
        put_found(&mut ids, id_named(lookups, starts, place, name)?)?;
    }
    Ok(ids)
}

fn id_named(
    lookups: &Lookups<'_>,
    starts: &Seq<usize>,
    place: usize,
    name: &Txt,
) -> Result<Option<PropId>, Memory>
    requires starts { AreStarts lookups.now.model.now starts.now }
    ensures { IfOk result (λ id. id ≡ prop_named lookups.now.model.now place name.now) }
{
    found_id(lookups, starts, lookups.own_prop(place, name))
}

// For each type the properties that it declares.
fn all_own_props(
    alloc: Global,
    lookups: &Lookups<'_>,
    starts: &Seq<usize>,
) -> Result<Vec<Seq<PropId>>, Memory>
    requires starts { AreStarts lookups.now.model.now starts.now }
    ensures { IfOk result (λ props. props.items ≡ map (own_props lookups.now.model.now) (range_with_len 0 (length lookups.now.model.now.types))) }
{
    let mut props = Vec::new(alloc);
    for place in 0..lookups.model.types.len() {
        props.push(own_props(alloc, lookups, starts, place)?)?;
    }
    Ok(props)
}

fn own_props(
    alloc: Global,
    lookups: &Lookups<'_>,
    starts: &Seq<usize>,
    owner: usize,
) -> Result<Seq<PropId>, Memory>
    requires starts { AreStarts lookups.now.model.now starts.now }
    requires inside { owner < length lookups.now.model.now.types }
    ensures { IfOk result (λ ids. ids ≡ own_props lookups.now.model.now owner) }
{
    let mut ids = Seq::empty(alloc);
    for place in 0..declared_count(lookups.model, owner) {
        ids.push(prop_id(lookups, starts, PropPlace { owner, place })?)?;
    }
    Ok(ids)
}

// How many properties a type declares.
fn declared_count(model: &RawModel, place: usize) -> usize
    ensures { result ≡ length (declared_by model.now place) }
{
    match model.types.get(place) {
        None => 0,
        Some(ty) => ty.props.len(),
    }
}

// The types with these keys and these properties.
fn make_types(
    alloc: Global,
    lookups: &Lookups<'_>,
    keys: Vec<Seq<PropId>>,
    props: Vec<Seq<PropId>>,
) -> Result<Seq<EntityType>, Memory>
    requires keys { AreInherited lookups.now.model.now (own_key lookups.now.model.now) keys.items }
    requires props { AreInherited lookups.now.model.now (own_props lookups.now.model.now) props.items }
    ensures { IfOk result (λ types. types ≡ types_in lookups.now.model.now) }
{
    let mut keys = keys;
    let mut props = props;
    let mut types = Seq::empty(alloc);
    for (place, ty) in lookups.model.types.as_slice().iter().enumerate() {
        let key = take_at(alloc, &mut keys, place);
        let of_type = take_at(alloc, &mut props, place);
        types.push(make_type(alloc, lookups, place, ty, key, of_type)?)?;
    }
    Ok(types)
}

fn make_type(
    alloc: Global,
    lookups: &Lookups<'_>,
    place: usize,
    ty: &RawType,
    key: Seq<PropId>,
    props: Seq<PropId>,
) -> Result<EntityType, Memory>
    ensures { IfOk result (λ made. made ≡ type_with lookups.now.model.now place ty.now key props) }
{
    Ok(EntityType {
        name: ty.name.copy(alloc)?,
        base: base_id(lookups.base(place))?,
        is_abstract: ty.is_abstract,
        key,
        props,
        navs: navs_of(alloc, lookups, &ty.navs)?,
    })
}

// The navigation properties of a type.
fn navs_of(alloc: Global, lookups: &Lookups<'_>, navs: &Seq<RawNav>) -> Result<Seq<Nav>, Memory>
    ensures { IfOk result (λ made. made ≡ map (nav_of lookups.now.model.now) navs.now) }
{
    let mut made = Seq::empty(alloc);
    for nav in navs.as_slice() {
        made.push(make_nav(alloc, lookups, nav)?)?;
    }
    Ok(made)
}

fn make_nav(alloc: Global, lookups: &Lookups<'_>, nav: &RawNav) -> Result<Nav, Memory>
    ensures { IfOk result (λ made. made ≡ nav_of lookups.now.model.now nav.now) }
{
    let assoc_name = match lookups.association_of(&nav.relationship) {
        None => Txt::of(alloc, ""),
        Some(association) => association.name.copy(alloc),
    };
    let names = both(nav.name.copy(alloc), assoc_name);
    let roles = both(nav.from_role.copy(alloc), nav.to_role.copy(alloc));
    let ((name, assoc_name), (from_role, to_role)) = both(names, roles)?;
    Ok(Nav {
        name,
        assoc_name,
        from_role,
        to_role,
    })
}
