ghost use Rattle.std.specs.Prelude.{◌≡◌, ◌<◌, [], All, length, map, replicate, IfOk};
ghost use Rattle.csdl_meaning.specs.Meaning.{forest_in, is_abstract_at, is_base, is_top, node_upto, type_places};
ghost use Rattle.csdl_meaning.specs.csdl_making.Making.{AreChildren};

use crate::csdl_making::ids::type_id;
use crate::csdl_making::lists::{put_at, put_kept};
use csdl_names::{Lookups, RawModel};
use edm_types::TypeNode;
use emc_base::{Memory, Seq};
use std::alloc::Global;

/// The forest of the base types.
pub(super) fn forest_in(alloc: Global, lookups: &Lookups<'_>) -> Result<Seq<TypeNode>, Memory>
    ensures { IfOk result (λ forest. forest ≡ forest_in lookups.now.model.now) }
{
    let children = children_in(alloc, lookups)?;
    let tops = tops_in(alloc, lookups)?;
    let levels = lookups.model.types.len();
    nodes_at(
        alloc,
        lookups.model,
        children.as_slice(),
        levels,
        tops.as_slice(),
    )
}

// For each type those that are based on it, in their order.
fn children_in(alloc: Global, lookups: &Lookups<'_>) -> Result<Vec<Seq<usize>>, Memory>
    ensures { IfOk result (λ children. AreChildren lookups.now.model.now children.items) }
{
    let count = lookups.model.types.len();
    let mut children = empty_lists(alloc, count)?;
    for place in 0..count {
        put_at(&mut children, lookups.base(place), place)?;
    }
    Ok(children)
}

// So many empty lists.
fn empty_lists(alloc: Global, count: usize) -> Result<Vec<Seq<usize>>, Memory>
    ensures { IfOk result (λ lists. lists.items ≡ replicate count []) }
{
    let mut lists = Vec::new(alloc);
    for _ in 0..count {
        lists.push(Seq::empty(alloc))?;
    }
    Ok(lists)
}

// The types without a base, in their order.
fn tops_in(alloc: Global, lookups: &Lookups<'_>) -> Result<Seq<usize>, Memory>
    ensures { IfOk result (λ tops. tops ≡ type_places lookups.now.model.now (is_top lookups.now.model.now)) }
{
    let mut tops = Seq::empty(alloc);
    for place in 0..lookups.model.types.len() {
        put_kept(&mut tops, place, lookups.base(place).is_none())?;
    }
    Ok(tops)
}

// The nodes of the types at these places, each with so many levels below it at most.
#[cycle(make)]
fn nodes_at(
    alloc: Global,
    model: &RawModel,
    children: &[Seq<usize>],
    levels: usize,
    places: &[usize],
) -> Result<Seq<TypeNode>, Memory>
    requires children { AreChildren model.now children.now }
    requires inside { All (λ i. i < length model.now.types) places.now }
    ensures { IfOk result (λ nodes. nodes ≡ map (node_upto model.now levels) places.now) }
{
    let mut nodes = Seq::empty(alloc);
    for place in places {
        nodes.push(make_node(alloc, model, children, levels, *place)?)?;
    }
    Ok(nodes)
}

// The node of the type at a place.
#[cycle(make)]
fn make_node(
    alloc: Global,
    model: &RawModel,
    children: &[Seq<usize>],
    levels: usize,
    place: usize,
) -> Result<TypeNode, Memory>
    requires children { AreChildren model.now children.now }
    requires inside { place < length model.now.types }
    ensures { IfOk result (λ node. node ≡ node_upto model.now levels place) }
{
    let id = type_id(place)?;
    let is_abstract = is_abstract_at(model, place);
    let children = match levels.checked_sub(1) {
        None => Seq::empty(alloc),
        Some(below) => {
            let places = based_on(model, children, place);
            nodes_at(alloc, model, children, below, places)?
        }
    };
    Ok(TypeNode {
        id,
        is_abstract,
        children,
    })
}

// The types that are based on the one at a place, in their order.
fn based_on<'a>(model: &RawModel, children: &'a [Seq<usize>], place: usize) -> &'a [usize]
    requires children { AreChildren model.now children.now }
    requires inside { place < length model.now.types }
    ensures places { result.now ≡ type_places model.now (is_base model.now place) }
    ensures inside { All (λ i. i < length model.now.types) result.now }
{
    let _model = model;
    children[place].as_slice()
}

// Whether the type at a place is abstract.
fn is_abstract_at(model: &RawModel, place: usize) -> bool
    ensures { result ≡ is_abstract_at model.now place }
{
    match model.types.get(place) {
        None => false,
        Some(ty) => ty.is_abstract,
    }
}
