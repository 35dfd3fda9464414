ghost use Rattle.std.specs.Prelude.{◌≡◌, ◌++◌, ◌∷◌, All, IfOk, OnOk, codes, false, length, map, zip};
ghost use Rattle.serde_json.specs.Data.{string, put};
ghost use Rattle.serde_json.specs.View.{members_view, view};
ghost use Rattle.serde_json.specs.Written.{has_float};
ghost use Rattle.json_form.specs.Documents.{tree_of};
ghost use Rattle.json_form.specs.Trees.{array_of, put_all};
ghost use Rattle.round_trip.specs.Words.{IsEntity, IsState};
ghost use Rattle.entity_state.specs.InOrder.{lent, lent_state};
ghost use Rattle.entity_state.specs.StateTree.{assoc_members, entity_tree, link_tree, name_of, named_value, set_members, state_tree};
ghost use Rattle.entity_state.specs.Tells.{IsTreeInKeyOrder};

use crate::key_order::{SortedState, sorted_state};
use crate::state::EntityState;
use edm_types::{Assoc, Entity, EntityModel, EntityType, Link};
use emc_base::{Memory, PropId, Value};
use json_form::{Doc, array_tree, key_tree, object_tree, value_tree};
use serde_json::{Map, Value as Tree};
use std::alloc::Global;

impl EntityState {
    /// The state as a document: an object with a member for each entity set, under its name the array of its entities, and a member for
    /// each association set without a constraint, under its name the array of its links. The entities stand in the order of their keys,
    /// those of one key in that of their list; the links in that of the key at the first end, and then of that at the second. `Memory`
    /// comes where memory ran out.
    pub fn to_doc(&self, alloc: Global, model: &EntityModel) -> Result<Doc, Memory>
        requires { IsState model.now self.now }
        ensures tree { IfOk result (λ doc. IsTreeInKeyOrder model.now self.now (tree_of doc)) }
        ensures plain { IfOk result (λ doc. has_float (tree_of doc) ≡ false) }
    {
        let sorted = sorted_state(alloc, model, self)?;
        let tree = state_tree(alloc, model, &sorted)?;
        Ok(Doc::of_tree(tree))
    }
}

fn state_tree(alloc: Global, model: &EntityModel, sorted: &SortedState<'_>) -> Result<Tree, Memory>
    requires { IsState model.now (lent_state sorted.now) }
    ensures { IfOk result (λ tree. view tree ≡ state_tree model.now (lent_state sorted.now)) }
{
    let mut members = Map::new(alloc);
    put_sets(alloc, &mut members, model, sorted)?;
    put_assocs(alloc, &mut members, model, sorted)?;
    Ok(object_tree(members))
}

fn put_sets(
    alloc: Global,
    members: &mut Map<String, Tree>,
    model: &EntityModel,
    sorted: &SortedState<'_>,
) -> Result<(), Memory>
    requires { IsState model.now (lent_state sorted.now) }
    ensures { OnOk result (members_view members.new.entries ≡ put_all (members_view members.old.entries) (set_members model.now (lent_state sorted.now))) }
{
    let sets = model.sets.as_slice();
    for (i, set) in sets.iter().enumerate() {
        let tree = entities_tree(alloc, model, sorted.entities[i].as_slice())?;
        serde_json::put(members, alloc, set.name.as_str(), tree)?;
    }
    Ok(())
}

fn entities_tree(alloc: Global, model: &EntityModel, entities: &[&Entity]) -> Result<Tree, Memory>
    requires { All (IsEntity model.now) (lent entities.now) }
    ensures { IfOk result (λ tree. view tree ≡ array_of (map (entity_tree model.now) (lent entities.now))) }
{
    let mut trees = Vec::new(alloc);
    for entity in entities {
        trees.push(entity_tree(alloc, model, entity)?)?;
    }
    Ok(array_tree(trees))
}

fn entity_tree(alloc: Global, model: &EntityModel, entity: &Entity) -> Result<Tree, Memory>
    requires { IsEntity model.now entity.now }
    ensures { IfOk result (λ tree. view tree ≡ entity_tree model.now entity.now) }
{
    let declared = model.types.at(entity.ty.index as usize);
    let props = declared.props.as_slice();
    let mut members = Map::new(alloc);
    put_type(alloc, &mut members, model, declared)?;
    put_values(alloc, &mut members, model, props, entity.values.as_slice())?;
    Ok(object_tree(members))
}

fn put_type(
    alloc: Global,
    members: &mut Map<String, Tree>,
    model: &EntityModel,
    declared: &EntityType,
) -> Result<(), Memory>
    ensures { OnOk result (members_view members.new.entries ≡ put (codes "$type") (string (model.now.namespace ++ 46 ∷ declared.now.name)) (members_view members.old.entries)) }
{
    let namespace = model.namespace.as_str();
    let name = declared.name.as_str();
    let text = format!(in alloc; "{namespace}.{name}")?;
    serde_json::put(members, alloc, "$type", Tree::String(text))?;
    Ok(())
}

// Each property's name with the value beside the property.
fn put_values(
    alloc: Global,
    members: &mut Map<String, Tree>,
    model: &EntityModel,
    props: &[PropId],
    values: &[Value],
) -> Result<(), Memory>
    ensures { OnOk result (members_view members.new.entries ≡ put_all (members_view members.old.entries) (map (named_value model.now) (zip props.now values.now))) }
{
    for (prop, value) in props.iter().zip(values) {
        let tree = value_tree(alloc, value)?;
        serde_json::put(members, alloc, name_of(model, *prop), tree)?;
    }
    Ok(())
}

fn name_of(model: &EntityModel, prop: PropId) -> &str
    ensures { result.now ≡ name_of model.now prop }
{
    match model.props.get(prop.index as usize) {
        Some(declared) => declared.name.as_str(),
        None => "",
    }
}

// The links of a constraint are shown by the entities' own values, and have no member.
fn put_assocs(
    alloc: Global,
    members: &mut Map<String, Tree>,
    model: &EntityModel,
    sorted: &SortedState<'_>,
) -> Result<(), Memory>
    requires { length sorted.now.links.items ≡ length model.now.assocs }
    ensures { OnOk result (members_view members.new.entries ≡ put_all (members_view members.old.entries) (assoc_members model.now (lent_state sorted.now))) }
{
    let assocs = model.assocs.as_slice();
    for (i, assoc) in assocs.iter().enumerate() {
        if assoc.constraint.is_some() {
            continue;
        }
        let tree = links_tree(alloc, assoc, sorted.links[i].as_slice())?;
        serde_json::put(members, alloc, assoc.set_name.as_str(), tree)?;
    }
    Ok(())
}

fn links_tree(alloc: Global, assoc: &Assoc, links: &[&Link]) -> Result<Tree, Memory>
    ensures { IfOk result (λ tree. view tree ≡ array_of (map (link_tree assoc.now) (lent links.now))) }
{
    let mut trees = Vec::new(alloc);
    for link in links {
        trees.push(link_tree(alloc, assoc, link)?)?;
    }
    Ok(array_tree(trees))
}

fn link_tree(alloc: Global, assoc: &Assoc, link: &Link) -> Result<Tree, Memory>
    ensures { IfOk result (λ tree. view tree ≡ link_tree assoc.now link.now) }
{
    let mut members = Map::new(alloc);
    let first = key_tree(alloc, &link.first)?;
    serde_json::put(&mut members, alloc, assoc.first.role.as_str(), first)?;
    let second = key_tree(alloc, &link.second)?;
    serde_json::put(&mut members, alloc, assoc.second.role.as_str(), second)?;
    Ok(object_tree(members))
}
