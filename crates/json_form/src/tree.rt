ghost use Rattle.std.specs.Prelude.{◌≡◌, ◌∷◌, [], IfOk, OnOk, codes, map, string_bytes};
ghost use Rattle.serde_json.specs.Data.{string, array, object};
ghost use Rattle.serde_json.specs.Written.{compact_text};
ghost use Rattle.serde_json.specs.View.{items_of, items_view, members_view, view};
ghost use Rattle.json_form.specs.Trees.{key_tree, place_tree, put_all, quoted, value_tree};

use emc_base::{Key, Memory, Place, Value};
use serde_json::{Map, Value as Tree};
use std::alloc::Global;

/// A value as a JSON tree.
pub fn value_tree(alloc: Global, value: &Value) -> Result<Tree, Memory>
    ensures { IfOk result (λ tree. view tree ≡ value_tree value.now) }
{
    match value {
        Value::Null => Ok(Tree::Null),
        Value::Whole(number) => Ok(Tree::from(*number)),
        Value::Flag(flag) => Ok(Tree::Bool(*flag)),
        Value::Text(text) => text_tree(alloc, text.as_str()),
        Value::Bytes(bytes) => {
            let text = hex::encode(alloc, bytes.as_slice())?;
            Ok(Tree::String(text))
        }
    }
}

/// A text as a JSON tree.
pub fn text_tree(alloc: Global, text: &str) -> Result<Tree, Memory>
    ensures { IfOk result (λ tree. view tree ≡ string text.now) }
{
    Ok(Tree::String(String::from_str(alloc, text)?))
}

/// A key as an array of its values.
pub fn key_tree(alloc: Global, key: &Key) -> Result<Tree, Memory>
    ensures { IfOk result (λ tree. view tree ≡ key_tree key.now) }
{
    let mut trees = Vec::new(alloc);
    for value in key.as_slice() {
        trees.push(value_tree(alloc, value)?)?;
    }
    Ok(array_tree(trees))
}

/// The array of these trees.
pub fn array_tree(trees: Vec<Tree>) -> Tree
    ensures { view result ≡ array (items_of (map view trees.items)) }
{
    Tree::Array(trees)
}

/// The object of these members.
pub fn object_tree(members: Map<String, Tree>) -> Tree
    ensures { view result ≡ object (members_view members.entries) }
{
    Tree::Object(members)
}

/// A text as JSON text: in quotes, with escapes where they are needed.
pub fn quoted(alloc: Global, text: &str) -> Result<String, Memory>
    ensures { IfOk result (λ text_of. string_bytes text_of ≡ quoted text.now) }
{
    let tree = text_tree(alloc, text)?;
    Ok(tree.to_string(alloc)?)
}

/// A place as compact JSON text: an object with the members `key`, `name` and `part`.
pub fn place_text(alloc: Global, place: &Place) -> Result<String, Memory>
    ensures { IfOk result (λ text. string_bytes text ≡ compact_text (place_tree place.now)) }
{
    let tree = place_tree(alloc, place)?;
    Ok(tree.to_string(alloc)?)
}

fn place_tree(alloc: Global, place: &Place) -> Result<Tree, Memory>
    ensures { IfOk result (λ tree. view tree ≡ place_tree place.now) }
{
    let mut members = Map::new(alloc);
    put_parts(alloc, &mut members, place)?;
    Ok(object_tree(members))
}

// Puts the three parts of a place into an object.
fn put_parts(alloc: Global, members: &mut Map<String, Tree>, place: &Place) -> Result<(), Memory>
    ensures { OnOk result (members_view members.new.entries ≡ put_all (members_view members.old.entries) ((codes "key", key_tree place.now.key) ∷ (codes "name", string place.now.name) ∷ (codes "part", string place.now.part) ∷ [])) }
{
    let key = key_tree(alloc, &place.key)?;
    serde_json::put(members, alloc, "key", key)?;
    let name = text_tree(alloc, place.name.as_str())?;
    serde_json::put(members, alloc, "name", name)?;
    let part = text_tree(alloc, place.part.as_str())?;
    serde_json::put(members, alloc, "part", part)?;
    Ok(())
}
