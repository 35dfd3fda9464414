ghost use Rattle.std.specs.Prelude.{◌≡◌, is_some, option_map, slice_get, length, map};
ghost use Rattle.std.specs.Map.Iter.{deref_pair};
ghost use Rattle.serde_json.specs.Find.{get, as_array, as_bool, as_null, as_object, as_str, pointer as points_to};
ghost use Rattle.serde_json.specs.View.{members_view, view};
ghost use Rattle.json_form.specs.TreeParts.{count_in, items_in, members_in, whole_of};
ghost use Rattle.json_form.specs.Nodes.{part_of};

use serde_json::{Map, Value};

/// A part of a document. What it lends lives as long as the document's loan.
#[derive(Clone, Copy)]
pub struct Node<'a> {
    value: &'a Value,
}

impl<'a> Node<'a> {
    /// The node of a tree or of a part of one.
    pub fn new(value: &'a Value) -> Node<'a>
        ensures { part_of result ≡ view value.now }
    {
        Node { value }
    }

    /// The part at a JSON pointer (RFC 6901); None where there is none.
    pub fn pointer(&self, path: &str) -> Option<Node<'a>>
        ensures { option_map part_of result ≡ points_to path.now (part_of self.now) }
    {
        let value = self.value.pointer(path)?;
        Some(Node { value })
    }

    /// The member of this name; None where the node is no object or has no such member.
    pub fn member(&self, name: &str) -> Option<Node<'a>>
        ensures { option_map part_of result ≡ get name.now (part_of self.now) }
    {
        let value = self.value.get(name)?;
        Some(Node { value })
    }

    /// The members by their names; None where the node is no object. To go through all of them takes one walk, where as many calls of
    /// [`Node::member_at`] would take the square of their number.
    pub fn members(&self) -> Option<&'a Map<String, Value>>
        ensures { option_map (λ members. members_view members.now.entries) result ≡ as_object (part_of self.now) }
    {
        self.value.as_object()
    }

    /// The member at a place, in byte order of the names; None where the node is no object or has fewer members. It counts the members
    /// before that place.
    pub fn member_at(&self, i: usize) -> Option<(&'a str, Node<'a>)>
        ensures { option_map (λ m. (m.0.now, part_of m.1)) result ≡ slice_get (members_in (part_of self.now)) i }
    {
        let (name, value) = entry_at(self.value.as_object()?, i)?;
        Some((name.as_str(), Node { value }))
    }

    /// The item at a place; None where the node is no array or has fewer items.
    pub fn item(&self, i: usize) -> Option<Node<'a>>
        ensures { option_map part_of result ≡ slice_get (items_in (part_of self.now)) i }
    {
        let value = self.value.get(i)?;
        Some(Node { value })
    }

    /// The items of an array in order; none where the node is no array.
    pub fn items(&self) -> &'a [Value]
        ensures { map view result.now ≡ items_in (part_of self.now) }
    {
        match self.value {
            Value::Array(items) => items.as_slice(),
            _ => &[],
        }
    }

    /// How many members or items there are; 0 where the node is neither object nor array.
    pub fn count(&self) -> usize
        ensures { result ≡ count_in (part_of self.now) }
    {
        match self.value {
            Value::Array(items) => items.len(),
            Value::Object(members) => members.len(),
            _ => 0,
        }
    }

    /// Whether the node is an object.
    pub fn is_object(&self) -> bool
        ensures { result ≡ is_some (as_object (part_of self.now)) }
    {
        self.value.is_object()
    }

    /// Whether the node is an array.
    pub fn is_array(&self) -> bool
        ensures { result ≡ is_some (as_array (part_of self.now)) }
    {
        self.value.is_array()
    }

    /// The text; None where the node is no text.
    pub fn text(&self) -> Option<&'a str>
        ensures { option_map (λ s. s.now) result ≡ as_str (part_of self.now) }
    {
        self.value.as_str()
    }

    /// The number, where it is whole and fits an `i64`.
    pub fn whole(&self) -> Option<i64>
        ensures { result ≡ whole_of (part_of self.now) }
    {
        self.value.as_i64()
    }

    /// The flag; None where the node is neither true nor false.
    pub fn flag(&self) -> Option<bool>
        ensures { result ≡ as_bool (part_of self.now) }
    {
        self.value.as_bool()
    }

    /// Whether the node is null.
    pub fn is_null(&self) -> bool
        ensures { result ≡ is_some (as_null (part_of self.now)) }
    {
        self.value.is_null()
    }
}

fn entry_at(members: &Map<String, Value>, i: usize) -> Option<(&String, &Value)>
    ensures { option_map deref_pair result ≡ slice_get members.now.entries i }
{
    members.iter().nth(i)
}
