ghost use Rattle.std.specs.Prelude.{◌≡◌};
ghost use Rattle.csdl_names.specs.csdl_lists.Scopes.{names_of};
ghost use Rattle.csdl_types.specs.Simple.{prop_type, simple_named, simple_of};

use csdl_names::Scope;
use groupings::rest_after;

/// A simple type of CSDL, its bound aside.
#[derive(Clone, Copy, Debug, PartialEq, Eq)]
pub enum Simple {
    /// A whole number of one byte, from 0.
    Byte,
    /// A whole number of two bytes.
    Int16,
    /// A whole number of four bytes.
    Int32,
    /// A whole number of eight bytes.
    Int64,
    /// True or false.
    Boolean,
    /// `String`: a text.
    Text,
    /// A list of bytes.
    Binary,
}

/// The simple type that a reference names, with or without `Edm.`; `None` exactly where it names none.
pub fn simple_of(text: &str) -> Option<Simple>
    ensures { result ≡ simple_of text.now }
{
    match rest_after("Edm.", text) {
        Some(name) => simple_named(name),
        None => simple_named(text),
    }
}

// The simple type of a name.
fn simple_named(name: &str) -> Option<Simple>
    ensures { result ≡ simple_named name.now }
{
    match name {
        "Byte" => Some(Simple::Byte),
        "Int16" => Some(Simple::Int16),
        "Int32" => Some(Simple::Int32),
        "Int64" => Some(Simple::Int64),
        "Boolean" => Some(Simple::Boolean),
        "String" => Some(Simple::Text),
        "Binary" => Some(Simple::Binary),
        _ => None,
    }
}

/// What the Type of a property names.
#[derive(Clone, Copy, Debug, PartialEq, Eq)]
pub enum PropType {
    /// A simple type.
    Simple(Simple),
    /// The enumeration type at a place in the model's list.
    Enum(usize),
}

/// What the Type of a property names; `None` exactly where it names neither a simple type nor an enumeration type.
pub fn prop_type(scope: &Scope, text: &str) -> Option<PropType>
    ensures { result ≡ prop_type (names_of scope.now).enum_named text.now }
{
    match simple_of(text) {
        Some(simple) => Some(PropType::Simple(simple)),
        None => Some(PropType::Enum(scope.enum_named(text)?)),
    }
}
