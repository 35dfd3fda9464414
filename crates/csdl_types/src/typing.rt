ghost use Rattle.std.specs.Prelude.{◌≡◌, ℕ, List, Option};
ghost use Rattle.csdl_types.specs.declared.simple.PropType.{PropType};

use crate::simple::{PropType, prop_type};
use csdl_names::Scope;

/// What the Types of a document's properties name.
pub trait Typing {
    /// What a Type names; nothing where it names no type.
    ghost types: { Self → List ℕ → Option PropType };

    /// What this Type names.
    fn type_named(&self, text: &str) -> Option<PropType>
        ensures { result ≡ types self.now text.now };
}

/// In CSDL a simple type, or an enumeration type of the model.
impl Typing for Scope {
    ghost use Rattle.csdl_names.specs.csdl_lists.Scopes.{names_of};
    ghost use Rattle.csdl_types.specs.Simple.{types_by};

    ghost types = { λ scope. types_by (names_of scope) };

    fn type_named(&self, text: &str) -> Option<PropType> {
        prop_type(self, text)
    }
}
