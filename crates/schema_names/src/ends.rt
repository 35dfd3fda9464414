ghost use Rattle.std.specs.Prelude.{◌≡◌};
ghost use Rattle.schema_names.specs.SchemaNames.{end_of_role};

use edm_types::Assoc;

/// One of the two ends of an association.
#[derive(Clone, Copy, Debug, PartialEq, Eq)]
pub enum WhichEnd {
    /// That of the first End.
    First,
    /// That of the second.
    Second,
}

/// The end of an association that has a role.
pub fn end_of_role(assoc: &Assoc, role: &str) -> Option<WhichEnd>
    ensures { result ≡ end_of_role assoc.now role.now }
{
    if role == assoc.first.role.as_str() {
        return Some(WhichEnd::First);
    }
    if role == assoc.second.role.as_str() {
        return Some(WhichEnd::Second);
    }
    None
}
