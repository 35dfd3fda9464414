//! What a layout says of the member of a name.

mod mapping_layout;
mod model_layout;
mod store_layout;

ghost use Rattle.std.specs.Prelude.{◌≡◌, ◌==◌, option_map};
ghost use Rattle.std.specs.List.{find, list_any};
ghost use Rattle.std.specs.Str.{bytes_eq};
ghost use Rattle.layouts.specs.Layouts.{as_rows, entry_of, everywhere, is_left_out, is_passed_over, rows_of};

use crate::form::{Entry, Form, Leaf, Shape};

/// What is read and passed over wherever it stands, beside each name that holds a colon.
pub const PASSED_OVER: &[&str] = &[
    "xmlns",
    "Documentation",
    "Unicode",
    "FixedLength",
    "StoreGeneratedPattern",
    "ConcurrencyMode",
    "Provider",
    "ProviderManifestToken",
    "Space",
];

/// The constructs that are left out wherever they stand.
pub const LEFT_OUT: &[&str] = &[
    "ComplexType",
    "ComplexProperty",
    "FunctionImport",
    "FunctionImportMapping",
    "Function",
    "ModificationFunctionMapping",
    "QueryView",
    "DefiningQuery",
    "OpenType",
    "Using",
    "ContainsTarget",
    "DefaultValue",
    "Collation",
    "Precision",
    "Scale",
    "SRID",
    "MakeColumnsDistinct",
];

/// What a layout says of a member of this name: its row; else, of a name that is passed over or left out wherever it stands, just that.
/// `None` is an unknown member.
pub fn entry_of(shape: Shape, name: &str) -> Option<Entry>
    ensures { result ≡ entry_of shape name.now }
{
    match row_of(rows_of(shape), name) {
        Some(entry) => Some(entry),
        None => everywhere(name),
    }
}

fn row_of(rows: &[(&str, Entry)], name: &str) -> Option<Entry>
    ensures { result ≡ option_map (λ row. row.1) (find (λ row. bytes_eq row.0.now name.now) rows.now) }
{
    rows.iter().find(|row| row.0 == name).map(|row| row.1)
}

fn everywhere(name: &str) -> Option<Entry>
    ensures { result ≡ everywhere name.now }
{
    if is_passed_over(name) {
        return Some(Entry::Optional(Form::One(Leaf::Any)));
    }
    if is_left_out(name) {
        return Some(Entry::LeftOut);
    }
    None
}

fn is_passed_over(name: &str) -> bool
    ensures { result ≡ is_passed_over name.now }
{
    holds_colon(name.as_bytes()) || is_listed(PASSED_OVER, name)
}

fn holds_colon(name: &[u8]) -> bool
    ensures { result ≡ list_any (λ byte. byte == 58) name.now }
{
    name.iter().any(|byte| *byte == b':')
}

fn is_left_out(name: &str) -> bool
    ensures { result ≡ is_left_out name.now }
{
    is_listed(LEFT_OUT, name)
}

fn is_listed(names: &[&str], name: &str) -> bool
    ensures { result ≡ list_any (λ other. bytes_eq other.now name.now) names.now }
{
    names.iter().any(|other| *other == name)
}

/// The rows of an object's layout.
pub fn rows_of(shape: Shape) -> &'static [(&'static str, Entry)]
    ensures { as_rows result.now ≡ rows_of shape }
{
    match shape {
        Shape::Model => model_layout::MODEL,
        Shape::ModelContainer => model_layout::MODEL_CONTAINER,
        Shape::EntitySet => model_layout::ENTITY_SET,
        Shape::AssociationSet => model_layout::ASSOCIATION_SET,
        Shape::AssociationSetEnd => model_layout::ASSOCIATION_SET_END,
        Shape::EntityType => model_layout::ENTITY_TYPE,
        Shape::EnumType => model_layout::ENUM_TYPE,
        Shape::EnumMember => model_layout::ENUM_MEMBER,
        Shape::Property => model_layout::PROPERTY,
        Shape::NavigationProperty => model_layout::NAVIGATION_PROPERTY,
        Shape::Association => model_layout::ASSOCIATION,
        Shape::AssociationEnd => model_layout::ASSOCIATION_END,
        Shape::Constraint => model_layout::CONSTRAINT,
        Shape::ConstraintRole => model_layout::CONSTRAINT_ROLE,
        Shape::Store => store_layout::STORE,
        Shape::StoreContainer => store_layout::STORE_CONTAINER,
        Shape::Table => store_layout::TABLE,
        Shape::TableType => store_layout::TABLE_TYPE,
        Shape::Column => store_layout::COLUMN,
        Shape::ForeignKey => store_layout::FOREIGN_KEY,
        Shape::ForeignKeyEnd => store_layout::FOREIGN_KEY_END,
        Shape::StoreConstraint => store_layout::STORE_CONSTRAINT,
        Shape::StoreConstraintRole => store_layout::STORE_CONSTRAINT_ROLE,
        Shape::Mapping => mapping_layout::MAPPING,
        Shape::ContainerMapping => mapping_layout::CONTAINER_MAPPING,
        Shape::EntitySetMapping => mapping_layout::ENTITY_SET_MAPPING,
        Shape::EntityTypeMapping => mapping_layout::ENTITY_TYPE_MAPPING,
        Shape::MappingFragment => mapping_layout::MAPPING_FRAGMENT,
        Shape::ScalarProperty => mapping_layout::SCALAR_PROPERTY,
        Shape::Condition => mapping_layout::CONDITION,
        Shape::AssociationSetMapping => mapping_layout::ASSOCIATION_SET_MAPPING,
        Shape::EndProperty => mapping_layout::END_PROPERTY,
    }
}
