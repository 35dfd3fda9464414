ghost use Rattle.std.specs.Prelude.{◌≡◌, ◌↔◌, IsTrue};
ghost use Rattle.ssdl_model.specs.ssdl_lists.Columns.{HasColumnLength, column_simple};

use csdl_types::{PropType, Simple, Typing, has_length, simple_of};

/// The simple type that a column's Type corresponds to; `None` exactly where it is no type of a column.
pub fn column_simple(name: &str) -> Option<Simple>
    ensures { result ≡ column_simple name.now }
{
    match name {
        "tinyint" => Some(Simple::Byte),
        "smallint" => Some(Simple::Int16),
        "int" => Some(Simple::Int32),
        "bigint" => Some(Simple::Int64),
        "bit" => Some(Simple::Boolean),
        "nvarchar" => Some(Simple::Text),
        "nvarchar(max)" => Some(Simple::Text),
        "varbinary" => Some(Simple::Binary),
        "varbinary(max)" => Some(Simple::Binary),
        _ => None,
    }
}

/// Whether a MaxLength may stand at a column of this Type.
pub fn has_column_length(name: &str) -> bool
    ensures { IsTrue result ↔ HasColumnLength name.now }
{
    has_length(simple_of(name)) || name == "nvarchar" || name == "varbinary"
}

/// What the Types of columns name: simple types.
#[derive(Clone, Copy)]
pub struct ColumnTypes {}

impl Typing for ColumnTypes {
    ghost use Rattle.ssdl_model.specs.ssdl_lists.Columns.{column_type};

    ghost types = { λ _. column_type };

    fn type_named(&self, text: &str) -> Option<PropType> {
        Some(PropType::Simple(column_simple(text)?))
    }
}
