//! The layout of SSDL, object by object. Source: SSDL version 3, in the profile of this project.
use crate::form::{Entry, Form, Leaf, Shape};

/// The root.
pub const STORE: &[(&str, Entry)] = &[
    ("Namespace", Entry::Required(Form::One(Leaf::Namespace))),
    ("Alias", Entry::Optional(Form::One(Leaf::PlainName))),
    (
        "EntityContainer",
        Entry::Required(Form::Object(Shape::StoreContainer)),
    ),
    ("EntityType", Entry::Required(Form::Array(Shape::TableType))),
    (
        "Association",
        Entry::Optional(Form::Array(Shape::ForeignKey)),
    ),
];

/// The EntityContainer.
pub const STORE_CONTAINER: &[(&str, Entry)] = &[
    ("Name", Entry::Required(Form::One(Leaf::Name))),
    ("EntitySet", Entry::Required(Form::Array(Shape::Table))),
    ("AssociationSet", Entry::Optional(Form::One(Leaf::Any))),
];

/// An EntitySet, which is a table.
pub const TABLE: &[(&str, Entry)] = &[
    ("Name", Entry::Required(Form::One(Leaf::Name))),
    ("EntityType", Entry::Required(Form::One(Leaf::Text))),
    ("Schema", Entry::Optional(Form::One(Leaf::Any))),
    ("Table", Entry::Optional(Form::One(Leaf::Any))),
];

/// An EntityType.
pub const TABLE_TYPE: &[(&str, Entry)] = &[
    ("Name", Entry::Required(Form::One(Leaf::PlainName))),
    ("Key", Entry::Required(Form::List(Leaf::Name))),
    ("Property", Entry::Optional(Form::Array(Shape::Column))),
];

/// A Property, which is a column.
pub const COLUMN: &[(&str, Entry)] = &[
    ("Name", Entry::Required(Form::One(Leaf::Name))),
    ("Type", Entry::Required(Form::One(Leaf::Text))),
    ("Nullable", Entry::Optional(Form::One(Leaf::Flag))),
    ("MaxLength", Entry::Optional(Form::One(Leaf::Number))),
];

/// An Association, which is a foreign key.
pub const FOREIGN_KEY: &[(&str, Entry)] = &[
    ("Name", Entry::Required(Form::One(Leaf::Name))),
    ("End", Entry::Required(Form::Pair(Shape::ForeignKeyEnd))),
    (
        "ReferentialConstraint",
        Entry::Required(Form::Object(Shape::StoreConstraint)),
    ),
];

/// An End of an Association.
pub const FOREIGN_KEY_END: &[(&str, Entry)] = &[
    ("Role", Entry::Required(Form::One(Leaf::Name))),
    ("Type", Entry::Required(Form::One(Leaf::Text))),
    (
        "Multiplicity",
        Entry::Required(Form::One(Leaf::Multiplicity)),
    ),
    ("OnDelete", Entry::Optional(Form::One(Leaf::Any))),
];

/// A ReferentialConstraint.
pub const STORE_CONSTRAINT: &[(&str, Entry)] = &[
    (
        "Principal",
        Entry::Required(Form::Object(Shape::StoreConstraintRole)),
    ),
    (
        "Dependent",
        Entry::Required(Form::Object(Shape::StoreConstraintRole)),
    ),
];

/// The Principal or the Dependent of a ReferentialConstraint.
pub const STORE_CONSTRAINT_ROLE: &[(&str, Entry)] = &[
    ("Role", Entry::Required(Form::One(Leaf::Name))),
    ("PropertyRef", Entry::Required(Form::List(Leaf::Name))),
];
