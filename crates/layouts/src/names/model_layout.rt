//! The layout of CSDL, object by object. Source: CSDL version 3, in the profile of this project.
use crate::form::{Entry, Form, Leaf, Shape};

/// The root.
pub const MODEL: &[(&str, Entry)] = &[
    ("Namespace", Entry::Required(Form::One(Leaf::Namespace))),
    ("Alias", Entry::Optional(Form::One(Leaf::PlainName))),
    (
        "EntityContainer",
        Entry::Required(Form::Object(Shape::ModelContainer)),
    ),
    (
        "EntityType",
        Entry::Required(Form::Array(Shape::EntityType)),
    ),
    ("EnumType", Entry::Optional(Form::Array(Shape::EnumType))),
    (
        "Association",
        Entry::Optional(Form::Array(Shape::Association)),
    ),
];

/// The EntityContainer.
pub const MODEL_CONTAINER: &[(&str, Entry)] = &[
    ("Name", Entry::Required(Form::One(Leaf::Name))),
    ("EntitySet", Entry::Required(Form::Array(Shape::EntitySet))),
    (
        "AssociationSet",
        Entry::Optional(Form::Array(Shape::AssociationSet)),
    ),
];

/// An EntitySet.
pub const ENTITY_SET: &[(&str, Entry)] = &[
    ("Name", Entry::Required(Form::One(Leaf::PlainName))),
    ("EntityType", Entry::Required(Form::One(Leaf::Text))),
];

/// An AssociationSet.
pub const ASSOCIATION_SET: &[(&str, Entry)] = &[
    ("Name", Entry::Required(Form::One(Leaf::PlainName))),
    ("Association", Entry::Required(Form::One(Leaf::Text))),
    ("End", Entry::Required(Form::Pair(Shape::AssociationSetEnd))),
];

/// An End of an AssociationSet.
pub const ASSOCIATION_SET_END: &[(&str, Entry)] = &[
    ("Role", Entry::Required(Form::One(Leaf::PlainName))),
    ("EntitySet", Entry::Required(Form::One(Leaf::PlainName))),
];

/// An EntityType.
pub const ENTITY_TYPE: &[(&str, Entry)] = &[
    ("Name", Entry::Required(Form::One(Leaf::PlainName))),
    ("BaseType", Entry::Optional(Form::One(Leaf::Text))),
    ("Abstract", Entry::Optional(Form::One(Leaf::Flag))),
    ("Key", Entry::Optional(Form::List(Leaf::PlainName))),
    ("Property", Entry::Optional(Form::Array(Shape::Property))),
    (
        "NavigationProperty",
        Entry::Optional(Form::Array(Shape::NavigationProperty)),
    ),
];

/// An EnumType.
pub const ENUM_TYPE: &[(&str, Entry)] = &[
    ("Name", Entry::Required(Form::One(Leaf::PlainName))),
    ("UnderlyingType", Entry::Optional(Form::One(Leaf::Text))),
    ("IsFlags", Entry::Optional(Form::One(Leaf::UnsetFlag))),
    ("Member", Entry::Required(Form::Array(Shape::EnumMember))),
];

/// A Member of an EnumType.
pub const ENUM_MEMBER: &[(&str, Entry)] = &[
    ("Name", Entry::Required(Form::One(Leaf::PlainName))),
    ("Value", Entry::Optional(Form::One(Leaf::Number))),
];

/// A Property.
pub const PROPERTY: &[(&str, Entry)] = &[
    ("Name", Entry::Required(Form::One(Leaf::PlainName))),
    ("Type", Entry::Required(Form::One(Leaf::Text))),
    ("Nullable", Entry::Optional(Form::One(Leaf::Flag))),
    ("MaxLength", Entry::Optional(Form::One(Leaf::NumberOrMax))),
];

/// A NavigationProperty.
pub const NAVIGATION_PROPERTY: &[(&str, Entry)] = &[
    ("Name", Entry::Required(Form::One(Leaf::PlainName))),
    ("Relationship", Entry::Required(Form::One(Leaf::Text))),
    ("FromRole", Entry::Required(Form::One(Leaf::PlainName))),
    ("ToRole", Entry::Required(Form::One(Leaf::PlainName))),
];

/// An Association.
pub const ASSOCIATION: &[(&str, Entry)] = &[
    ("Name", Entry::Required(Form::One(Leaf::PlainName))),
    ("End", Entry::Required(Form::Pair(Shape::AssociationEnd))),
    (
        "ReferentialConstraint",
        Entry::Optional(Form::Object(Shape::Constraint)),
    ),
];

/// An End of an Association.
pub const ASSOCIATION_END: &[(&str, Entry)] = &[
    ("Role", Entry::Required(Form::One(Leaf::PlainName))),
    ("Type", Entry::Required(Form::One(Leaf::Text))),
    (
        "Multiplicity",
        Entry::Required(Form::One(Leaf::Multiplicity)),
    ),
    ("OnDelete", Entry::Optional(Form::One(Leaf::Any))),
];

/// A ReferentialConstraint.
pub const CONSTRAINT: &[(&str, Entry)] = &[
    (
        "Principal",
        Entry::Required(Form::Object(Shape::ConstraintRole)),
    ),
    (
        "Dependent",
        Entry::Required(Form::Object(Shape::ConstraintRole)),
    ),
];

/// The Principal or the Dependent of a ReferentialConstraint.
pub const CONSTRAINT_ROLE: &[(&str, Entry)] = &[
    ("Role", Entry::Required(Form::One(Leaf::PlainName))),
    ("PropertyRef", Entry::Required(Form::List(Leaf::PlainName))),
];
