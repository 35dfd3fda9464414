//! The layout of MSL, object by object. Source: MSL version 3, in the profile of this project.
use crate::form::{Entry, Form, Leaf, Shape};

/// The root.
pub const MAPPING: &[(&str, Entry)] = &[
    (
        "EntityContainerMapping",
        Entry::Required(Form::Object(Shape::ContainerMapping)),
    ),
    ("Alias", Entry::LeftOut),
];

/// The EntityContainerMapping.
pub const CONTAINER_MAPPING: &[(&str, Entry)] = &[
    (
        "StorageEntityContainer",
        Entry::Required(Form::One(Leaf::Name)),
    ),
    ("CdmEntityContainer", Entry::Required(Form::One(Leaf::Name))),
    (
        "EntitySetMapping",
        Entry::Optional(Form::Array(Shape::EntitySetMapping)),
    ),
    (
        "AssociationSetMapping",
        Entry::Optional(Form::Array(Shape::AssociationSetMapping)),
    ),
];

/// An EntitySetMapping.
pub const ENTITY_SET_MAPPING: &[(&str, Entry)] = &[
    ("Name", Entry::Required(Form::One(Leaf::PlainName))),
    (
        "EntityTypeMapping",
        Entry::Required(Form::Array(Shape::EntityTypeMapping)),
    ),
    ("StoreEntitySet", Entry::LeftOut),
    ("TypeName", Entry::LeftOut),
    ("MappingFragment", Entry::LeftOut),
];

/// An EntityTypeMapping.
pub const ENTITY_TYPE_MAPPING: &[(&str, Entry)] = &[
    ("TypeName", Entry::Required(Form::One(Leaf::Text))),
    (
        "MappingFragment",
        Entry::Required(Form::Array(Shape::MappingFragment)),
    ),
];

/// A MappingFragment.
pub const MAPPING_FRAGMENT: &[(&str, Entry)] = &[
    ("StoreEntitySet", Entry::Required(Form::One(Leaf::Name))),
    (
        "ScalarProperty",
        Entry::Required(Form::Array(Shape::ScalarProperty)),
    ),
    ("Condition", Entry::Optional(Form::Array(Shape::Condition))),
];

/// A ScalarProperty.
pub const SCALAR_PROPERTY: &[(&str, Entry)] = &[
    ("Name", Entry::Required(Form::One(Leaf::PlainName))),
    ("ColumnName", Entry::Required(Form::One(Leaf::Name))),
];

/// A Condition.
pub const CONDITION: &[(&str, Entry)] = &[
    ("Name", Entry::Optional(Form::One(Leaf::PlainName))),
    ("ColumnName", Entry::Optional(Form::One(Leaf::Name))),
    ("Value", Entry::Optional(Form::One(Leaf::Text))),
    ("IsNull", Entry::Optional(Form::One(Leaf::Flag))),
];

/// An AssociationSetMapping.
pub const ASSOCIATION_SET_MAPPING: &[(&str, Entry)] = &[
    ("Name", Entry::Required(Form::One(Leaf::PlainName))),
    ("TypeName", Entry::Required(Form::One(Leaf::Text))),
    ("StoreEntitySet", Entry::Required(Form::One(Leaf::Name))),
    (
        "EndProperty",
        Entry::Required(Form::Pair(Shape::EndProperty)),
    ),
    ("Condition", Entry::Optional(Form::Array(Shape::Condition))),
];

/// An EndProperty.
pub const END_PROPERTY: &[(&str, Entry)] = &[
    ("Name", Entry::Required(Form::One(Leaf::PlainName))),
    (
        "ScalarProperty",
        Entry::Required(Form::Array(Shape::ScalarProperty)),
    ),
];
