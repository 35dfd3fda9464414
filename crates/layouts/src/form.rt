/// What a node has to be that has no parts, or none that are looked at.
#[derive(Clone, Copy)]
pub enum Leaf {
    /// Anything; nothing in it is read.
    Any,
    /// A text.
    Text,
    /// A text that is a name.
    Name,
    /// A name that holds none of `.` `;` `(` `)` `$`.
    PlainName,
    /// A name that holds none of `;` `(` `)` `$`.
    Namespace,
    /// True or false.
    Flag,
    /// False; true stands for a construct that is left out.
    UnsetFlag,
    /// A whole number that fits 64 bits with a sign.
    Number,
    /// Such a number, or the text `Max`.
    NumberOrMax,
    /// The text `1`, `0..1` or `*`.
    Multiplicity,
}

/// What a node has to be.
#[derive(Clone, Copy)]
pub enum Form {
    /// A node without parts that are looked at.
    One(Leaf),
    /// An object.
    Object(Shape),
    /// An array of objects.
    Array(Shape),
    /// An array of two objects.
    Pair(Shape),
    /// An array of nodes without parts.
    List(Leaf),
}

/// What a layout says of a member of an object.
#[derive(Clone, Copy)]
pub enum Entry {
    /// It has to be there, in this form.
    Required(Form),
    /// It may be missing; where it is there, it has this form.
    Optional(Form),
    /// It stands for a construct that is left out.
    LeftOut,
}

/// The objects of the three vocabularies.
#[derive(Clone, Copy)]
pub enum Shape {
    /// The root of CSDL.
    Model,
    /// The EntityContainer of CSDL.
    ModelContainer,
    /// An EntitySet of CSDL.
    EntitySet,
    /// An AssociationSet of CSDL.
    AssociationSet,
    /// An End of an AssociationSet of CSDL.
    AssociationSetEnd,
    /// An EntityType of CSDL.
    EntityType,
    /// An EnumType of CSDL.
    EnumType,
    /// A Member of an EnumType of CSDL.
    EnumMember,
    /// A Property of CSDL.
    Property,
    /// A NavigationProperty of CSDL.
    NavigationProperty,
    /// An Association of CSDL.
    Association,
    /// An End of an Association of CSDL.
    AssociationEnd,
    /// A ReferentialConstraint of CSDL.
    Constraint,
    /// The Principal or the Dependent of a ReferentialConstraint of CSDL.
    ConstraintRole,
    /// The root of SSDL.
    Store,
    /// The EntityContainer of SSDL.
    StoreContainer,
    /// An EntitySet of SSDL: a table.
    Table,
    /// An EntityType of SSDL: the columns and the key of a table.
    TableType,
    /// A Property of SSDL: a column.
    Column,
    /// An Association of SSDL: a foreign key.
    ForeignKey,
    /// An End of an Association of SSDL.
    ForeignKeyEnd,
    /// A ReferentialConstraint of SSDL.
    StoreConstraint,
    /// The Principal or the Dependent of a ReferentialConstraint of SSDL.
    StoreConstraintRole,
    /// The root of MSL.
    Mapping,
    /// The EntityContainerMapping of MSL.
    ContainerMapping,
    /// An EntitySetMapping of MSL.
    EntitySetMapping,
    /// An EntityTypeMapping of MSL.
    EntityTypeMapping,
    /// A MappingFragment of MSL.
    MappingFragment,
    /// A ScalarProperty of MSL.
    ScalarProperty,
    /// A Condition of MSL.
    Condition,
    /// An AssociationSetMapping of MSL.
    AssociationSetMapping,
    /// An EndProperty of MSL.
    EndProperty,
}
