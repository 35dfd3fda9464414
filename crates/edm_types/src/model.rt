use emc_base::{Kind, PropId, Seq, SetId, Txt, TypeId};

/// An entity model: what a CSDL document of version 3 says. Types, sets, and association sets stand in the order of
/// their arrays, and an id is a place in one of these lists.
#[derive(Drop)]
pub struct EntityModel {
    pub namespace: Txt,
    pub alias: Option<Txt>,
    pub container: Txt,
    pub types: Seq<EntityType>,
    /// The declared properties of all types.
    pub props: Seq<Prop>,
    /// The types without a base type, each with those that are derived from it.
    pub forest: Seq<TypeNode>,
    pub sets: Seq<EntitySet>,
    pub assocs: Seq<Assoc>,
}

/// An entity type. The key and the properties hold inherited members too, those of the root first.
#[derive(Drop)]
pub struct EntityType {
    pub name: Txt,
    pub base: Option<TypeId>,
    pub is_abstract: bool,
    pub key: Seq<PropId>,
    pub props: Seq<PropId>,
    pub navs: Seq<Nav>,
}

/// A declared property. It has one id, which types that inherit it share.
#[derive(Drop)]
pub struct Prop {
    /// The type that declares it.
    pub owner: TypeId,
    pub name: Txt,
    pub kind: Kind,
    pub nullable: bool,
}

/// A type with the types that are derived from it, in the order of the model's types.
#[derive(Drop)]
pub struct TypeNode {
    pub id: TypeId,
    pub is_abstract: bool,
    pub children: Seq<TypeNode>,
}

/// A navigation property: over an association from one role to the other.
#[derive(Drop)]
pub struct Nav {
    pub name: Txt,
    /// The association's name without Namespace or Alias.
    pub assoc_name: Txt,
    pub from_role: Txt,
    pub to_role: Txt,
}

/// A set of entities whose types are the element type or derived from it.
#[derive(Drop)]
pub struct EntitySet {
    pub name: Txt,
    pub element: TypeId,
}

/// An association set with its association. The ends stand in the order of the association's End array.
#[derive(Drop)]
pub struct Assoc {
    pub set_name: Txt,
    pub assoc_name: Txt,
    pub first: End,
    pub second: End,
    /// None of an independent association, whose links are stored facts.
    pub constraint: Option<Constraint>,
}

/// One end of an association: its entities are those of the set whose type is `ty` or derived from it.
#[derive(Drop)]
pub struct End {
    pub role: Txt,
    pub set: SetId,
    pub ty: TypeId,
    pub mult: Mult,
}

/// How many entities stand at an end for each entity at the other.
#[derive(Clone, Copy, Debug, PartialEq, Eq)]
pub enum Mult {
    /// Exactly one: `1`.
    One,
    /// At most one: `0..1`.
    ZeroOrOne,
    /// Any number: `*`.
    Many,
}

/// A referential constraint: the dependent properties, where none is null, hold the principal entity's key. The two lists
/// match item by item.
#[derive(Drop)]
pub struct Constraint {
    /// Whether the dependent entities stand at the first end.
    pub dependent_first: bool,
    pub principal: Seq<PropId>,
    pub dependent: Seq<PropId>,
}
