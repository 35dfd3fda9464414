ghost use Rattle.std.specs.Prelude.{◌≡◌, IfOk};
ghost use Rattle.json_form.specs.Nodes.{part_of};
ghost use Rattle.csdl_names.specs.csdl_lists.Raw.{bound_at, key_at};

use crate::csdl_lists::pairs::{text_and_optional_at, two_lists_at, two_texts_at};
use emc_base::{Memory, Seq, Txt, both};
use json_form::{
    FromNode, Node, flag_at, list_at, object_at, optional_object_at, text_at, texts_at, whole_at,
};
use std::alloc::Global;

/// An End of an AssociationSet.
#[derive(Drop)]
pub struct RawSetEnd {
    /// The role.
    pub role: Txt,
    /// The name of the entity set.
    pub set: Txt,
}

impl FromNode for RawSetEnd {
    ghost use Rattle.csdl_names.specs.csdl_lists.Raw.{raw_set_end};

    ghost of = { raw_set_end };

    fn read(alloc: Global, node: Node<'_>) -> Result<RawSetEnd, Memory> {
        let (role, set) = two_texts_at(alloc, node, "Role", "EntitySet")?;
        Ok(RawSetEnd { role, set })
    }
}

/// An AssociationSet.
#[derive(Drop)]
pub struct RawAssociationSet {
    /// Its name.
    pub name: Txt,
    /// The reference to its association.
    pub association: Txt,
    /// Its ends.
    pub ends: Seq<RawSetEnd>,
}

impl FromNode for RawAssociationSet {
    ghost use Rattle.csdl_names.specs.csdl_lists.Raw.{raw_association_set};

    ghost of = { raw_association_set };

    fn read(alloc: Global, node: Node<'_>) -> Result<RawAssociationSet, Memory> {
        let names = two_texts_at(alloc, node, "Name", "Association");
        let ends = list_at(alloc, node, "End");
        let ((name, association), ends) = both(names, ends)?;
        Ok(RawAssociationSet {
            name,
            association,
            ends,
        })
    }
}

/// An EntitySet.
#[derive(Drop)]
pub struct RawSet {
    /// Its name.
    pub name: Txt,
    /// The reference to its element type.
    pub element: Txt,
}

impl FromNode for RawSet {
    ghost use Rattle.csdl_names.specs.csdl_lists.Raw.{raw_set};

    ghost of = { raw_set };

    fn read(alloc: Global, node: Node<'_>) -> Result<RawSet, Memory> {
        let (name, element) = two_texts_at(alloc, node, "Name", "EntityType")?;
        Ok(RawSet { name, element })
    }
}

/// An End of an Association.
#[derive(Drop)]
pub struct RawEnd {
    /// The role.
    pub role: Txt,
    /// The reference to its type.
    pub ty: Txt,
    /// Its multiplicity.
    pub multiplicity: Txt,
}

impl FromNode for RawEnd {
    ghost use Rattle.csdl_names.specs.csdl_lists.Raw.{raw_end};

    ghost of = { raw_end };

    fn read(alloc: Global, node: Node<'_>) -> Result<RawEnd, Memory> {
        let texts = two_texts_at(alloc, node, "Role", "Type");
        let multiplicity = text_at(alloc, node, "Multiplicity");
        let ((role, ty), multiplicity) = both(texts, multiplicity)?;
        Ok(RawEnd {
            role,
            ty,
            multiplicity,
        })
    }
}

/// The Principal or the Dependent of a ReferentialConstraint.
#[derive(Drop)]
pub struct RawRole {
    /// The role.
    pub role: Txt,
    /// The names of its properties.
    pub props: Seq<Txt>,
}

impl FromNode for RawRole {
    ghost use Rattle.csdl_names.specs.csdl_lists.Raw.{raw_role};

    ghost of = { raw_role };

    fn read(alloc: Global, node: Node<'_>) -> Result<RawRole, Memory> {
        let role = text_at(alloc, node, "Role")?;
        let props = texts_at(alloc, node, "PropertyRef")?;
        Ok(RawRole { role, props })
    }
}

/// A Member of an EnumType.
#[derive(Drop)]
pub struct RawMember {
    /// Its name.
    pub name: Txt,
    /// Its number, where one is given.
    pub value: Option<i64>,
}

impl FromNode for RawMember {
    ghost use Rattle.csdl_names.specs.csdl_lists.Raw.{raw_member};

    ghost of = { raw_member };

    fn read(alloc: Global, node: Node<'_>) -> Result<RawMember, Memory> {
        let name = text_at(alloc, node, "Name")?;
        let value = whole_at(node, "Value");
        Ok(RawMember { name, value })
    }
}

/// An EnumType.
#[derive(Drop)]
pub struct RawEnum {
    /// Its name.
    pub name: Txt,
    /// The name of its underlying type, where one is given.
    pub underlying: Option<Txt>,
    /// Its members.
    pub members: Seq<RawMember>,
}

impl FromNode for RawEnum {
    ghost use Rattle.csdl_names.specs.csdl_lists.Raw.{raw_enum};

    ghost of = { raw_enum };

    fn read(alloc: Global, node: Node<'_>) -> Result<RawEnum, Memory> {
        let texts = text_and_optional_at(alloc, node, "Name", "UnderlyingType");
        let members = list_at(alloc, node, "Member");
        let ((name, underlying), members) = both(texts, members)?;
        Ok(RawEnum {
            name,
            underlying,
            members,
        })
    }
}

/// A NavigationProperty.
#[derive(Drop)]
pub struct RawNav {
    /// Its name.
    pub name: Txt,
    /// The reference to its association.
    pub relationship: Txt,
    /// The role that it leads from.
    pub from_role: Txt,
    /// The role that it leads to.
    pub to_role: Txt,
}

impl FromNode for RawNav {
    ghost use Rattle.csdl_names.specs.csdl_lists.Raw.{raw_nav};

    ghost of = { raw_nav };

    fn read(alloc: Global, node: Node<'_>) -> Result<RawNav, Memory> {
        let names = two_texts_at(alloc, node, "Name", "Relationship");
        let roles = two_texts_at(alloc, node, "FromRole", "ToRole");
        let ((name, relationship), (from_role, to_role)) = both(names, roles)?;
        Ok(RawNav {
            name,
            relationship,
            from_role,
            to_role,
        })
    }
}

/// A Property.
#[derive(Drop)]
pub struct RawProp {
    /// Its name.
    pub name: Txt,
    /// Its type.
    pub kind: Txt,
    /// Whether it may be null; by default it may.
    pub nullable: bool,
    /// Its MaxLength.
    pub bound: RawBound,
}

impl FromNode for RawProp {
    ghost use Rattle.csdl_names.specs.csdl_lists.Raw.{raw_prop};

    ghost of = { raw_prop };

    fn read(alloc: Global, node: Node<'_>) -> Result<RawProp, Memory> {
        let (name, kind) = two_texts_at(alloc, node, "Name", "Type")?;
        let nullable = flag_at(node, "Nullable", true);
        let bound = bound_at(node);
        Ok(RawProp {
            name,
            kind,
            nullable,
            bound,
        })
    }
}

/// An EntityType.
#[derive(Drop)]
pub struct RawType {
    /// Its name.
    pub name: Txt,
    /// The reference to its base type, where it has one.
    pub base: Option<Txt>,
    /// Whether it is abstract; by default it isn't.
    pub is_abstract: bool,
    /// The names of its key, where one is given.
    pub key: Option<Seq<Txt>>,
    /// Its own properties.
    pub props: Seq<RawProp>,
    /// Its own navigation properties.
    pub navs: Seq<RawNav>,
}

impl FromNode for RawType {
    ghost use Rattle.csdl_names.specs.csdl_lists.Raw.{raw_type};

    ghost of = { raw_type };

    fn read(alloc: Global, node: Node<'_>) -> Result<RawType, Memory> {
        let names = text_and_optional_at(alloc, node, "Name", "BaseType");
        let is_abstract = flag_at(node, "Abstract", false);
        let key = key_at(alloc, node);
        let lists = two_lists_at(alloc, node, "Property", "NavigationProperty");
        let ((name, base), (key, (props, navs))) = both(names, both(key, lists))?;
        Ok(RawType {
            name,
            base,
            is_abstract,
            key,
            props,
            navs,
        })
    }
}

/// A ReferentialConstraint.
#[derive(Drop)]
pub struct RawConstraint {
    /// The principal end.
    pub principal: RawRole,
    /// The dependent end.
    pub dependent: RawRole,
}

impl FromNode for RawConstraint {
    ghost use Rattle.csdl_names.specs.csdl_lists.Raw.{raw_constraint};

    ghost of = { raw_constraint };

    fn read(alloc: Global, node: Node<'_>) -> Result<RawConstraint, Memory> {
        let principal = object_at(alloc, node, "Principal")?;
        let dependent = object_at(alloc, node, "Dependent")?;
        Ok(RawConstraint {
            principal,
            dependent,
        })
    }
}

/// An Association.
#[derive(Drop)]
pub struct RawAssociation {
    /// Its name.
    pub name: Txt,
    /// Its ends.
    pub ends: Seq<RawEnd>,
    /// Its ReferentialConstraint, where it has one.
    pub constraint: Option<RawConstraint>,
}

impl FromNode for RawAssociation {
    ghost use Rattle.csdl_names.specs.csdl_lists.Raw.{raw_association};

    ghost of = { raw_association };

    fn read(alloc: Global, node: Node<'_>) -> Result<RawAssociation, Memory> {
        let name = text_at(alloc, node, "Name");
        let ends = list_at(alloc, node, "End");
        let constraint = optional_object_at(alloc, node, "ReferentialConstraint");
        let (name, (ends, constraint)) = both(name, both(ends, constraint))?;
        Ok(RawAssociation {
            name,
            ends,
            constraint,
        })
    }
}

/// The EntityContainer.
#[derive(Drop)]
pub struct RawContainer {
    /// Its name.
    pub name: Txt,
    /// Its entity sets.
    pub sets: Seq<RawSet>,
    /// Its association sets.
    pub association_sets: Seq<RawAssociationSet>,
}

impl FromNode for RawContainer {
    ghost use Rattle.csdl_names.specs.csdl_lists.Raw.{raw_container};

    ghost of = { raw_container };

    fn read(alloc: Global, node: Node<'_>) -> Result<RawContainer, Memory> {
        let name = text_at(alloc, node, "Name");
        let lists = two_lists_at(alloc, node, "EntitySet", "AssociationSet");
        let (name, (sets, association_sets)) = both(name, lists)?;
        Ok(RawContainer {
            name,
            sets,
            association_sets,
        })
    }
}

/// A CSDL document.
#[derive(Drop)]
pub struct RawModel {
    /// Its namespace.
    pub namespace: Txt,
    /// The short name for its namespace, where it has one.
    pub alias: Option<Txt>,
    /// Its container.
    pub container: RawContainer,
    /// Its entity types.
    pub types: Seq<RawType>,
    /// Its enumeration types.
    pub enums: Seq<RawEnum>,
    /// Its associations.
    pub associations: Seq<RawAssociation>,
}

impl FromNode for RawModel {
    ghost use Rattle.csdl_names.specs.csdl_lists.Raw.{raw_model};

    ghost of = { raw_model };

    fn read(alloc: Global, node: Node<'_>) -> Result<RawModel, Memory> {
        let names = text_and_optional_at(alloc, node, "Namespace", "Alias");
        let container = object_at(alloc, node, "EntityContainer");
        let lists = two_lists_at(alloc, node, "EntityType", "EnumType");
        let associations = list_at(alloc, node, "Association");
        let (head, tail) = both(both(names, container), both(lists, associations))?;
        let ((namespace, alias), container) = head;
        let ((types, enums), associations) = tail;
        Ok(RawModel {
            namespace,
            alias,
            container,
            types,
            enums,
            associations,
        })
    }
}

/// A MaxLength.
#[derive(Clone, Copy)]
pub enum RawBound {
    /// There is none.
    Absent,
    /// It is `Max`.
    Max,
    /// It is a number.
    Number(i64),
}

fn bound_at(node: Node<'_>) -> RawBound
    ensures { result ≡ bound_at (part_of node.entry) }
{
    match node.member("MaxLength") {
        None => RawBound::Absent,
        Some(member) => match member.whole() {
            Some(number) => RawBound::Number(number),
            None => RawBound::Max,
        },
    }
}

fn key_at(alloc: Global, node: Node<'_>) -> Result<Option<Seq<Txt>>, Memory>
    ensures { IfOk result (λ key. key ≡ key_at (part_of node.entry)) }
{
    if node.member("Key").is_none() {
        return Ok(None);
    }
    let names = texts_at(alloc, node, "Key")?;
    Ok(Some(names))
}
