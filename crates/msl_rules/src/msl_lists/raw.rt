ghost use Rattle.std.specs.Prelude.{◌≡◌, IfOk};
ghost use Rattle.json_form.specs.Nodes.{part_of};
ghost use Rattle.msl_rules.specs.msl_lists.Raw.{optional_flag_at, picks_at, raw_container};

use crate::msl_lists::picks::read_picks;
use emc_base::{Memory, Seq, Txt, both};
use json_form::{FromNode, Node, list_at, optional_text_at, text_at};
use serde_json::Value;
use std::alloc::Global;

/// A ScalarProperty.
#[derive(Drop)]
pub struct RawPair {
    /// The name of the property.
    pub prop: Txt,
    /// The name of the column.
    pub col: Txt,
}

impl FromNode for RawPair {
    ghost use Rattle.msl_rules.specs.msl_lists.Raw.{raw_pair};

    ghost of = { raw_pair };

    fn read(alloc: Global, node: Node<'_>) -> Result<RawPair, Memory> {
        let prop = text_at(alloc, node, "Name")?;
        let col = text_at(alloc, node, "ColumnName")?;
        Ok(RawPair { prop, col })
    }
}

/// A Condition.
#[derive(Drop)]
pub struct RawCond {
    /// The name of the property, where one is given.
    pub prop: Option<Txt>,
    /// The name of the column, where one is given.
    pub col: Option<Txt>,
    /// The value as it is written, where one is given.
    pub value: Option<Txt>,
    /// Whether null is asked for, where that is given.
    pub is_null: Option<bool>,
}

impl FromNode for RawCond {
    ghost use Rattle.msl_rules.specs.msl_lists.Raw.{raw_cond};

    ghost of = { raw_cond };

    fn read(alloc: Global, node: Node<'_>) -> Result<RawCond, Memory> {
        let prop = optional_text_at(alloc, node, "Name")?;
        let col = optional_text_at(alloc, node, "ColumnName")?;
        let value = optional_text_at(alloc, node, "Value")?;
        let is_null = optional_flag_at(node, "IsNull");
        Ok(RawCond {
            prop,
            col,
            value,
            is_null,
        })
    }
}

/// A MappingFragment.
#[derive(Drop)]
pub struct RawFragment {
    /// The name of its table.
    pub table: Txt,
    /// Its properties, each with its column.
    pub pairs: Seq<RawPair>,
    /// Its conditions.
    pub conds: Seq<RawCond>,
}

impl FromNode for RawFragment {
    ghost use Rattle.msl_rules.specs.msl_lists.Raw.{raw_fragment};

    ghost of = { raw_fragment };

    fn read(alloc: Global, node: Node<'_>) -> Result<RawFragment, Memory> {
        let table = text_at(alloc, node, "StoreEntitySet")?;
        let pairs = list_at(alloc, node, "ScalarProperty")?;
        let conds = list_at(alloc, node, "Condition")?;
        Ok(RawFragment {
            table,
            pairs,
            conds,
        })
    }
}

/// An item of a TypeName.
#[derive(Drop)]
pub struct RawPick {
    /// The reference to the type.
    pub reference: Txt,
    /// Whether the types below it are meant too: it is written `IsTypeOf(reference)`.
    pub below: bool,
}

/// An EntityTypeMapping.
#[derive(Drop)]
pub struct RawTypeMapping {
    /// The items of its TypeName.
    pub picks: Seq<RawPick>,
    /// Its fragments.
    pub fragments: Seq<RawFragment>,
}

impl FromNode for RawTypeMapping {
    ghost use Rattle.msl_rules.specs.msl_lists.Raw.{raw_type_mapping};

    ghost of = { raw_type_mapping };

    fn read(alloc: Global, node: Node<'_>) -> Result<RawTypeMapping, Memory> {
        let picks = picks_at(alloc, node)?;
        let fragments = list_at(alloc, node, "MappingFragment")?;
        Ok(RawTypeMapping { picks, fragments })
    }
}

/// An EntitySetMapping.
#[derive(Drop)]
pub struct RawSetMapping {
    /// The name of the entity set.
    pub name: Txt,
    /// The mappings of its types.
    pub types: Seq<RawTypeMapping>,
}

impl FromNode for RawSetMapping {
    ghost use Rattle.msl_rules.specs.msl_lists.Raw.{raw_set_mapping};

    ghost of = { raw_set_mapping };

    fn read(alloc: Global, node: Node<'_>) -> Result<RawSetMapping, Memory> {
        let name = text_at(alloc, node, "Name")?;
        let types = list_at(alloc, node, "EntityTypeMapping")?;
        Ok(RawSetMapping { name, types })
    }
}

/// An EndProperty.
#[derive(Drop)]
pub struct RawEndMapping {
    /// The role of the end.
    pub role: Txt,
    /// The properties of its key, each with its column.
    pub pairs: Seq<RawPair>,
}

impl FromNode for RawEndMapping {
    ghost use Rattle.msl_rules.specs.msl_lists.Raw.{raw_end_mapping};

    ghost of = { raw_end_mapping };

    fn read(alloc: Global, node: Node<'_>) -> Result<RawEndMapping, Memory> {
        let role = text_at(alloc, node, "Name")?;
        let pairs = list_at(alloc, node, "ScalarProperty")?;
        Ok(RawEndMapping { role, pairs })
    }
}

/// An AssociationSetMapping.
#[derive(Drop)]
pub struct RawLinkMapping {
    /// The name of the association set.
    pub name: Txt,
    /// The reference to its association.
    pub association: Txt,
    /// The name of its table.
    pub table: Txt,
    /// Its ends.
    pub ends: Seq<RawEndMapping>,
    /// Its conditions.
    pub conds: Seq<RawCond>,
}

impl FromNode for RawLinkMapping {
    ghost use Rattle.msl_rules.specs.msl_lists.Raw.{raw_link_mapping};

    ghost of = { raw_link_mapping };

    fn read(alloc: Global, node: Node<'_>) -> Result<RawLinkMapping, Memory> {
        let names = both(
            text_at(alloc, node, "Name"),
            text_at(alloc, node, "TypeName"),
        );
        let lists = both(
            list_at(alloc, node, "EndProperty"),
            list_at(alloc, node, "Condition"),
        );
        let table = text_at(alloc, node, "StoreEntitySet");
        let ((name, association), (table, (ends, conds))) = both(names, both(table, lists))?;
        Ok(RawLinkMapping {
            name,
            association,
            table,
            ends,
            conds,
        })
    }
}

/// An MSL document.
#[derive(Drop)]
pub struct RawMapping {
    /// The name of the container of the store.
    pub store_container: Txt,
    /// The name of the container of the model.
    pub model_container: Txt,
    /// The mappings of entity sets.
    pub sets: Seq<RawSetMapping>,
    /// The mappings of association sets.
    pub links: Seq<RawLinkMapping>,
}

impl FromNode for RawMapping {
    ghost use Rattle.msl_rules.specs.msl_lists.Raw.{raw_mapping};

    ghost of = { raw_mapping };

    fn read(alloc: Global, node: Node<'_>) -> Result<RawMapping, Memory> {
        match node.member("EntityContainerMapping") {
            Some(container) => read_container(alloc, container),
            None => read_container(alloc, Node::new(&Value::Null)),
        }
    }
}

// What is read of the EntityContainerMapping.
fn read_container(alloc: Global, node: Node<'_>) -> Result<RawMapping, Memory>
    ensures { IfOk result (λ mapping. mapping ≡ raw_container (part_of node.entry)) }
{
    let store_container = text_at(alloc, node, "StorageEntityContainer")?;
    let model_container = text_at(alloc, node, "CdmEntityContainer")?;
    let sets = list_at(alloc, node, "EntitySetMapping")?;
    let links = list_at(alloc, node, "AssociationSetMapping")?;
    Ok(RawMapping {
        store_container,
        model_container,
        sets,
        links,
    })
}

// The items of the TypeName.
fn picks_at(alloc: Global, node: Node<'_>) -> Result<Seq<RawPick>, Memory>
    ensures { IfOk result (λ picks. picks ≡ picks_at (part_of node.entry)) }
{
    let text = text_at(alloc, node, "TypeName")?;
    let picks = read_picks(alloc, text.as_str())?;
    Ok(picks)
}

// The flag of a member, where it has one.
fn optional_flag_at(node: Node<'_>, name: &str) -> Option<bool>
    ensures { result ≡ optional_flag_at name.now (part_of node.entry) }
{
    let member = node.member(name)?;
    member.flag()
}
