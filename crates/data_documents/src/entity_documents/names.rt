ghost use Rattle.std.specs.Prelude.{◌≡◌, IfOk, option_and_then, option_map};
ghost use Rattle.std.specs.Option.{option_copied};
ghost use Rattle.json_form.specs.Nodes.{part_of};
ghost use Rattle.json_form.specs.from_nodes.Reading.{optional_text_at};
ghost use Rattle.round_trip.specs.Words.{type_at};
ghost use Rattle.schema_names.specs.SchemaNames.{association_set_named, set_named, type_named};
ghost use Rattle.data_documents.specs.entity_documents.Names.{independent_named, place_among, prop_named, type_in, type_member};
ghost use Rattle.data_documents.specs.entity_documents.Tables.{AreTablesOf};

use crate::entity_documents::members::{independent_at, props_of};
use crate::entity_documents::tables::NameTables;
use edm_types::{Assoc, EntityModel};
use emc_base::{AssocId, Memory, PropId, TypeId};
use json_form::Node;
use schema_names::local_name;
use std::alloc::Global;

/// An entity model, in which names are looked up.
#[derive(Drop)]
pub struct ModelNames<'a> {
    /// The entity model.
    pub model: &'a EntityModel,
    tables: NameTables,
    ghost tabled: { AreTablesOf model.now tables },
}

impl<'a> ModelNames<'a> {
    /// The names in a model. `Memory` comes where memory ran out.
    pub fn of(alloc: Global, model: &'a EntityModel) -> Result<ModelNames<'a>, Memory>
        ensures { IfOk result (λ names. names.model.now ≡ model.now) }
    {
        let tables = NameTables::of(alloc, model)?;
        Ok(ModelNames { model, tables })
    }

    /// The type that an entity object tells. `Memory` comes where there are too many types.
    pub fn type_in(&self, node: Node<'_>) -> Result<Option<TypeId>, Memory>
        ensures { IfOk result (λ ty. ty ≡ type_in self.now.model.now (part_of node.entry)) }
    {
        let Some(place) = self.type_place(node) else {
            return Ok(None);
        };
        let Ok(index) = u32::try_from(place) else {
            return Err(Memory);
        };
        Ok(Some(TypeId { index }))
    }

    // The place of the type that an entity object tells.
    fn type_place(&self, node: Node<'_>) -> Option<usize>
        ensures { result ≡ option_and_then (type_named self.now.model.now) (optional_text_at type_member (part_of node.entry)) }
    {
        self.type_named(text_at(node, "$type")?)
    }

    // The entity type that a reference names.
    fn type_named(&self, reference: &str) -> Option<usize>
        ensures { result ≡ type_named self.now.model.now reference.now }
    {
        self.tables
            .types
            .place_of(local_name(self.model, reference)?)
    }

    /// The entity set of a name.
    pub fn set_named(&self, name: &str) -> Option<usize>
        ensures { result ≡ set_named self.now.model.now name.now }
    {
        self.tables.sets.place_of(name)
    }

    /// The independent association whose set has this name. `Memory` comes where there are too many association sets.
    pub fn independent_named(&self, name: &str) -> Result<Option<&'a Assoc>, Memory>
        ensures { IfOk result (λ assoc. option_copied assoc ≡ independent_named self.now.model.now name.now) }
    {
        let Some(place) = self.association_set_named(name) else {
            return Ok(None);
        };
        let Ok(index) = u32::try_from(place) else {
            return Err(Memory);
        };
        Ok(independent_at(self.model, AssocId { index }))
    }

    /// The association set of a name.
    pub fn association_set_named(&self, name: &str) -> Option<usize>
        ensures { result ≡ association_set_named self.now.model.now name.now }
    {
        self.tables.association_sets.place_of(name)
    }

    /// The property of a name that a type has, its own or an inherited one.
    pub fn prop_named(&self, ty: TypeId, name: &str) -> Option<PropId>
        ensures { result ≡ prop_named self.now.model.now ty name.now }
    {
        let place = self.place_among(ty, name)?;
        props_of(self.model, ty).get(place).copied()
    }

    // Where the property of a name stands among those of a type.
    fn place_among(&self, ty: TypeId, name: &str) -> Option<usize>
        ensures { result ≡ option_and_then (place_among self.now.model.now name.now) (type_at self.now.model.now ty) }
    {
        self.tables.props.get(ty.index as usize)?.place_of(name)
    }
}

/// The text of a member, where it is one.
pub fn text_at<'a>(node: Node<'a>, name: &str) -> Option<&'a str>
    ensures { option_map (λ text. text.now) result ≡ optional_text_at name.now (part_of node.entry) }
{
    let member = node.member(name)?;
    member.text()
}
