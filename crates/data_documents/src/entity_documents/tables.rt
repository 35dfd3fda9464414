ghost use Rattle.std.specs.Prelude.{◌≡◌, IfOk, map};
ghost use Rattle.groupings.specs.name_places.GivenNames.{first_place};
ghost use Rattle.groupings.specs.name_places.PlacesIn.{place_in};
ghost use Rattle.entity_state.specs.StateTree.{name_of};
ghost use Rattle.data_documents.specs.entity_documents.Tables.{name_or};

use edm_types::EntityModel;
use emc_base::{Memory, PropId, Seq, Txt, beside};
use groupings::Places;
use schema_names::places_by;
use std::alloc::Global;

/// Where the names in an entity model are given first.
#[derive(Drop)]
pub struct NameTables {
    /// The entity types.
    pub types: Places,
    /// The entity sets.
    pub sets: Places,
    /// The association sets.
    pub association_sets: Places,
    /// The properties of each type, inherited ones included.
    pub props: Seq<Places>,
}

impl NameTables {
    ghost use Rattle.data_documents.specs.entity_documents.Tables.{AreTablesOf};

    /// Those of a model.
    pub fn of(alloc: Global, model: &EntityModel) -> Result<NameTables, Memory>
        ensures { IfOk result (AreTablesOf model.now) }
    {
        let sets = set_places(alloc, model)?;
        let (sets, types) = beside(sets, type_places(alloc, model))?;
        let (sets, association_sets) = sets;
        let (types, props) = types;
        Ok(NameTables {
            types,
            sets,
            association_sets,
            props,
        })
    }
}

// Where the names of entity sets are given first, and those of association sets.
fn set_places(alloc: Global, model: &EntityModel) -> Result<(Places, Places), Memory>
    ensures sets { IfOk result (λ places. place_in places.0 ≡ first_place (λ set. set.name) model.now.sets) }
    ensures association_sets { IfOk result (λ places. place_in places.1 ≡ first_place (λ assoc. assoc.set_name) model.now.assocs) }
{
    let sets = places_by(alloc, model.sets.as_slice(), |set| &set.name)?;
    let assocs = model.assocs.as_slice();
    beside(sets, places_by(alloc, assocs, |assoc| &assoc.set_name))
}

// Where the names of entity types are given first, and those of the properties of each.
fn type_places(alloc: Global, model: &EntityModel) -> Result<(Places, Seq<Places>), Memory>
    ensures types { IfOk result (λ places. place_in places.0 ≡ first_place (λ type. type.name) model.now.types) }
    ensures props { IfOk result (λ places. map place_in places.1 ≡ map (λ type. first_place (name_of model.now) type.props) model.now.types) }
{
    let types = places_by(alloc, model.types.as_slice(), |ty| &ty.name)?;
    beside(types, props_in(alloc, model))
}

// Where the properties of each type are, by their names in the model.
fn props_in(alloc: Global, model: &EntityModel) -> Result<Seq<Places>, Memory>
    ensures { IfOk result (λ props. map place_in props ≡ map (λ type. first_place (name_of model.now) type.props) model.now.types) }
{
    let unnamed = Txt::of(alloc, "")?;
    props_of(alloc, model, &unnamed)
}

// Where the properties of each type are.
fn props_of(alloc: Global, model: &EntityModel, unnamed: &Txt) -> Result<Seq<Places>, Memory>
    ensures { IfOk result (λ props. map place_in props ≡ map (λ type. first_place (name_or model.now unnamed.now) type.props) model.now.types) }
{
    let mut props = Seq::empty(alloc);
    for ty in model.types.as_slice() {
        props.push(props_by_name(alloc, model, ty.props.as_slice(), unnamed)?)?;
    }
    Ok(props)
}

// Where the names of some properties are given first.
fn props_by_name(
    alloc: Global,
    model: &EntityModel,
    props: &[PropId],
    unnamed: &Txt,
) -> Result<Places, Memory>
    ensures { IfOk result (λ places. place_in places ≡ first_place (name_or model.now unnamed.now) props.now) }
{
    let places = places_by(alloc, props, |prop| name_or(model, *prop, unnamed))?;
    Ok(places)
}

// The name of a property, or else the one that stands for none.
fn name_or<'a>(model: &'a EntityModel, prop: PropId, unnamed: &'a Txt) -> &'a Txt
    ensures { result.now ≡ name_or model.now unnamed.now prop }
{
    match model.props.get(prop.index as usize) {
        Some(declared) => &declared.name,
        None => unnamed,
    }
}
