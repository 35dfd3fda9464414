ghost use Rattle.std.specs.Prelude.{◌≡◌, ◌==◌, IfOk, find, position, unwrap_or};
ghost use Rattle.std.specs.Option.{option_copied};
ghost use Rattle.round_trip.specs.Words.{Null, key_props, props_of};
ghost use Rattle.regions.specs.region_laws.pattern.Allowed.{end_at};
ghost use Rattle.update_views.specs.view_rows.Made.{cell_of, end_cell, own_cell, partner_cell, symbol_cell};
ghost use Rattle.update_views.specs.view_rows.Held.{held_by_entity, part_held};

use edm_types::{Assoc, End, Entity, EntityModel, Hosted};
use emc_base::{AssocId, Memory, PropId, TypeId, Value};
use regions::Symbol;
use std::alloc::Global;

/// What a cell of an entity's row holds.
#[derive(Drop)]
pub enum ViewCell {
    /// This value, null included.
    Const(Value),
    /// The entity's value at this place among those of its type.
    Own(usize),
    /// The part at this place of the key to which the entity's link of an association leads.
    Partner { assoc: AssocId, part: usize },
}

/// What a cell holds that lists these symbols, for an entity of the type: null where it lists none, else what the first says. `Memory` comes where memory ran
/// out.
pub(super) fn cell_of(
    alloc: Global,
    model: &EntityModel,
    ty: TypeId,
    symbols: &[Symbol],
) -> Result<ViewCell, Memory>
    ensures { IfOk result (λ cell. cell ≡ cell_of model.now ty symbols.now) }
{
    match symbols.first() {
        Some(symbol) => symbol_cell(alloc, model, ty, symbol),
        None => Ok(ViewCell::Const(Value::Null)),
    }
}

// What a cell holds by one symbol.
fn symbol_cell(
    alloc: Global,
    model: &EntityModel,
    ty: TypeId,
    symbol: &Symbol,
) -> Result<ViewCell, Memory>
    ensures { IfOk result (λ cell. cell ≡ symbol_cell model.now ty symbol.now) }
{
    match symbol {
        Symbol::Null => Ok(ViewCell::Const(Value::Null)),
        Symbol::Const(value) => Ok(ViewCell::Const(value.copy(alloc)?)),
        Symbol::Prop(prop) => Ok(own_cell(props_of(model, ty), *prop)),
        Symbol::End { assoc, first, prop } => Ok(end_cell(model, *assoc, *first, *prop)),
    }
}

// The entity's value of a property, where its type has these.
fn own_cell(props: &[PropId], prop: PropId) -> ViewCell
    ensures { result ≡ own_cell prop props.now }
{
    match place_among(props, prop) {
        Some(place) => ViewCell::Own(place),
        None => ViewCell::Const(Value::Null),
    }
}

// A part of the key at an end of an association.
fn end_cell(model: &EntityModel, assoc: AssocId, first: bool, prop: PropId) -> ViewCell
    ensures { result ≡ end_cell model.now assoc first prop }
{
    let Some(declared) = model.assocs.get(assoc.index as usize) else {
        return ViewCell::Const(Value::Null);
    };
    partner_cell(assoc, key_props(model, end_at(first, declared).ty), prop)
}

// A part of the key to which a link of an association leads, where the key has these.
fn partner_cell(assoc: AssocId, key: &[PropId], prop: PropId) -> ViewCell
    ensures { result ≡ partner_cell assoc prop key.now }
{
    match place_among(key, prop) {
        Some(part) => ViewCell::Partner { assoc, part },
        None => ViewCell::Const(Value::Null),
    }
}

/// An end of an association, the first or the second.
pub(super) fn end_at(first: bool, assoc: &Assoc) -> &End
    ensures { result.now ≡ end_at first assoc.now }
{
    if first { &assoc.first } else { &assoc.second }
}

/// Where a property stands first among others.
pub(super) fn place_among(props: &[PropId], prop: PropId) -> Option<usize>
    ensures { result ≡ position (λ other. other.index == prop.index) props.now }
{
    props.iter().position(|other| other.index == prop.index)
}

// The properties of a type.
fn props_of(model: &EntityModel, ty: TypeId) -> &[PropId]
    ensures { result.now ≡ props_of model.now ty }
{
    match model.types.get(ty.index as usize) {
        Some(declared) => declared.props.as_slice(),
        None => &[],
    }
}

/// The key of a type.
pub(super) fn key_props(model: &EntityModel, ty: TypeId) -> &[PropId]
    ensures { result.now ≡ key_props model.now ty }
{
    match model.types.get(ty.index as usize) {
        Some(declared) => declared.key.as_slice(),
        None => &[],
    }
}

impl ViewCell {
    /// A copy of the value that the cell holds for an entity with the links that it hosts. `Memory` comes where memory ran out.
    pub(super) fn value(
        &self,
        alloc: Global,
        entity: &Entity,
        links: &[Hosted],
    ) -> Result<Value, Memory>
        ensures { IfOk result (λ value. value ≡ held_by_entity entity.now links.now self.now) }
    {
        match self {
            ViewCell::Const(value) => value.copy(alloc),
            ViewCell::Own(place) => copy_or_null(alloc, entity.values.get(*place)),
            ViewCell::Partner { assoc, part } => {
                copy_or_null(alloc, part_held(links, *assoc, *part))
            }
        }
    }
}

// A part of the key to which the first of the links leads that is of the association.
fn part_held(links: &[Hosted], assoc: AssocId, part: usize) -> Option<&Value>
    ensures { option_copied result ≡ part_held links.now assoc part }
{
    match link_of(links, assoc) {
        Some(link) => link.partner.get(part),
        None => None,
    }
}

// The first of the links that is of the association.
fn link_of(links: &[Hosted], assoc: AssocId) -> Option<&Hosted>
    ensures { option_copied result ≡ find (λ hosted. hosted.assoc.index == assoc.index) links.now }
{
    links
        .iter()
        .find(|hosted| hosted.assoc.index == assoc.index)
}

/// A copy of a value; null where there is none.
pub(super) fn copy_or_null(alloc: Global, value: Option<&Value>) -> Result<Value, Memory>
    ensures { IfOk result (λ copy. copy ≡ unwrap_or (option_copied value.entry) Null) }
{
    match value {
        Some(value) => value.copy(alloc),
        None => Ok(Value::Null),
    }
}
