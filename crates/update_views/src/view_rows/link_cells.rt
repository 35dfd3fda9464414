ghost use Rattle.std.specs.Prelude.{◌≡◌, IfOk};
ghost use Rattle.update_views.specs.view_rows.Held.{held_by_link};
ghost use Rattle.update_views.specs.view_rows.Made.{link_cell_of, link_symbol_cell, part_cell};

use crate::view_rows::view_cells::{copy_or_null, end_at, key_props, place_among};
use edm_types::{Assoc, EntityModel, Link};
use emc_base::{Memory, PropId, Value};
use regions::Symbol;
use std::alloc::Global;

/// What a cell of a link's own row holds.
#[derive(Drop)]
pub enum LinkCell {
    /// This value, null included.
    Const(Value),
    /// The part at this place of the key at one end.
    Part {
        /// Whether it is the first end.
        first: bool,
        part: usize,
    },
}

/// What a cell holds that lists these symbols, for a link of the association: null where it lists none, else what the first says. `Memory` comes where memory
/// ran out.
pub(super) fn link_cell_of(
    alloc: Global,
    model: &EntityModel,
    assoc: &Assoc,
    symbols: &[Symbol],
) -> Result<LinkCell, Memory>
    ensures { IfOk result (λ cell. cell ≡ link_cell_of model.now assoc.now symbols.now) }
{
    match symbols.first() {
        Some(symbol) => link_symbol_cell(alloc, model, assoc, symbol),
        None => Ok(LinkCell::Const(Value::Null)),
    }
}

// What a cell holds by one symbol.
fn link_symbol_cell(
    alloc: Global,
    model: &EntityModel,
    assoc: &Assoc,
    symbol: &Symbol,
) -> Result<LinkCell, Memory>
    ensures { IfOk result (λ cell. cell ≡ link_symbol_cell model.now assoc.now symbol.now) }
{
    match symbol {
        Symbol::Const(value) => Ok(LinkCell::Const(value.copy(alloc)?)),
        Symbol::End { first, prop, .. } => {
            let key = key_props(model, end_at(*first, assoc).ty);
            Ok(part_cell(*first, key, *prop))
        }
        Symbol::Null | Symbol::Prop(_) => Ok(LinkCell::Const(Value::Null)),
    }
}

// A part of the key at one end, where the key has these.
fn part_cell(first: bool, key: &[PropId], prop: PropId) -> LinkCell
    ensures { result ≡ part_cell first prop key.now }
{
    match place_among(key, prop) {
        Some(part) => LinkCell::Part { first, part },
        None => LinkCell::Const(Value::Null),
    }
}

impl LinkCell {
    /// A copy of the value that the cell holds for a link. `Memory` comes where memory ran out.
    pub(super) fn value(&self, alloc: Global, link: &Link) -> Result<Value, Memory>
        ensures { IfOk result (λ value. value ≡ held_by_link link.now self.now) }
    {
        match self {
            LinkCell::Const(value) => value.copy(alloc),
            LinkCell::Part { first, part } => {
                let key = if *first { &link.first } else { &link.second };
                copy_or_null(alloc, key.get(*part))
            }
        }
    }
}
