ghost use Rattle.std.specs.Prelude.{◌≡◌, IfOk};

use crate::Memory;

/// An entity set, by its place among the model's sets.
#[derive(Clone, Copy, Debug, PartialEq, Eq)]
pub struct SetId {
    pub index: u32,
}

/// An entity type, by its place among the model's types.
#[derive(Clone, Copy, Debug, PartialEq, Eq)]
pub struct TypeId {
    pub index: u32,
}

/// A property, by its place among the model's properties.
#[derive(Clone, Copy, Debug, PartialEq, Eq)]
pub struct PropId {
    pub index: u32,
}

/// A table, by its place among the store's tables.
#[derive(Clone, Copy, Debug, PartialEq, Eq)]
pub struct TableId {
    pub index: u32,
}

/// A column, by its place in its table.
#[derive(Clone, Copy, Debug, PartialEq, Eq)]
pub struct ColId {
    pub index: u32,
}

/// An association set, by its place among the model's association sets.
#[derive(Clone, Copy, Debug, PartialEq, Eq)]
pub struct AssocId {
    pub index: u32,
}

/// A foreign key, by its place among the store's foreign keys.
#[derive(Clone, Copy, Debug, PartialEq, Eq)]
pub struct FkId {
    pub index: u32,
}

/// An entity fragment, by its place among the mapping's fragments.
#[derive(Clone, Copy, Debug, PartialEq, Eq)]
pub struct FragId {
    pub index: u32,
}

/// An association fragment, by its place among the mapping's association fragments.
#[derive(Clone, Copy, Debug, PartialEq, Eq)]
pub struct LinkFragId {
    pub index: u32,
}

/// A group of joined properties and columns, by its place among the groups.
#[derive(Clone, Copy, Debug, PartialEq, Eq)]
pub struct GroupId {
    pub index: u32,
}

/// A place in 32 bits. One that is past these counts as want of memory.
pub fn narrow(place: usize) -> Result<u32, Memory>
    ensures { IfOk result (λ index. index ≡ place) }
{
    match u32::try_from(place) {
        Ok(index) => Ok(index),
        Err(_) => Err(Memory),
    }
}
