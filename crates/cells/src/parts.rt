use crate::cells::Cells;
use edm_types::{EntityModel, Mapping, StoreModel};

/// A model, a store and a mapping between them, with the cells of the mapping.
#[derive(Drop)]
pub struct Parts<'a> {
    pub model: &'a EntityModel,
    pub store: &'a StoreModel,
    pub mapping: &'a Mapping,
    pub cells: &'a Cells,
}
