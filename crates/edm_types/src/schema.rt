use crate::mapping::Mapping;
use crate::model::EntityModel;
use crate::store::StoreModel;

/// What the three documents of a mapping say together: the entity model of the CSDL document, the store model of the SSDL document, and
/// the mapping of the MSL document between the two.
#[derive(Drop)]
pub struct Schema {
    pub model: EntityModel,
    pub store: StoreModel,
    pub mapping: Mapping,
}
