use emc_base::FkId;
use regions::{Focus, Region};

/// A foreign key that dangles at a focus: in some legal state the focus has a row that refers by the key, and no row stands where it refers to.
#[derive(Drop)]
pub struct DanglingKey {
    /// The entity of a region, or the link, whose row refers.
    pub focus: Focus,
    /// The foreign key.
    pub key: FkId,
    /// The region of the entity whose key the row shows and which has no row in the table to which it refers: the focus's own, where it is the focus itself;
    /// `None` where no entity has this key.
    pub principal: Option<Region>,
}
