use dangling_search::Look;
use edm_types::ForeignKey;
use emc_base::PropId;

/// A foreign key by which the row of a focus refers, and what the state is made by that is shown of it.
#[derive(Clone, Copy)]
pub struct Referring<'a> {
    /// The focus with its pattern.
    pub look: Look<'a>,
    /// The key.
    pub key: &'a ForeignKey,
    /// The row of numbers.
    pub row: u32,
    /// The properties that are not to be null.
    pub not_null: &'a [PropId],
}
