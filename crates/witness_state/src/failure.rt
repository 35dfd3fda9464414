use emc_base::Place;
use entity_state::EntityState;
use round_trip::FailKind;

/// A legal state that fails: how, where, and the state whole; for the kind `Same` the other state with the same tables.
#[derive(Drop)]
pub struct Failure {
    /// How the state fails.
    pub kind: FailKind,
    /// Where it fails: the fragment, table or set; the key of the row, entity or link; and the column or foreign key, as far as there are any.
    pub place: Place,
    /// The state that fails.
    pub state: EntityState,
    /// Another state with the same tables; given for the kind `Same` alone.
    pub other: Option<EntityState>,
}
