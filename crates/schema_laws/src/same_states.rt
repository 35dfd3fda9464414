//! What holds of a state holds of the same entities and links in another order, and so it is with tables.

ghost use Rattle.round_trip.specs.Words.{AreSameTables, AreTables, EntityModel, IsLegal, IsSameState, IsState, Schema, State, Tables, TablesAre};

/// What holds of a state holds of the same state in another order: its rules, and which tables it has. And these tables may be in another order.
pub fn the_same_state_is_as_legal()
    ensures legal { (model : EntityModel) (one two : State) → IsSameState one two → IsState model two → IsLegal model one → IsLegal model two }
    ensures tables { (schema : Schema) (one two : State) → IsSameState one two → (tables : Tables) → TablesAre schema one tables → TablesAre schema two tables }
    ensures order { (schema : Schema) (state : State) (tables others : Tables) → AreTables schema.store others → AreSameTables tables others
        → TablesAre schema state tables → TablesAre schema state others }
{}
