//! What the round trip promises in the positive: where no legal state fails, each has tables of its own.

ghost use Rattle.round_trip.specs.Words.{AreSameTables, IsLegal, IsSameState, Keeps, RoundTrips, Schema, State, Tables, TablesAre};
ghost use Rattle.round_trip.specs.soundness.mappings.Mappings.{IsSoundSchema};

/// Where no legal state fails, legal states with the same tables are the same.
pub fn states_are_told_apart()
    ensures apart { (schema : Schema) → IsSoundSchema schema → RoundTrips schema → (c d : State) (s t : Tables) → IsLegal schema.model c → IsLegal schema.model d
        → TablesAre schema c s → TablesAre schema d t → AreSameTables s t → IsSameState c d }
{}

/// Where no legal state fails, every legal state is kept: it has tables that are legal and agree with each fragment, and no other legal state has the same.
pub fn every_state_is_kept()
    ensures keeps { (schema : Schema) → IsSoundSchema schema → RoundTrips schema → Keeps schema }
{}
