//! What a state of a sound schema demands of the tables. No law here has a premise on the schema but that it is sound.

ghost use Rattle.std.specs.Prelude.{◌↔◌, IsTrue, List};
ghost use Rattle.round_trip.specs.Words.{AreLegalTables, AreSameTables, Assoc, At, EntityModel, HasGoodTables, HasNoClash, IsLegal, IsWritten, LinkFragment, Pair, Place, RoundTrips, Schema, SetId, State, Table, TableId, Tables, TablesAre};
ghost use Rattle.round_trip.specs.FailsAt.{Clashes, Dangles, LeavesNull};
ghost use Rattle.emc_base.specs.Lists.{HoldsEachOnce};
ghost use Rattle.round_trip.specs.soundness.Lookups.{set_key};
ghost use Rattle.round_trip.specs.soundness.mappings.Mappings.{IsSoundSchema};
ghost use Rattle.round_trip.specs.soundness.models.Models.{IsSoundModel};
ghost use Rattle.schema_laws.specs.state_demand.Owners.{HasOwner, IsJoinedTo, IsOwned, props_in};
ghost use Rattle.schema_laws.specs.state_demand.Selecting.{DecidesTypes};
ghost use Rattle.schema_laws.specs.state_demand.Writings.{AreWritings};
ghost use Rattle.schema_laws.specs.sound_demand.Deriving.{derives};
ghost use Rattle.schema_laws.specs.sound_demand.Disagreeing.{FailsAtEntities, TuplesAreOfEntities, TuplesAreOfHosts, TuplesAreOfLinks};
ghost use Rattle.schema_laws.specs.sound_demand.Fragments.{IsStoredIn};
ghost use Rattle.schema_laws.specs.sound_demand.Local.{HasLocalDemand, IsLocal, IsLocalToLinks};
ghost use Rattle.schema_laws.specs.sound_demand.Made.{has_no_clash, tables_for, writings_in};
ghost use Rattle.schema_laws.specs.sound_demand.OneOwner.{IsJoinedOnce, IsOwnedAlone, IsOwnedOnce};
ghost use Rattle.schema_laws.specs.sound_demand.ReadBack.{AgreementIsAtEntities, AgreementIsAtHosts, AgreementIsAtRows, AreRowsOf, AreRowsOfLinks, EntitiesWriteRows, HostedLinksWriteRows, JoinedLinksWriteRows};

/// In a sound model it is computed whether a type is another or derived from it.
pub fn types_are_decided()
    ensures decided { (model : EntityModel) → IsSoundModel model → DecidesTypes model (derives model) }
{}

/// What a state writes is a finite list.
pub fn writings_are_a_list()
    ensures listed { (schema : Schema) → IsSoundSchema schema → (state : State) → AreWritings schema state (writings_in schema state) }
{}

/// A state that doesn't clash has tables: those that its writings make.
pub fn a_state_without_a_clash_has_tables()
    ensures made { (schema : Schema) → IsSoundSchema schema → (state : State) → HasNoClash schema state → TablesAre schema state (tables_for schema state) }
{}

/// A state's tables are these, up to the order of rows.
pub fn tables_are_one_up_to_order()
    ensures same { (schema : Schema) → IsSoundSchema schema → (state : State) (tables : Tables) → TablesAre schema state tables → AreSameTables tables (tables_for schema state) }
{}

/// Whether a state clashes is computed, and a state that clashes at no place doesn't clash.
pub fn a_clash_is_decided()
    ensures decided { (schema : Schema) → IsSoundSchema schema → (state : State) → IsTrue (has_no_clash schema state) ↔ HasNoClash schema state }
    ensures shown { (schema : Schema) → IsSoundSchema schema → (state : State) → ((place : Place) → ¬ Clashes schema state place) → HasNoClash schema state }
{}

/// A set with a pairing owns a table, or a joined association does, or nothing writes it; a table that is written has one owner and one pairing.
pub fn each_table_has_one_owner()
    ensures owner { (schema : Schema) → IsSoundSchema schema → (t : TableId) → HasOwner schema t }
    ensures one { (schema : Schema) → IsSoundSchema schema → (t : TableId) → IsWritten schema.mapping t → IsOwnedOnce schema t }
    ensures alone { (schema : Schema) → IsSoundSchema schema → (t : TableId) → IsOwnedAlone schema t }
    ensures joined { (schema : Schema) → IsSoundSchema schema → (t : TableId) → IsJoinedOnce schema t }
{}

/// A pairing holds the set's key, each property once; its columns are the primary key.
pub fn a_pairing_is_one_to_one()
    ensures whole { (schema : Schema) → IsSoundSchema schema → (t : TableId) (owner : SetId) (pairing : List Pair) → IsOwned schema t owner pairing → IsWritten schema.mapping t
        → HoldsEachOnce (set_key schema.model owner) (props_in pairing) }
{}

/// What is written to a row is of the one entity that stands at its key, or of one link.
pub fn demand_is_local()
    ensures tables { (schema : Schema) → IsSoundSchema schema → (state : State) → IsLegal schema.model state → (t : TableId) → HasLocalDemand schema state t }
    ensures entities { (schema : Schema) → IsSoundSchema schema → (state : State) → IsLegal schema.model state → (t : TableId) (owner : SetId) (pairing : List Pair)
        → IsOwned schema t owner pairing → IsLocal schema state t owner pairing }
    ensures links { (schema : Schema) → IsSoundSchema schema → (state : State) → IsLegal schema.model state → (t : TableId) (fragment : LinkFragment) (assoc : Assoc)
        → IsJoinedTo schema t fragment assoc → IsLocalToLinks schema state t fragment assoc }
{}

/// The rows of a table are read back as entities, or as links one to one.
pub fn rows_are_read_back()
    ensures entities { (schema : Schema) → IsSoundSchema schema → (state : State) → IsLegal schema.model state → (tables : Tables) → TablesAre schema state tables
        → (t : TableId) (table : Table) → At schema.store.tables t.index table → (owner : SetId) (pairing : List Pair) → IsOwned schema t owner pairing
        → AreRowsOf schema state tables t table owner pairing }
    ensures links { (schema : Schema) → IsSoundSchema schema → (state : State) → IsLegal schema.model state → (tables : Tables) → TablesAre schema state tables
        → (t : TableId) (table : Table) → At schema.store.tables t.index table → (fragment : LinkFragment) (assoc : Assoc) → IsJoinedTo schema t fragment assoc
        → AreRowsOfLinks schema state tables t table fragment assoc }
{}

/// A fragment agrees with the tables exactly where it does at each key: it shows the row exactly where it selects the entity that stands there,
/// or where a link of its association is hosted at this; in a joined association's table it shows every row.
pub fn tuples_are_decided_at_their_key()
    ensures entities { (schema : Schema) → IsSoundSchema schema → (state : State) (tables : Tables) → IsStoredIn schema state tables → AgreementIsAtEntities schema state tables }
    ensures hosted { (schema : Schema) → IsSoundSchema schema → (state : State) (tables : Tables) → IsStoredIn schema state tables → AgreementIsAtHosts schema state tables }
    ensures joined { (schema : Schema) → IsSoundSchema schema → (state : State) (tables : Tables) → IsStoredIn schema state tables → AgreementIsAtRows schema state tables }
{}

/// What an entity or a link writes by a fragment is what its row holds in the written columns.
pub fn tuples_of_one_key_are_one()
    ensures entities { (schema : Schema) → IsSoundSchema schema → (state : State) (tables : Tables) → IsStoredIn schema state tables → EntitiesWriteRows schema state tables }
    ensures hosted { (schema : Schema) → IsSoundSchema schema → (state : State) (tables : Tables) → IsStoredIn schema state tables → HostedLinksWriteRows schema state tables }
    ensures joined { (schema : Schema) → IsSoundSchema schema → (state : State) (tables : Tables) → IsStoredIn schema state tables → JoinedLinksWriteRows schema state tables }
{}

/// A tuple that a fragment writes and doesn't show, or shows and doesn't write, stands at a row, with the key of the entity or the link there.
pub fn a_disagreement_stands_at_a_row()
    ensures entities { (schema : Schema) → IsSoundSchema schema → (state : State) (tables : Tables) → IsStoredIn schema state tables → TuplesAreOfEntities schema state tables }
    ensures failing { (schema : Schema) → IsSoundSchema schema → (state : State) (tables : Tables) → IsStoredIn schema state tables → FailsAtEntities schema state tables }
    ensures hosted { (schema : Schema) → IsSoundSchema schema → (state : State) (tables : Tables) → IsStoredIn schema state tables → TuplesAreOfHosts schema state tables }
    ensures joined { (schema : Schema) → IsSoundSchema schema → (state : State) (tables : Tables) → IsStoredIn schema state tables → TuplesAreOfLinks schema state tables }
{}

/// A legal state that clashes nowhere, leaves no null and nothing dangling has tables, and these are legal.
pub fn a_legal_state_has_legal_tables()
    ensures made { (schema : Schema) → IsSoundSchema schema → (state : State) → IsLegal schema.model state → ((place : Place) → ¬ Clashes schema state place)
        → ((place : Place) → ¬ LeavesNull schema state place) → ((place : Place) → ¬ Dangles schema state place)
        → TablesAre schema state (tables_for schema state) × AreLegalTables schema.store (tables_for schema state) }
{}

/// Where no legal state fails, each has tables that are legal and satisfy each fragment.
pub fn round_tripping_states_are_kept()
    ensures stored { (schema : Schema) → IsSoundSchema schema → RoundTrips schema → (state : State) → IsLegal schema.model state → HasGoodTables schema state }
{}
