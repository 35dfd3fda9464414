//! What a state demands of the tables, as lists: its writings, the tables that they make, whether they clash, to whom a row belongs, and where
//! fragments agree with the tables.

ghost use Rattle.std.specs.Prelude.{◌≡◌, ◌↔◌, Any, Bool, Contains, IsTrue, List};
ghost use Rattle.round_trip.specs.Words.{Assoc, AreLegalTables, AreSameTables, AreSameTuples, At, ColId, Column, DemandsRow, Entity, EntityModel, Fragment, HasGoodTables, HasNoClash, IsLegal, IsShownLinkTuple, IsShownTuple, IsWrittenLinkTuple, IsWrittenTuple, Link, LinkFragment, Pair, Place, RoundTrips, Row, Satisfies, Schema, Selects, SetId, State, Table, TableId, Tables, TablesAre, TypeId, Value, Writing, WritesRow, cell_of, links_in, row_key, rows_in, written_key};
ghost use Rattle.round_trip.specs.FailsAt.{Clashes, Dangles, Disagrees, LeavesNull};
ghost use Rattle.schema_laws.specs.state_demand.ByRows.{AgreesByLinkRows, AgreesByRows};
ghost use Rattle.schema_laws.specs.state_demand.MadeTables.{first_or_null, have_no_clash, made_tables, tables_of, values_at};
ghost use Rattle.schema_laws.specs.state_demand.Owners.{InheritsKeys, IsJoinedTo, IsOwned, IsWritingOf, StandsAt};
ghost use Rattle.schema_laws.specs.state_demand.Selecting.{DecidesTypes, same_key, same_value, selects};
ghost use Rattle.schema_laws.specs.state_demand.WellWritten.{HasAssocs, HasTables, HoldsValues, IsWellWritten};
ghost use Rattle.schema_laws.specs.state_demand.Writings.{AreWritings, link_writing, writings_of};

/// Whether values and keys are one, and whether a fragment selects an entity, is computed.
pub fn selection_is_decided()
    ensures values { (one two : Value) → IsTrue (same_value one two) ↔ (one ≡ two) }
    ensures keys { (one two : List Value) → IsTrue (same_key one two) ↔ (one ≡ two) }
    ensures selects { (model : EntityModel) (is_a : TypeId → TypeId → Bool) → DecidesTypes model is_a → (fragment : Fragment) (entity : Entity)
        → IsTrue (selects is_a model fragment entity) ↔ Selects model fragment entity }
{}

/// What a state writes is a finite list.
pub fn writings_are_listed()
    ensures listed { (schema : Schema) (is_a : TypeId → TypeId → Bool) → DecidesTypes schema.model is_a → (state : State)
        → AreWritings schema state (writings_of is_a schema state) }
{}

/// A state that doesn't clash has tables: those that its writings make.
pub fn tables_are_made()
    ensures by_list { (schema : Schema) → IsWellWritten schema → (state : State) (writings : List Writing) → AreWritings schema state writings → HasNoClash schema state
        → TablesAre schema state (made_tables schema.store writings) }
    ensures made { (schema : Schema) (is_a : TypeId → TypeId → Bool) → IsWellWritten schema → DecidesTypes schema.model is_a → (state : State) → HasNoClash schema state
        → TablesAre schema state (tables_of is_a schema state) }
{}

/// A state has one list of tables, up to the order of rows.
pub fn tables_are_one()
    ensures same { (schema : Schema) (state : State) (one two : Tables) → TablesAre schema state one → TablesAre schema state two → AreSameTables one two }
{}

/// Whether a state clashes is computed, and a state that clashes at no place doesn't clash.
pub fn clash_is_decided()
    ensures decided { (schema : Schema) (state : State) (writings : List Writing) → AreWritings schema state writings
        → IsTrue (have_no_clash schema.store writings) ↔ HasNoClash schema state }
    ensures shown { (schema : Schema) → IsWellWritten schema → HasTables schema → (state : State) → ((place : Place) → ¬ Clashes schema state place) → HasNoClash schema state }
{}

/// What is written to a row of a table that a set owns is written of one entity, the one that stands at the row's key.
pub fn rows_are_local()
    ensures local { (schema : Schema) → InheritsKeys schema.model → (t : TableId) (owner : SetId) (pairing : List Pair) → IsOwned schema t owner pairing
        → (state : State) → IsLegal schema.model state → (key : List Value) (writing : Writing) → WritesRow schema state t key writing
        → (entity : Entity) × StandsAt schema state owner pairing key entity × IsWritingOf schema state owner pairing entity writing }
    ensures one { (schema : Schema) → InheritsKeys schema.model → (t : TableId) (owner : SetId) (pairing : List Pair) → IsOwned schema t owner pairing
        → (state : State) → IsLegal schema.model state → (key : List Value) (x y : Entity)
        → StandsAt schema state owner pairing key x → StandsAt schema state owner pairing key y → x ≡ y }
    ensures whole { (schema : Schema) → InheritsKeys schema.model → (t : TableId) (owner : SetId) (pairing : List Pair) → IsOwned schema t owner pairing
        → (state : State) → IsLegal schema.model state → (key : List Value) (entity : Entity) → StandsAt schema state owner pairing key entity → (writing : Writing)
        → WritesRow schema state t key writing ↔ ((writing.table ≡ t) × IsWritingOf schema state owner pairing entity writing) }
{}

/// What is written to a row of a joined association's table is written of one link.
pub fn links_are_local()
    ensures local { (schema : Schema) (t : TableId) (fragment : LinkFragment) (assoc : Assoc) → IsJoinedTo schema t fragment assoc
        → (state : State) (key : List Value) (writing : Writing) → WritesRow schema state t key writing
        → (link : Link) × Contains (links_in state fragment.assoc) link × (writing ≡ link_writing schema.model fragment assoc link) }
    ensures one { (schema : Schema) (t : TableId) (fragment : LinkFragment) (assoc : Assoc) → IsJoinedTo schema t fragment assoc → (state : State) → IsLegal schema.model state
        → (one two : Link) → Contains (links_in state fragment.assoc) one → Contains (links_in state fragment.assoc) two
        → written_key schema.store (link_writing schema.model fragment assoc one) ≡ written_key schema.store (link_writing schema.model fragment assoc two) → one ≡ two }
{}

/// A table has a row of a key where one is demanded, and each cell holds the first value given to it, or null.
pub fn rows_are_read_back()
    ensures rows { (schema : Schema) (state : State) (tables : Tables) → TablesAre schema state tables → (t : TableId) (table : Table) → At schema.store.tables t.index table
        → (key : List Value) → Any (λ row. row_key table row ≡ key) (rows_in tables t) ↔ DemandsRow schema state t key }
    ensures cells { (schema : Schema) (state : State) (tables : Tables) → TablesAre schema state tables → (t : TableId) (table : Table) → At schema.store.tables t.index table
        → (writings : List Writing) → AreWritings schema state writings → (row : Row) → Contains (rows_in tables t) row
        → (col : ColId) (column : Column) → At table.cols col.index column
        → cell_of row col ≡ first_or_null (values_at schema.store writings t (row_key table row) col) }
{}

/// A fragment agrees with a state's tables exactly where it shows just those rows to which it writes.
pub fn agreement_is_by_rows()
    ensures fragments { (schema : Schema) → IsWellWritten schema → (state : State) (tables : Tables) → TablesAre schema state tables
        → (fragment : Fragment) → Contains schema.mapping.fragments fragment → (table : Table) → At schema.store.tables fragment.table.index table
        → AreSameTuples (IsWrittenTuple schema state fragment) (IsShownTuple tables fragment) ↔ AgreesByRows schema state tables fragment table }
    ensures links { (schema : Schema) → IsWellWritten schema → (state : State) (tables : Tables) → TablesAre schema state tables
        → (fragment : LinkFragment) → Contains schema.mapping.links fragment → (table : Table) → At schema.store.tables fragment.table.index table
        → AreSameTuples (IsWrittenLinkTuple schema state fragment) (IsShownLinkTuple tables fragment) ↔ AgreesByLinkRows schema state tables fragment table }
{}

/// The tables of a legal state are legal where it leaves no null and nothing dangling, satisfy each fragment where none disagrees, and are both
/// where no legal state fails.
pub fn tables_are_good()
    ensures legal { (schema : Schema) → InheritsKeys schema.model → HoldsValues schema → (state : State) → IsLegal schema.model state → (tables : Tables)
        → TablesAre schema state tables
        → ((place : Place) → ¬ LeavesNull schema state place) → ((place : Place) → ¬ Dangles schema state place) → AreLegalTables schema.store tables }
    ensures satisfied { (schema : Schema) (is_a : TypeId → TypeId → Bool) → DecidesTypes schema.model is_a → HasAssocs schema → (state : State) (tables : Tables)
        → TablesAre schema state tables
        → ((place : Place) → ¬ Disagrees schema state place) → Satisfies schema state tables }
    ensures stored { (schema : Schema) (is_a : TypeId → TypeId → Bool) → DecidesTypes schema.model is_a → IsWellWritten schema → HasTables schema → HasAssocs schema
        → InheritsKeys schema.model
        → HoldsValues schema → RoundTrips schema → (state : State) → IsLegal schema.model state → HasGoodTables schema state }
{}
