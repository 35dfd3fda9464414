//! Tables of a legal state tell the state: the entities and links that the query views give are its own.

ghost use Rattle.std.specs.Prelude.{◌≡◌, Bool, List};
ghost use Rattle.round_trip.specs.Words.{AreErased, AreSameTables, ColId, IsFree, IsLegal, IsSameState, RoundTrips, SetId, State, TableId, Tables, TablesAre, Value};
ghost use Rattle.cells.specs.Cells.{is_free_in};
ghost use Rattle.cells.specs.Limits.{IsWithinLimits};
ghost use Rattle.cells.specs.Parts.{AreParts, schema_in};
ghost use Rattle.cells.specs.declared.parts.Parts.{Parts};
ghost use Rattle.regions.specs.Basis.{Basis};
ghost use Rattle.regions.specs.region_laws.IsBasis.{IsBasis};
ghost use Rattle.case_laws.specs.candidates.Candidates.{IsCandidate};
ghost use Rattle.case_laws.specs.candidates.Viewed.{LacksCase};
ghost use Rattle.case_laws.specs.Reading.{DecidesFree, HasStateTables, HaveOneRowPerKey};

/// The tables of a legal state, whatever their free cells hold, tell the state: at each key the rows meet a case, and the state of all entities and links that
/// the query views give is the same state.
pub fn a_state_is_its_candidate()
    ensures met { (basis : Basis) → IsBasis basis → IsWithinLimits basis.schema → RoundTrips basis.schema
        → (is_free : TableId → ColId → Bool) → DecidesFree basis.schema is_free
        → (state : State) → IsLegal basis.schema.model state → (tables : Tables) → HasStateTables basis.schema state tables
        → (s : SetId) (key : List Value) → ¬ LacksCase basis is_free tables s key }
    ensures same { (basis : Basis) → IsBasis basis → IsWithinLimits basis.schema → RoundTrips basis.schema
        → (is_free : TableId → ColId → Bool) → DecidesFree basis.schema is_free
        → (state : State) → IsLegal basis.schema.model state → (tables : Tables) → HasStateTables basis.schema state tables
        → (candidate : State) → IsCandidate basis is_free tables candidate → IsSameState state candidate }
{}

/// What of tables excludes that they are those of a legal state, but for what their free cells hold: rows at a key that meet no case, a state of what
/// the query views give which is not legal, or one whose tables, as it has them, are others.
pub fn refused_tables_have_no_state()
    ensures lack { (basis : Basis) → IsBasis basis → IsWithinLimits basis.schema → RoundTrips basis.schema
        → (is_free : TableId → ColId → Bool) → DecidesFree basis.schema is_free
        → (tables : Tables) (s : SetId) (key : List Value) → LacksCase basis is_free tables s key
        → (state : State) → IsLegal basis.schema.model state → ¬ HasStateTables basis.schema state tables }
    ensures illegal { (basis : Basis) → IsBasis basis → IsWithinLimits basis.schema → RoundTrips basis.schema
        → (is_free : TableId → ColId → Bool) → DecidesFree basis.schema is_free
        → (tables : Tables) (candidate : State) → IsCandidate basis is_free tables candidate → ¬ IsLegal basis.schema.model candidate
        → (state : State) → IsLegal basis.schema.model state → ¬ HasStateTables basis.schema state tables }
    ensures differs { (basis : Basis) → IsBasis basis → IsWithinLimits basis.schema → RoundTrips basis.schema
        → (is_free : TableId → ColId → Bool) → DecidesFree basis.schema is_free
        → (tables : Tables) (candidate : State) → IsCandidate basis is_free tables candidate → (fresh : Tables) → TablesAre basis.schema candidate fresh
        → ((erased : Tables) → AreErased basis.schema.store (IsFree basis.schema) tables erased → ¬ AreSameTables erased fresh)
        → (state : State) → IsLegal basis.schema.model state → ¬ HasStateTables basis.schema state tables }
{}

/// Where no limit is passed and no legal state fails, tables with one row for each key have one candidate at most.
pub fn candidates_are_one()
    ensures { (basis : Basis) → IsBasis basis → IsWithinLimits basis.schema → RoundTrips basis.schema → (is_free : TableId → ColId → Bool)
        → DecidesFree basis.schema is_free → (tables : Tables) → HaveOneRowPerKey basis.schema.store tables → (one two : State)
        → IsCandidate basis is_free tables one → IsCandidate basis is_free tables two → one ≡ two }
{}

/// Which columns are free is told by cells.
pub fn cells_tell_free_columns()
    ensures { (parts : Parts) → AreParts parts → DecidesFree (schema_in parts) (is_free_in parts.cells.now) }
{}
