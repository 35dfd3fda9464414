//! From tables back to entities: the rows of an entity meet the case of its region and tell the entity, and they meet no other case.
#![tactic(auto)]

pub mod candidate_laws;
mod candidates;
pub mod filled_rows;
mod region_cases;

ghost use Rattle.std.specs.Prelude.{◌≡◌, ◌↔◌, Bool, Contains, List, length};
ghost use Rattle.round_trip.specs.Words.{ColId, Entity, Hosted, IsLegal, RoundTrips, Row, SetId, State, TableId, Tables, Value, entities_in, key_of};
ghost use Rattle.round_trip.specs.soundness.Lookups.{set_key};
ghost use Rattle.cells.specs.Limits.{IsWithinLimits};
ghost use Rattle.regions.specs.declared.region.Region.{Region};
ghost use Rattle.regions.specs.Basis.{Basis};
ghost use Rattle.regions.specs.Regions.{regions_of};
ghost use Rattle.regions.specs.region_laws.IsBasis.{IsBasis};
ghost use Rattle.regions.specs.region_laws.Partners.{HasFewPartners};
ghost use Rattle.case_laws.specs.filled_rows.Demanded.{IsHeldWith};
ghost use Rattle.conflict_laws.specs.rival.Alike.{IsClear};
ghost use Rattle.case_laws.specs.region_cases.Cases.{case_of};
ghost use Rattle.case_laws.specs.region_cases.Meets.{HaveLinksOf, IsEntityOf, MeetsCase, StandsAtKey};
ghost use Rattle.case_laws.specs.Reading.{DecidesFree, HasStateTables, HaveOneRowPerKey};
ghost use Rattle.case_laws.specs.Told.{AreTold, IsMet, IsReadBack, IsReadable};

pub use candidate_laws::{
    a_state_is_its_candidate, candidates_are_one, cells_tell_free_columns,
    refused_tables_have_no_state,
};
pub use candidates::PlacedRow;
pub use filled_rows::{
    entity_rows_are_demanded, gathered_rows_are_the_tables, link_rows_are_demanded,
};
pub use region_cases::{Case, CaseCell, CaseRow, LinkCase, LinkCaseCell};

/// The rows at the key of an entity of a legal state meet the case of the region that holds it, if no cell of the region's pattern clashes; and they tell
/// the entity and the links that it hosts.
pub fn entities_meet_their_cases()
    ensures meets { (basis : Basis) → IsBasis basis → (is_free : TableId → ColId → Bool) → DecidesFree basis.schema is_free
        → (state : State) → IsLegal basis.schema.model state → (tables : Tables) → HasStateTables basis.schema state tables
        → (s : SetId) → HasFewPartners basis s → (entity : Entity) (links : List Hosted) (region : Region) → IsHeldWith basis state s entity links region
        → IsClear basis region → MeetsCase basis tables (key_of basis.schema.model entity) (case_of is_free basis region) }
    ensures entity { (basis : Basis) → IsBasis basis → (is_free : TableId → ColId → Bool) → DecidesFree basis.schema is_free
        → (state : State) → IsLegal basis.schema.model state → (tables : Tables) → HasStateTables basis.schema state tables
        → (s : SetId) → HasFewPartners basis s → (entity : Entity) (links : List Hosted) (region : Region) → IsHeldWith basis state s entity links region
        → IsClear basis region → IsEntityOf basis tables (key_of basis.schema.model entity) (case_of is_free basis region) entity }
    ensures links { (basis : Basis) → IsBasis basis → (is_free : TableId → ColId → Bool) → DecidesFree basis.schema is_free
        → (state : State) → IsLegal basis.schema.model state → (tables : Tables) → HasStateTables basis.schema state tables
        → (s : SetId) → HasFewPartners basis s → (entity : Entity) (links : List Hosted) (region : Region) → IsHeldWith basis state s entity links region
        → IsClear basis region → HaveLinksOf basis tables (key_of basis.schema.model entity) (case_of is_free basis region) links }
{}

/// Where rows at a key meet the case of a region that can be read, they tell an entity and links; and whatever entity and links they tell, the region holds
/// these, the entity has this key, each of its properties may hold its value, and the rows are those that the entity demands with the links, but in free columns.
pub fn a_met_case_tells_an_entity()
    ensures told { (basis : Basis) → IsBasis basis → (is_free : TableId → ColId → Bool) → DecidesFree basis.schema is_free
        → (s : SetId) (region : Region) → IsReadable basis s region → (tables : Tables) → HaveOneRowPerKey basis.schema.store tables
        → (key : List Value) → IsMet basis is_free s region tables key
        → (entity : Entity) × (links : List Hosted) × AreTold basis is_free s region tables key entity links }
    ensures each { (basis : Basis) → IsBasis basis → (is_free : TableId → ColId → Bool) → DecidesFree basis.schema is_free
        → (s : SetId) (region : Region) → IsReadable basis s region → (tables : Tables) → HaveOneRowPerKey basis.schema.store tables
        → (key : List Value) → IsMet basis is_free s region tables key
        → (entity : Entity) (links : List Hosted) → AreTold basis is_free s region tables key entity links
        → IsReadBack basis is_free s region tables key entity links }
{}

/// Where no limit is passed and no legal state fails, each region of a set can be read, and the rows at a key meet the case of one region alone: at the key of an
/// entity of a legal state that of the region that holds it.
pub fn no_other_case_is_met()
    ensures readable { (basis : Basis) → IsBasis basis → IsWithinLimits basis.schema → RoundTrips basis.schema
        → (s : SetId) (region : Region) → Contains (regions_of basis s) region → IsReadable basis s region }
    ensures one { (basis : Basis) → IsBasis basis → IsWithinLimits basis.schema → RoundTrips basis.schema
        → (is_free : TableId → ColId → Bool) → DecidesFree basis.schema is_free → (tables : Tables) → HaveOneRowPerKey basis.schema.store tables
        → (s : SetId) (key : List Value) (one two : Region) → Contains (regions_of basis s) one → Contains (regions_of basis s) two
        → IsMet basis is_free s one tables key → IsMet basis is_free s two tables key → one ≡ two }
    ensures own { (basis : Basis) → IsBasis basis → IsWithinLimits basis.schema → RoundTrips basis.schema
        → (is_free : TableId → ColId → Bool) → DecidesFree basis.schema is_free
        → (state : State) → IsLegal basis.schema.model state → (tables : Tables) → HasStateTables basis.schema state tables
        → (s : SetId) (entity : Entity) (links : List Hosted) (region : Region) → IsHeldWith basis state s entity links region
        → (other : Region) → Contains (regions_of basis s) other → MeetsCase basis tables (key_of basis.schema.model entity) (case_of is_free basis other)
        → other ≡ region }
{}

/// The rows of a legal state tell just its entities. A key at which a row stands in a table that the set owns is that of one of its entities. Where no limit is
/// passed and no legal state fails, a row stands at the key of each entity, and what the rows there tell, by a case that they meet, is this entity with its links.
pub fn the_state_is_read_back()
    ensures keys { (basis : Basis) → IsBasis basis → (state : State) → IsLegal basis.schema.model state → (tables : Tables) → HasStateTables basis.schema state tables
        → (s : SetId) (key : List Value) → length key ≡ length (set_key basis.schema.model s) → (t : TableId) (held : Row) → StandsAtKey basis.schema tables s key t held
        → (entity : Entity) × Contains (entities_in state s) entity × (key_of basis.schema.model entity ≡ key) }
    ensures rows { (basis : Basis) → IsBasis basis → IsWithinLimits basis.schema → RoundTrips basis.schema
        → (is_free : TableId → ColId → Bool) → DecidesFree basis.schema is_free
        → (state : State) → IsLegal basis.schema.model state → (tables : Tables) → HasStateTables basis.schema state tables
        → (s : SetId) (entity : Entity) → Contains (entities_in state s) entity
        → (t : TableId) × (held : Row) × StandsAtKey basis.schema tables s (key_of basis.schema.model entity) t held }
    ensures told { (basis : Basis) → IsBasis basis → IsWithinLimits basis.schema → RoundTrips basis.schema
        → (is_free : TableId → ColId → Bool) → DecidesFree basis.schema is_free
        → (state : State) → IsLegal basis.schema.model state → (tables : Tables) → HasStateTables basis.schema state tables
        → (s : SetId) (entity : Entity) (links : List Hosted) (region : Region) → IsHeldWith basis state s entity links region
        → (other : Region) → Contains (regions_of basis s) other → MeetsCase basis tables (key_of basis.schema.model entity) (case_of is_free basis other)
        → (it : Entity) (told : List Hosted) → AreTold basis is_free s other tables (key_of basis.schema.model entity) it told
        → (it ≡ entity) × ((hosted : Hosted) → Contains told hosted ↔ Contains links hosted) }
{}
