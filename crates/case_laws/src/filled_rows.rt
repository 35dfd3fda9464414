//! The rows of an entity or a link by its pattern are those that a legal state demands, and the rows of all are its tables.

ghost use Rattle.std.specs.Prelude.{All, Contains, List, Option};
ghost use Rattle.round_trip.specs.Words.{Assoc, AssocId, Entity, Hosted, IsLegal, Link, LinkFragment, SetId, State, TableId, TablesAre, Value, key_of, links_in};
ghost use Rattle.round_trip.specs.TablesAre.{HasNoClash};
ghost use Rattle.table_files.specs.declared.tables.TableRow.{TableRow};
ghost use Rattle.schema_laws.specs.state_demand.Owners.{IsJoinedTo};
ghost use Rattle.regions.specs.declared.region.Region.{Region};
ghost use Rattle.regions.specs.Basis.{Basis};
ghost use Rattle.regions.specs.region_laws.IsBasis.{AreHostedLinks, IsBasis};
ghost use Rattle.regions.specs.region_laws.Partners.{HasFewPartners};
ghost use Rattle.case_laws.specs.filled_rows.Demanded.{AreAllDemanded, IsDemandedLinkRow, IsDemandedRow, IsHeldWith};
ghost use Rattle.case_laws.specs.filled_rows.Filled.{FillsRows, entity_rows, link_rows};
ghost use Rattle.case_laws.specs.filled_rows.Gathered.{gathered, rows_of};

/// In a legal state without a clash the rows of an entity with the links that it hosts are just those that are demanded of it, if the associations that are
/// hosted at its set let it have few partners.
pub fn entity_rows_are_demanded()
    ensures each { (basis : Basis) → IsBasis basis → (state : State) → IsLegal basis.schema.model state → HasNoClash basis.schema state
        → (s : SetId) → HasFewPartners basis s → (entity : Entity) (links : List Hosted) (region : Region) → IsHeldWith basis state s entity links region
        → All (IsDemandedRow basis state s entity) (entity_rows basis region entity links) }
    ensures whole { (basis : Basis) → IsBasis basis → (state : State) → IsLegal basis.schema.model state
        → (s : SetId) → HasFewPartners basis s → (entity : Entity) (links : List Hosted) (region : Region) → IsHeldWith basis state s entity links region
        → AreAllDemanded basis state s entity (entity_rows basis region entity links) }
{}

/// In a legal state without a clash the rows of a link of an association that owns a table are those that are demanded of it.
pub fn link_rows_are_demanded()
    ensures { (basis : Basis) → IsBasis basis → (state : State) → IsLegal basis.schema.model state → HasNoClash basis.schema state
        → (t : TableId) (fragment : LinkFragment) (assoc : Assoc) → IsJoinedTo basis.schema t fragment assoc
        → (link : Link) → Contains (links_in state fragment.assoc) link → All (IsDemandedLinkRow basis state fragment assoc link) (link_rows basis fragment.assoc assoc link) }
{}

/// The rows of all entities and links of a legal state without a clash, gathered by their tables, are its tables, if each association that is hosted lets an
/// entity have few partners.
pub fn gathered_rows_are_the_tables()
    ensures tables { (basis : Basis) → IsBasis basis → (local : SetId → Entity → List Hosted → List TableRow) (joined : AssocId → Option (Link → TableRow))
        → FillsRows basis local joined → ((s : SetId) → HasFewPartners basis s) → (hosted : SetId → List Value → List Hosted) (state : State)
        → ((s : SetId) (entity : Entity) → AreHostedLinks basis state s entity (hosted s (key_of basis.schema.model entity)))
        → IsLegal basis.schema.model state → HasNoClash basis.schema state
        → TablesAre basis.schema state (gathered basis.schema.store (rows_of basis.schema.model local joined hosted state)) }
{}
