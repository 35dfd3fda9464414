//! Patterns of entities and links: a state demands of their rows what the pattern says, and fragments agree with the rows where the pattern does.

ghost use Rattle.std.specs.Prelude.{◌≡◌, ◌≢◌, ◌↔◌, [], ◌∷◌, Bool, Contains, IsTrue, List};
ghost use Rattle.round_trip.specs.Words.{Assoc, AssocId, At, ColId, DemandsCell, DemandsRow, Entity, EntitySet, Fragment, IsLegal, Link, LinkFragment, Pair, PropId, Row, Selects, SetId, Shows, ShowsLink, State, Table, TableId, Tables, Value, entities_in, key_of, links_in, rows_in};
ghost use Rattle.edm_types.specs.declared.model.Mult.TheVariants.{Many};
ghost use Rattle.schema_laws.specs.state_demand.Owners.{IsJoinedTo, IsOwned};
ghost use Rattle.schema_laws.specs.sound_demand.ReadBack.{HasLinkOf};
ghost use Rattle.regions.specs.declared.region.Region.{Region};
ghost use Rattle.regions.specs.declared.pattern.Focus.TheVariants as focus;
ghost use Rattle.regions.specs.declared.pattern.PatternRow.{PatternRow};
ghost use Rattle.regions.specs.Basis.{Basis, Host, HostedAssoc, partner_end};
ghost use Rattle.regions.specs.Patterns.{by_entity, by_link, pattern_of};
ghost use Rattle.regions.specs.Regions.{regions_of};
ghost use Rattle.regions.specs.Shown.{shows_link_row, shows_row};
ghost use Rattle.regions.specs.Symbols.{is_linked, selects_region};
ghost use Rattle.regions.specs.region_laws.Held.{HeldEntity, Holding, IsAtRow, IsHeldAt, IsOfRegion, LinkRow, LinkedEntity, Standing};
ghost use Rattle.regions.specs.region_laws.IsBasis.{IsBasis};
ghost use Rattle.regions.specs.region_laws.Partners.{HasFewPartners, part_by};
ghost use Rattle.regions.specs.region_laws.RegionAt.{links_at};
ghost use Rattle.regions.specs.region_laws.pattern.Allowed.{partner_parts};
ghost use Rattle.regions.specs.region_laws.pattern.Described.{IsClearRow};
ghost use Rattle.region_states.specs.focus.Agreeing.{RowAtFragment, RowAtHosted, RowAtJoined};
ghost use Rattle.region_states.specs.focus.Given.{Gives, GivesCell, GivesLink, GivesRow, HasConcreteCell, HasConcreteRow, HasLinkPerFlag};
ghost use Rattle.region_states.specs.focus.Held.{HasRow, IsRowOfOne, ListsValue};

/// A legal state demands the row of an entity, in a table that its set owns, just where the pattern of the region that holds the entity has a row of the
/// table; a cell is to hold just the values of the symbols that the pattern lists there; and the pattern has rows of such tables alone. The same of the
/// row of a link of a joined association. Where hosted associations let an entity have few partners, some region holds it with its partners.
pub fn a_pattern_is_the_demand()
    ensures rows { (basis : Basis) → IsBasis basis → (linked : LinkedEntity basis) (t : TableId) (key : List Value)
        → IsAtRow basis linked.state linked.s linked.entity t key
        → DemandsRow basis.schema linked.state t key ↔ HasRow (pattern_of basis (focus.Entity linked.region)) t }
    ensures cells { (basis : Basis) → IsBasis basis → (linked : LinkedEntity basis) (t : TableId) (key : List Value)
        → IsAtRow basis linked.state linked.s linked.entity t key → (col : ColId) (value : Value) → DemandsCell basis.schema linked.state t key col value
        ↔ ListsValue (pattern_of basis (focus.Entity linked.region)) (by_entity basis.schema.model linked.entity linked.part) t col value }
    ensures only { (basis : Basis) → IsBasis basis → (s : SetId) (region : Region) → Contains (regions_of basis s) region → (row : PatternRow)
        → Contains (pattern_of basis (focus.Entity region)).rows row
        → (table : Table) × (pairing : List Pair) × At basis.schema.store.tables row.table.index table × IsOwned basis.schema row.table s pairing }
    ensures link_rows { (basis : Basis) → IsBasis basis → (row : LinkRow basis)
        → DemandsRow basis.schema row.state row.t row.key ↔ HasRow (pattern_of basis (focus.Link row.fragment.assoc)) row.t }
    ensures link_cells { (basis : Basis) → IsBasis basis → (row : LinkRow basis) (col : ColId) (value : Value)
        → DemandsCell basis.schema row.state row.t row.key col value
        ↔ ListsValue (pattern_of basis (focus.Link row.fragment.assoc)) (by_link basis.schema.model row.assoc row.link) row.t col value }
    ensures partners { (basis : Basis) → IsBasis basis → (held : HeldEntity basis) → HasFewPartners basis held.s
        → IsHeldAt basis held.state held.s held.entity held.region (part_by basis held.state held.s (key_of basis.schema.model held.entity)) }
{}

/// Whatever the state, and legal or not: of an entity that a region holds with one link for each of its flags, the fragments that select the entity, and those
/// of the links, give a row of a table just where the region's pattern has it with the values of the entity and of its partners' keys (`rows`), and a value
/// of a cell just where a symbol that the pattern lists there has it (`cells`). The same of a link and its association's pattern (`link_rows`, `link_cells`).
pub fn a_pattern_is_the_facts()
    ensures rows { (basis : Basis) → IsBasis basis → (held : Holding basis) → HasLinkPerFlag basis held.region held.links → (t : TableId) (key : List Value)
        → GivesRow basis.schema.store (Gives basis held.s held.entity held.links) t key
        ↔ HasConcreteRow basis.schema.store (pattern_of basis (focus.Entity held.region))
        (by_entity basis.schema.model held.entity (partner_parts basis.schema.model held.links)) t key }
    ensures cells { (basis : Basis) → IsBasis basis → (held : Holding basis) → HasLinkPerFlag basis held.region held.links → (t : TableId) (key : List Value)
        → (col : ColId) (value : Value) → GivesCell basis.schema.store (Gives basis held.s held.entity held.links) t key col value
        ↔ HasConcreteCell basis.schema.store (pattern_of basis (focus.Entity held.region))
        (by_entity basis.schema.model held.entity (partner_parts basis.schema.model held.links)) t key col value }
    ensures link_rows { (basis : Basis) → IsBasis basis → (a : AssocId) (assoc : Assoc) → At basis.schema.model.assocs a.index assoc → (link : Link)
        → (t : TableId) (key : List Value) → GivesRow basis.schema.store (GivesLink basis a assoc link) t key
        ↔ HasConcreteRow basis.schema.store (pattern_of basis (focus.Link a)) (by_link basis.schema.model assoc link) t key }
    ensures link_cells { (basis : Basis) → IsBasis basis → (a : AssocId) (assoc : Assoc) → At basis.schema.model.assocs a.index assoc → (link : Link)
        → (t : TableId) (key : List Value) (col : ColId) (value : Value) → GivesCell basis.schema.store (GivesLink basis a assoc link) t key col value
        ↔ HasConcreteCell basis.schema.store (pattern_of basis (focus.Link a)) (by_link basis.schema.model assoc link) t key col value }
{}

/// Each row that a legal state demands is that of an entity, in a table that its set owns, or of a link of a joined association; and the pattern of such an
/// association has rows of its link fragment's table alone.
pub fn no_other_row_is_demanded()
    ensures each { (basis : Basis) → IsBasis basis → (state : State) → IsLegal basis.schema.model state → (t : TableId) (key : List Value)
        → DemandsRow basis.schema state t key → IsRowOfOne basis state t key }
    ensures joined { (basis : Basis) → IsBasis basis → (t : TableId) (fragment : LinkFragment) (assoc : Assoc) → IsJoinedTo basis.schema t fragment assoc → (row : PatternRow)
        → Contains (pattern_of basis (focus.Link fragment.assoc)).rows row → row.table ≡ t }
{}

/// Some region of its set holds an entity of a legal state. Where the region has no flag of a hosted association, the entity hosts no link of it, however
/// many partners it might have; where it has one, and the partners are few, the entity hosts just one link.
pub fn flags_tell_links()
    ensures held { (basis : Basis) → IsBasis basis → (standing : Standing basis)
        → (region : Region) × IsOfRegion basis standing.state standing.s standing.entity region }
    ensures none { (basis : Basis) → IsBasis basis → (held : HeldEntity basis) (host : Host) → Contains (basis.hosts held.s) host
        → ¬ Contains held.region.linked host.assoc → links_at held.state host (key_of basis.schema.model held.entity) ≡ [] }
    ensures one { (basis : Basis) → IsBasis basis → (held : HeldEntity basis) (at : HostedAssoc basis held.s) → Contains held.region.linked at.host.assoc
        → (partner_end at.host.first_hosts at.assoc).mult ≢ Many → (link : Link) × (links_at held.state at.host (key_of basis.schema.model held.entity) ≡ link ∷ []) }
{}

/// Where a row of a pattern has no clash, a fragment shows the row of an entity of a legal state just if it selects the entity, exactly where it shows the
/// pattern's row just if it selects the region that holds the entity. The same of a link fragment and whether a link is hosted at the entity, with the
/// region's flag. Whether a joined association's fragment shows the row of a link is told by the pattern.
pub fn agreement_is_by_the_pattern()
    ensures entities { (basis : Basis) → IsBasis basis → (linked : LinkedEntity basis) (fragment : Fragment)
        → (at : RowAtFragment basis linked.state linked.s linked.entity fragment)
        → (pattern : PatternRow) → IsClearRow basis (focus.Entity linked.region) pattern → pattern.table ≡ fragment.table
        → (Selects basis.schema.model fragment linked.entity ↔ Shows fragment at.row)
        ↔ (IsTrue (selects_region basis linked.region fragment) ↔ IsTrue (shows_row basis.schema.model linked.region.atoms fragment pattern)) }
    ensures hosts { (basis : Basis) → IsBasis basis → (linked : LinkedEntity basis) (fragment : LinkFragment)
        → (at : RowAtHosted basis linked.state linked.s linked.entity fragment)
        → (pattern : PatternRow) → IsClearRow basis (focus.Entity linked.region) pattern → pattern.table ≡ fragment.table
        → (HasLinkOf basis.schema linked.state linked.s at.pairing at.assoc fragment linked.entity ↔ ShowsLink fragment at.row)
        ↔ (IsTrue (is_linked basis linked.region.linked fragment.assoc) ↔ IsTrue (shows_link_row basis.schema.model linked.region.atoms fragment pattern)) }
    ensures links { (basis : Basis) → IsBasis basis → (at : RowAtJoined basis) (pattern : PatternRow) → IsClearRow basis (focus.Link at.fragment.assoc) pattern
        → pattern.table ≡ at.fragment.table → IsTrue (shows_link_row basis.schema.model [] at.fragment pattern) ↔ ShowsLink at.fragment at.row }
{}
