//! Regions of a sound schema: each entity of a legal state is held by one, and by this it is decided what fragments select and what is written; what the
//! symbols of patterns can be, where they stand, and which rows a fragment shows.

mod pattern_laws;

ghost use Rattle.std.specs.Prelude.{◌<◌, ◌≡◌, ◌≢◌, ◌↔◌, ◌∷◌, AllPairs, Bool, Contains, IsTrue, List, [], false, length, min, true};
ghost use Rattle.std.specs.List.{AllZip};
ghost use Rattle.emc_base.specs.Lists.{AreApart};
ghost use Rattle.condition_logic.specs.declared.atoms.Atom.{Atom};
ghost use Rattle.round_trip.specs.Words.{Assoc, AssocId, At, ColId, Column, DemandsCell, DemandsRow, Entity, EntityModel, EntitySet, Fragment, Hosted, IsA, IsConcrete, IsLegal, Link, LinkFragment, Pair, Prop, PropId, Selects, SetId, State, StoreModel, Table, TableId, Value, Writing, WritesRow, entities_in, key_of, links_in, written_key};
ghost use Rattle.edm_types.specs.declared.model.Mult.TheVariants.{Many, ZeroOrOne};
ghost use Rattle.round_trip.specs.soundness.mappings.Joined.{prop};
ghost use Rattle.regions.specs.declared.pattern.Symbol.{Symbol};
ghost use Rattle.schema_laws.specs.state_demand.MadeTables.{given_cells};
ghost use Rattle.schema_laws.specs.state_demand.Owners.{IsJoinedTo, IsOwned, StandsAt};
ghost use Rattle.schema_laws.specs.state_demand.Writings.{entity_writing, link_writing};
ghost use Rattle.regions.specs.Atoms.{Allows, LiesIn, atom_of, atoms_of};
ghost use Rattle.regions.specs.Basis.{Basis, Host, HostedAssoc, host_end, partner_end};
ghost use Rattle.regions.specs.Fitting.{DecidesDomains, fits};
ghost use Rattle.regions.specs.Patterns.{Valuation, by_entity, by_link, cell_symbols, is_written, pattern_by, pattern_row};
ghost use Rattle.regions.specs.Regions.{Holds, count_of, most_counted, regions_of, tested_props};
ghost use Rattle.regions.specs.Symbols.{SymbolWriting, fragment_writing, link_fragment_writing, link_writings, region_writings, same_symbol, selects_region};
ghost use Rattle.regions.specs.declared.pattern.PatternRow.{PatternRow};
ghost use Rattle.regions.specs.declared.region.Region.{Region};
ghost use Rattle.regions.specs.region_laws.Concrete.{AreConcrete, HasSymbol, IsWritingAt, IsWritingOfLink, TellsEnd, concrete};
ghost use Rattle.regions.specs.region_laws.Counting.{counted};
ghost use Rattle.regions.specs.region_laws.Held.{HeldEntity, Holding, IsAtRow, IsHeldAt, LinkRow, LinkedEntity, Standing};
ghost use Rattle.regions.specs.region_laws.IsBasis.{AreHostedLinks, IsBasis};
ghost use Rattle.regions.specs.region_laws.Partners.{HasFewPartners, HasPartners, part_by};
ghost use Rattle.regions.specs.region_laws.RegionAt.{IsAtomOf, hosted_links, links_at, region_at};

pub use pattern_laws::{
    a_clash_is_two_symbols, agreement_is_by_regions, cells_are_settled, cells_have_a_shape,
    shown_is_decided, symbols_are_possible, values_are_allowed,
};

/// Whether a value is in the domain of a kind is computed.
pub fn domains_are_decided()
    ensures decided { DecidesDomains fits }
{}

/// Whether two symbols are one is computed.
pub fn symbols_are_decided()
    ensures decided { (one two : Symbol) → IsTrue (same_symbol one two) ↔ (one ≡ two) }
{}

/// A value that a property may hold lies in exactly one of the property's atoms, and none of these is listed twice.
pub fn atoms_part_values()
    ensures one { (basis : Basis) → IsBasis basis → (p : PropId) (declared : Prop) → At basis.schema.model.props p.index declared → (value : Value) → Allows declared value
        → Contains (atoms_of basis.fits declared (basis.constants (prop p))) (atom_of declared (basis.constants (prop p)) value)
        × LiesIn (basis.constants (prop p)) (atom_of declared (basis.constants (prop p)) value) value }
    ensures only { (basis : Basis) → IsBasis basis → (p : PropId) (declared : Prop) → At basis.schema.model.props p.index declared → (atom : Atom) (value : Value)
        → Contains (atoms_of basis.fits declared (basis.constants (prop p))) atom → LiesIn (basis.constants (prop p)) atom value
        → atom ≡ atom_of declared (basis.constants (prop p)) value }
    ensures once { (basis : Basis) → IsBasis basis → (p : PropId) (declared : Prop) → At basis.schema.model.props p.index declared
        → AreApart (atoms_of basis.fits declared (basis.constants (prop p))) }
{}

/// Exactly one region of its set holds an entity of a legal state with the links that it hosts. Where the partners of a hosted association are few,
/// a region's flag tells that the entity has one link of it, or none.
pub fn regions_part_entities()
    ensures hosted { (basis : Basis) (state : State) (s : SetId) (entity : Entity)
        → AreHostedLinks basis state s entity (hosted_links basis state s (key_of basis.schema.model entity)) }
    ensures held { (basis : Basis) → IsBasis basis → (at : Standing basis) (links : List Hosted) → AreHostedLinks basis at.state at.s at.entity links
        → Contains (regions_of basis at.s) (region_at basis at.s at.entity links) × Holds basis (region_at basis at.s at.entity links) at.entity links }
    ensures only { (basis : Basis) → IsBasis basis → (held : Holding basis) → held.region ≡ region_at basis held.s held.entity held.links }
    ensures one { (basis : Basis) → IsBasis basis → (held : HeldEntity basis) (at : HostedAssoc basis held.s)
        → (partner_end at.host.first_hosts at.assoc).mult ≢ Many → Contains held.region.linked at.host.assoc
        → (link : Link) × (links_at held.state at.host (key_of basis.schema.model held.entity) ≡ link ∷ []) }
    ensures none { (basis : Basis) → IsBasis basis → (held : HeldEntity basis) (at : HostedAssoc basis held.s)
        → (partner_end at.host.first_hosts at.assoc).mult ≢ Many → ¬ Contains held.region.linked at.host.assoc
        → links_at held.state at.host (key_of basis.schema.model held.entity) ≡ [] }
{}

/// A listed region is a possible one: its type is a concrete one of the set, it has an atom of each tested property, and links only where its entities may
/// have them; and it has them where the partner is mandatory, or may be any number.
pub fn regions_are_possible()
    ensures types { (basis : Basis) → IsBasis basis → (s : SetId) (region : Region) → Contains (regions_of basis s) region
        → (set : EntitySet) → At basis.schema.model.sets s.index set → IsConcrete basis.schema.model region.ty × IsA basis.schema.model region.ty set.element }
    ensures sets { (basis : Basis) → IsBasis basis → (s : SetId) (region : Region) → Contains (regions_of basis s) region → region.set ≡ s }
    ensures atoms { (basis : Basis) → IsBasis basis → (s : SetId) (region : Region) → Contains (regions_of basis s) region
        → AllZip (IsAtomOf basis) (tested_props basis region.ty) region.atoms }
    ensures hosts { (basis : Basis) → IsBasis basis → (s : SetId) (region : Region) → Contains (regions_of basis s) region
        → (a : AssocId) → Contains region.linked a → (host : Host) × Contains (basis.hosts s) host × (a ≡ host.assoc) }
    ensures may { (basis : Basis) → IsBasis basis → (s : SetId) (region : Region) → Contains (regions_of basis s) region → (at : HostedAssoc basis s)
        → Contains region.linked at.host.assoc → IsA basis.schema.model region.ty (host_end at.host.first_hosts at.assoc).ty }
    ensures must { (basis : Basis) → IsBasis basis → (s : SetId) (region : Region) → Contains (regions_of basis s) region → (at : HostedAssoc basis s)
        → IsA basis.schema.model region.ty (host_end at.host.first_hosts at.assoc).ty → (partner_end at.host.first_hosts at.assoc).mult ≢ ZeroOrOne
        → Contains region.linked at.host.assoc }
{}

/// No region of a set is listed twice.
pub fn regions_are_different()
    ensures once { (basis : Basis) → IsBasis basis → (s : SetId) → AreApart (regions_of basis s) }
{}

/// The number of regions is computed without making them.
pub fn regions_are_counted()
    ensures counted { (basis : Basis) (s : SetId) → counted basis s ≡ length (regions_of basis s) }
    ensures capped { (basis : Basis) (s : SetId) → count_of basis s ≡ min (counted basis s) most_counted }
{}

/// Whether a fragment selects an entity is decided by any region that holds it.
pub fn selection_is_by_regions()
    ensures selects { (basis : Basis) → IsBasis basis → (fragment : Fragment) → Contains basis.schema.mapping.fragments fragment → (held : Holding basis)
        → IsTrue (selects_region basis held.region fragment) ↔ Selects basis.schema.model fragment held.entity }
{}

/// What an entity, or a link, writes by one fragment is what the fragment says in symbols, with their values.
pub fn fragments_write_their_symbols()
    ensures entity { (model : EntityModel) (fragment : Fragment) (entity : Entity) (part : AssocId → Bool → PropId → Value)
        → given_cells (entity_writing model fragment entity) ≡ concrete (by_entity model entity part) (fragment_writing fragment).cells }
    ensures link { (model : EntityModel) (fragment : LinkFragment) (assoc : Assoc) (link : Link) (valuation : Valuation) (first_hosts second_hosts : Bool)
        → TellsEnd model valuation fragment.assoc true first_hosts assoc.first.ty fragment.first link.first
        → TellsEnd model valuation fragment.assoc false second_hosts assoc.second.ty fragment.second link.second
        → given_cells (link_writing model fragment assoc link) ≡ concrete valuation (link_fragment_writing first_hosts second_hosts fragment).cells }
{}

/// The writings of a region in symbols are just those of an entity that it holds with its partners; those of an association just those of a link.
/// Where a hosted association lets an entity have few partners, the entities of a legal state have theirs.
pub fn patterns_are_demand()
    ensures region { (basis : Basis) → IsBasis basis → (state : State) (s : SetId) (entity : Entity) (region : Region) (part : AssocId → Bool → PropId → Value)
        → IsHeldAt basis state s entity region part
        → AreConcrete (by_entity basis.schema.model entity part) (region_writings basis region) (IsWritingAt basis state s entity) }
    ensures link { (basis : Basis) (state : State) (a : AssocId) (assoc : Assoc) → At basis.schema.model.assocs a.index assoc → (link : Link) → Contains (links_in state a) link
        → AreConcrete (by_link basis.schema.model assoc link) (link_writings basis a) (IsWritingOfLink basis state a assoc link) }
    ensures partners { (basis : Basis) → IsBasis basis → (held : HeldEntity basis) → HasFewPartners basis held.s
        → HasPartners basis held.state held.s held.entity held.region (part_by basis held.state held.s (key_of basis.schema.model held.entity)) }
{}

/// The row at the key of an entity, in a table that its set owns, is demanded just where the region that holds it writes the table, and a cell is to
/// hold just the values of its symbols. The same of the row of a link of a joined association.
pub fn cells_are_symbols()
    ensures writings { (basis : Basis) → IsBasis basis → (standing : Standing basis) (t : TableId) (key : List Value)
        → IsAtRow basis standing.state standing.s standing.entity t key → (writing : Writing)
        → WritesRow basis.schema standing.state t key writing ↔ ((writing.table ≡ t) × IsWritingAt basis standing.state standing.s standing.entity writing) }
    ensures rows { (basis : Basis) → IsBasis basis → (linked : LinkedEntity basis) (t : TableId) (key : List Value)
        → IsAtRow basis linked.state linked.s linked.entity t key
        → DemandsRow basis.schema linked.state t key ↔ IsTrue (is_written (region_writings basis linked.region) t) }
    ensures cells { (basis : Basis) → IsBasis basis → (linked : LinkedEntity basis) (t : TableId) (key : List Value)
        → IsAtRow basis linked.state linked.s linked.entity t key → (col : ColId) (value : Value) → DemandsCell basis.schema linked.state t key col value
        ↔ HasSymbol (by_entity basis.schema.model linked.entity linked.part) (region_writings basis linked.region) t col value }
    ensures link_rows { (basis : Basis) → IsBasis basis → (row : LinkRow basis)
        → DemandsRow basis.schema row.state row.t row.key ↔ IsTrue (is_written (link_writings basis row.fragment.assoc) row.t) }
    ensures link_cells { (basis : Basis) → IsBasis basis → (row : LinkRow basis) (col : ColId) (value : Value)
        → DemandsCell basis.schema row.state row.t row.key col value
        ↔ HasSymbol (by_link basis.schema.model row.assoc row.link) (link_writings basis row.fragment.assoc) row.t col value }
{}

/// A pattern has a row for each written table, in the order of tables, with a cell for each column that lists no symbol twice.
pub fn patterns_have_rows()
    ensures only { (store : StoreModel) (writings : List SymbolWriting) (row : PatternRow) → Contains (pattern_by store writings).rows row
        → (t : TableId) × (table : Table) × At store.tables t.index table × IsTrue (is_written writings t) × (row ≡ pattern_row writings t table) }
    ensures all { (store : StoreModel) (writings : List SymbolWriting) (t : TableId) (table : Table) → At store.tables t.index table → IsTrue (is_written writings t)
        → Contains (pattern_by store writings).rows (pattern_row writings t table) }
    ensures order { (store : StoreModel) (writings : List SymbolWriting)
        → AllPairs (λ (one next : PatternRow). one.table.index < next.table.index) (pattern_by store writings).rows }
    ensures cells { (store : StoreModel) (writings : List SymbolWriting) (t : TableId) (table : Table) (col : ColId) (column : Column) → At table.cols col.index column
        → At (pattern_row writings t table).cells col.index (cell_symbols writings t col) }
    ensures once { (writings : List SymbolWriting) (t : TableId) (col : ColId) → AreApart (cell_symbols writings t col) }
{}
