//! Patterns of regions: what their symbols can be, where they stand, and which rows a fragment shows.

ghost use Rattle.std.specs.Prelude.{◌≡◌, ◌≢◌, ◌↔◌, [], ◌∷◌, All, Any, Bool, Contains, IsTrue, List, false, true};
ghost use Rattle.round_trip.specs.Words.{Assoc, AssocId, At, ColId, Entity, EntityModel, Fragment, Hosted, IsLegal, Link, LinkFragment, Null, Pair, Prop, PropId, Row, Selects, SetId, Shows, ShowsLink, State, Table, TableId, Tables, TablesAre, Value, entities_in, key_columns, links_in, row_key, rows_in};
ghost use Rattle.edm_types.specs.declared.model.Mult.TheVariants.{Many};
ghost use Rattle.condition_logic.specs.declared.atoms.AtomOf.{AtomOf};
ghost use Rattle.round_trip.specs.soundness.mappings.Joined.{IsNoKey, Member, TellsOther, col, prop};
ghost use Rattle.schema_laws.specs.state_demand.Owners.{IsOwned};
ghost use Rattle.regions.specs.region_laws.Held.{PartneredEntity, StandingLink};
ghost use Rattle.regions.specs.region_laws.IsBasis.{IsBasis};
ghost use Rattle.regions.specs.declared.region.Region.{Region};
ghost use Rattle.regions.specs.declared.pattern.Focus.{Focus};
ghost use Rattle.regions.specs.declared.pattern.Focus.TheVariants as focus;
ghost use Rattle.regions.specs.declared.pattern.PatternRow.{PatternRow};
ghost use Rattle.regions.specs.declared.pattern.Symbol.{Symbol};
ghost use Rattle.regions.specs.declared.pattern.Symbol.TheVariants as symbol;
ghost use Rattle.regions.specs.Basis.{Basis, Host, partner_end};
ghost use Rattle.regions.specs.Patterns.{Valuation, by_entity, by_link, pattern_of, value_under};
ghost use Rattle.regions.specs.Regions.{Holds, regions_of};
ghost use Rattle.regions.specs.Settled.{free, has_clash, known, multi, possible, settle};
ghost use Rattle.regions.specs.Shown.{shows_link_row, shows_row};
ghost use Rattle.regions.specs.Symbols.{is_linked, selects_region};
ghost use Rattle.regions.specs.region_laws.pattern.Allowed.{AllowedFocus, ArePartners, CanBe, HasFewPartners, IsAllowed, IsAllowedLink, IsFocus, partner_parts, told_of};
ghost use Rattle.regions.specs.region_laws.pattern.Listed.{IsEndCell, IsKeyPair, IsTelling, Lists, PatternCell, WhereListed};
ghost use Rattle.schema_laws.specs.sound_types.KeyParts.{IsPartOfKey};
ghost use Rattle.regions.specs.region_laws.pattern.Described.{DemandedRow, DescribedRow, HasTwoSymbols, HostsFewAt, IsClearRow, IsRowFor, row_for};
ghost use Rattle.regions.specs.region_laws.pattern.Plain.{IsPlain};

/// In a legal state the values of an entity and of its partners' keys are such as its region allows, and so are the keys of a link.
pub fn values_are_allowed()
    ensures entities { (basis : Basis) → IsBasis basis → (one : PartneredEntity basis) → IsAllowed basis one.held.region (by_entity basis.schema.model one.held.entity one.part) }
    ensures links { (basis : Basis) → IsBasis basis → (one : StandingLink basis) → IsAllowedLink basis one.a (by_link basis.schema.model one.assoc one.link) }
    ensures partners { (basis : Basis) (region : Region) (entity : Entity) (links : List Hosted) → Holds basis region entity links → HasFewPartners basis region
        → ArePartners basis region links (partner_parts basis.schema.model links) }
{}

/// Each symbol that a pattern lists has a value that is possible for it; and null is possible, among several values, of a nullable property alone.
pub fn symbols_are_possible()
    ensures can_be { (basis : Basis) → IsBasis basis → (told : AllowedFocus basis) (t : TableId) (c : ColId) (one : Symbol) → Lists (pattern_of basis told.of) t c one
        → CanBe (possible basis.schema.model (told_of told.of) one) (value_under told.values one) }
    ensures nulls { (model : EntityModel) (atoms : List AtomOf) (one : Symbol) → possible model atoms one ≡ multi true
        → (p : PropId) × (declared : Prop) × (one ≡ symbol.Prop p) × At model.props p.index declared × IsTrue declared.nullable }
{}

/// Which symbols stand in which cells: one in each cell of a primary key, and elsewhere those that are in one group with the cell's column.
pub fn cells_have_a_shape()
    ensures owned { (basis : Basis) → IsBasis basis → (s : SetId) (region : Region) → Contains (regions_of basis s) region
        → (at : PatternCell basis (focus.Entity region)) → (pairing : List Pair) × IsOwned basis.schema at.t s pairing }
    ensures keys { (basis : Basis) → IsBasis basis → (s : SetId) (region : Region) → Contains (regions_of basis s) region
        → (at : PatternCell basis (focus.Entity region)) (pair : Pair) → IsKeyPair basis.schema s at.t at.col pair → at.cell ≡ symbol.Prop pair.prop ∷ [] }
    ensures link_keys { (basis : Basis) → IsBasis basis → (a : AssocId) (at : PatternCell basis (focus.Link a)) → Contains (key_columns basis.schema.store at.t) at.col
        → IsEndCell basis.schema a at.t at.col at.cell }
    ensures parts { (basis : Basis) → IsBasis basis → (p : PropId) (here : WhereListed basis (symbol.Prop p)) → IsFocus basis here.of → IsPartOfKey basis.schema.model p
        → Contains (key_columns basis.schema.store here.t) here.col }
    ensures ends { (basis : Basis) → IsBasis basis → (a : AssocId) (first : Bool) (p : PropId) (here there : WhereListed basis (symbol.End a first p))
        → (here.t ≡ there.t) × (here.col ≡ there.col) }
    ensures groups { (basis : Basis) → IsBasis basis → (p : PropId) (here : WhereListed basis (symbol.Prop p)) → IsFocus basis here.of → IsNoKey basis.schema (prop p)
        → basis.group (prop p) ≡ basis.group (col here.t here.col) }
    ensures tested { (basis : Basis) → IsBasis basis → (one : Symbol) (here : WhereListed basis one) → IsFocus basis here.of
        → ¬ Contains (key_columns basis.schema.store here.t) here.col → IsTelling basis.schema.model (told_of here.of) one
        → IsTrue (basis.tested (col here.t here.col)) }
    ensures untested { (basis : Basis) → IsBasis basis → (p : PropId) (here there : WhereListed basis (symbol.Prop p)) → IsFocus basis here.of → IsFocus basis there.of
        → IsNoKey basis.schema (prop p) → ¬ IsTrue (basis.tested (prop p)) → (here.t ≡ there.t) × (here.col ≡ there.col) }
    ensures plain { (basis : Basis) → IsBasis basis → (source : Member) → TellsOther basis.schema source → IsPlain basis source }
{}

/// The symbols of a cell without a clash have one value, which is known, or that of the one symbol; and a row of such cells describes a row.
pub fn cells_are_settled()
    ensures one { (basis : Basis) → IsBasis basis → (told : AllowedFocus basis) (at : PatternCell basis told.of)
        → has_clash basis.schema.model (told_of told.of) at.cell ≡ false → (one two : Symbol) → Contains at.cell one → Contains at.cell two
        → value_under told.values one ≡ value_under told.values two }
    ensures known { (basis : Basis) → IsBasis basis → (told : AllowedFocus basis) (at : PatternCell basis told.of)
        → has_clash basis.schema.model (told_of told.of) at.cell ≡ false → (value : Value) → settle basis.schema.model (told_of told.of) at.cell ≡ known value
        → All (λ symbol. value_under told.values symbol ≡ value) at.cell × (at.cell ≡ [] → value ≡ Null) }
    ensures free { (basis : Basis) → IsBasis basis → (told : AllowedFocus basis) (at : PatternCell basis told.of)
        → has_clash basis.schema.model (told_of told.of) at.cell ≡ false → (one : Symbol) (n : Bool) → settle basis.schema.model (told_of told.of) at.cell ≡ free one n
        → (at.cell ≡ one ∷ []) × (value_under told.values one ≡ Null → IsTrue n) }
    ensures described { (basis : Basis) → IsBasis basis → (told : AllowedFocus basis) (pattern : PatternRow) → IsClearRow basis told.of pattern
        → IsRowFor told.values pattern (row_for told.values pattern) }
{}

/// A clash of a cell is two of its symbols that differ, unless both can be one value alone.
pub fn a_clash_is_two_symbols()
    ensures told { (model : EntityModel) (atoms : List AtomOf) (cell : List Symbol) → IsTrue (has_clash model atoms cell) ↔ HasTwoSymbols model atoms cell }
{}

/// Whether a fragment shows a row that a pattern describes is told by the pattern alone.
pub fn shown_is_decided()
    ensures fragments { (basis : Basis) → IsBasis basis → (told : AllowedFocus basis) (at : DescribedRow basis told) (fragment : Fragment)
        → Contains basis.schema.mapping.fragments fragment → fragment.table ≡ at.pattern.table
        → IsTrue (shows_row basis.schema.model (told_of told.of) fragment at.pattern) ↔ Shows fragment at.row }
    ensures links { (basis : Basis) → IsBasis basis → (told : AllowedFocus basis) (at : DescribedRow basis told) (fragment : LinkFragment)
        → Contains basis.schema.mapping.links fragment → fragment.table ≡ at.pattern.table
        → IsTrue (shows_link_row basis.schema.model (told_of told.of) fragment at.pattern) ↔ ShowsLink fragment at.row }
{}

/// A fragment agrees with the row of an entity or a link just where the pattern says so: where it shows the pattern's row just if it selects the
/// region, or just if a link of its association is there.
pub fn agreement_is_by_regions()
    ensures entities { (basis : Basis) → IsBasis basis → (one : PartneredEntity basis)
        → (at : DemandedRow basis one.held.state (focus.Entity one.held.region) (by_entity basis.schema.model one.held.entity one.part))
        → (fragment : Fragment) → Contains basis.schema.mapping.fragments fragment → fragment.table ≡ at.pattern.table
        → (Selects basis.schema.model fragment one.held.entity ↔ Shows fragment at.row)
        ↔ (IsTrue (selects_region basis one.held.region fragment) ↔ IsTrue (shows_row basis.schema.model one.held.region.atoms fragment at.pattern)) }
    ensures hosts { (basis : Basis) → IsBasis basis → (one : PartneredEntity basis)
        → (at : DemandedRow basis one.held.state (focus.Entity one.held.region) (by_entity basis.schema.model one.held.entity one.part))
        → (fragment : LinkFragment) → HostsFewAt basis one.held.region.set at.pattern.table fragment
        → (Any (λ hosted. hosted.assoc ≡ fragment.assoc) one.held.of_region.links ↔ ShowsLink fragment at.row)
        ↔ (IsTrue (is_linked basis one.held.region.linked fragment.assoc) ↔ IsTrue (shows_link_row basis.schema.model one.held.region.atoms fragment at.pattern)) }
    ensures links { (basis : Basis) → IsBasis basis → (one : StandingLink basis)
        → (at : DemandedRow basis one.state (focus.Link one.a) (by_link basis.schema.model one.assoc one.link))
        → (fragment : LinkFragment) → Contains basis.schema.mapping.links fragment → fragment.table ≡ at.pattern.table
        → IsTrue (shows_link_row basis.schema.model [] fragment at.pattern) ↔ ShowsLink fragment at.row }
{}
