//! The rows that update views tell are those of cases, by which they are read back.

ghost use Rattle.std.specs.Prelude.{◌≡◌, Bool, Contains, List, Some};
ghost use Rattle.round_trip.specs.Words.{AssocId, ColId, Entity, Hosted, IsLegal, Link, RoundTrips, SetId, State, TableId, links_in};
ghost use Rattle.table_files.specs.declared.tables.TableRow.{TableRow};
ghost use Rattle.cells.specs.Limits.{IsWithinLimits};
ghost use Rattle.regions.specs.Basis.{Basis};
ghost use Rattle.regions.specs.declared.region.Region.{Region};
ghost use Rattle.regions.specs.region_laws.IsBasis.{IsBasis};
ghost use Rattle.region_states.specs.conflicts.Conflicts.{IsTableOf};
ghost use Rattle.case_laws.specs.declared.region_cases.link_case.LinkCase.{LinkCase};
ghost use Rattle.case_laws.specs.filled_rows.Demanded.{IsHeldWith};
ghost use Rattle.case_laws.specs.region_cases.Cases.{case_of};
ghost use Rattle.case_laws.specs.region_cases.Links.{link_case_of};
ghost use Rattle.case_laws.specs.Reading.{DecidesFree};
ghost use Rattle.update_views.specs.CaseRows.{AreFilledRows, IsFilledLink};
ghost use Rattle.update_views.specs.Views.{AreViewsOf, joined_row, local_rows};
ghost use Rattle.update_views.specs.declared.views.UpdateViews.{UpdateViews};

/// Where no limit is passed and no legal state fails, the rows that the views of a mapping tell of an entity of a legal state, with the links that it hosts, are
/// those of the case of its region, and the row that they tell of a link of an association with a table of its own is that of the association's case, each with the
/// shown values filled in.
pub fn views_fill_cases()
    ensures entities { (basis : Basis) → IsBasis basis → IsWithinLimits basis.schema → RoundTrips basis.schema → (is_free : TableId → ColId → Bool)
        → DecidesFree basis.schema is_free → (views : UpdateViews) → AreViewsOf basis views → (state : State) → IsLegal basis.schema.model state
        → (s : SetId) (entity : Entity) (links : List Hosted) (region : Region) → IsHeldWith basis state s entity links region
        → AreFilledRows basis region entity links (case_of is_free basis region) (local_rows views s entity links) }
    ensures joined { (basis : Basis) → IsBasis basis → IsWithinLimits basis.schema → RoundTrips basis.schema → (is_free : TableId → ColId → Bool)
        → DecidesFree basis.schema is_free → (views : UpdateViews) → AreViewsOf basis views → (state : State) → IsLegal basis.schema.model state
        → (a : AssocId) (case : LinkCase) → link_case_of is_free basis a ≡ Some case → (own : IsTableOf basis a case.table)
        → (link : Link) → Contains (links_in state a) link
        → (of_link : Link → TableRow) × (joined_row views a ≡ Some of_link) × IsFilledLink basis.schema.model own.assoc link case (of_link link) }
{}
