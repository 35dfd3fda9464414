ghost use Rattle.std.specs.Prelude.{◌≡◌, ◌↔◌, ◌∷◌, ◌++◌, All, List};
ghost use Rattle.round_trip.specs.Words.{AreLegalTables, AreSameTables, StoreModel, Tables};
ghost use Rattle.row_changes.specs.declared.change.RowChange.{RowChange};
ghost use Rattle.row_changes.specs.Changes.{FindsItsRow, after};
ghost use Rattle.row_changes.specs.Differences.{AreBothLegal, AreDifference, IsChange};
ghost use Rattle.row_changes.specs.Joined.{AreWithOneRest};
ghost use Rattle.row_changes.specs.Orders.{HasNoOrder, IsCycle, MustPrecede, Respects, StepLegal};

/// The law that the changes from tables to others lead there, in any order: each finds what it needs at its turn (`finds`), and after all of them the tables are
/// the new ones, up to the order of rows (`leads`).
pub fn row_changes_lead_to_the_new_tables()
    ensures finds { (store : StoreModel) (old new : Tables) → AreBothLegal store old new → (changes : List RowChange) → AreDifference store old new changes
        → (before later : List RowChange) (change : RowChange) → changes ≡ before ++ change ∷ later → FindsItsRow store (after store old before) change }
    ensures leads { (store : StoreModel) (old new : Tables) → AreBothLegal store old new → (changes : List RowChange) → AreDifference store old new changes
        → AreSameTables (after store old changes) new }
{}

/// The law of orders: of the changes from tables to others, a list keeps all keys after each of them exactly where it respects what has to come before what
/// (`exactly`); and then the tables are legal after each of them (`legal`).
pub fn orders_keep_all_keys()
    ensures exactly { (store : StoreModel) (old new : Tables) → AreBothLegal store old new → (changes : List RowChange) → AreDifference store old new changes
        → StepLegal store changes old ↔ Respects store old new changes }
    ensures legal { (store : StoreModel) (old new : Tables) → AreBothLegal store old new → (changes : List RowChange) → AreDifference store old new changes
        → StepLegal store changes old → (before later : List RowChange) → changes ≡ before ++ later → AreLegalTables store (after store old before) }
{}

/// The law that a cycle has no order: where changes from tables to others have to come before one another in a ring, no list of all the changes keeps all keys
/// after each of them.
pub fn a_cycle_has_no_order()
    ensures { (store : StoreModel) (old new : Tables) → AreBothLegal store old new → (ring : List RowChange) → IsCycle store old new ring
        → All (IsChange store old new) ring → HasNoOrder store old new }
{}

/// The law that the rows which may differ are enough: of tables that are put together with one rest before and afterwards, the changes are those of the two parts
/// (`changes`), and so is which of two changes has to come before the other (`precedes`).
pub fn touched_rows_are_enough()
    ensures changes { (store : StoreModel) (part_before part_after rest old new : Tables) → AreWithOneRest store part_before part_after rest old new → (change : RowChange)
        → IsChange store part_before part_after change ↔ IsChange store old new change }
    ensures precedes { (store : StoreModel) (part_before part_after rest old new : Tables) → AreWithOneRest store part_before part_after rest old new → (one other : RowChange)
        → IsChange store part_before part_after one → IsChange store part_before part_after other
        → MustPrecede store part_before part_after one other ↔ MustPrecede store old new one other }
{}
