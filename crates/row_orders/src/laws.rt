ghost use Rattle.std.specs.Prelude.{◌≡◌, ◌↔◌, All, List, ℕ};
ghost use Rattle.emc_base.specs.Lists.{At};
ghost use Rattle.round_trip.specs.Words.{StoreModel, Tables};
ghost use Rattle.arrow_orders.specs.Orders.{IsLine, IsRing};
ghost use Rattle.row_changes.specs.declared.change.RowChange.{RowChange};
ghost use Rattle.row_changes.specs.Differences.{AreBothLegal, AreDifference, IsChange};
ghost use Rattle.row_changes.specs.Orders.{IsCycle, MustPrecede, StepLegal};
ghost use Rattle.row_orders.specs.declared.alteration.Alteration.{Alteration};
ghost use Rattle.row_orders.specs.Alterations.{AreAlterations, AreChangesAt, AreChangesRound, change_of};
ghost use Rattle.row_orders.specs.Waiting.{TellWaits, WaitsFor};

/// The law that joins rows that differ with the changes of rows: an alteration waits for another exactly where the change of this has to come before its own
/// (`waits`); the changes along a line of the alterations are all changes, and keep all keys after each (`line`); and those along a ring, turned round, are a
/// cycle, which has no order (`ring`).
pub fn orders_of_alterations_are_orders_of_changes()
    ensures waits { (store : StoreModel) (old new : Tables) → AreBothLegal store old new → (alterations : List Alteration) → AreAlterations store old new alterations
        → (i j : ℕ) (one other : Alteration) → At alterations i one → At alterations j other
        → WaitsFor store.keys alterations i j ↔ MustPrecede store old new (change_of store other) (change_of store one) }
    ensures line { (store : StoreModel) (old new : Tables) → AreBothLegal store old new → (alterations : List Alteration) → AreAlterations store old new alterations
        → (ends : List (List ℕ)) → TellWaits store.keys alterations ends → (places : List ℕ) → IsLine ends places
        → (changes : List RowChange) → AreChangesAt store alterations places changes → AreDifference store old new changes × StepLegal store changes old }
    ensures ring { (store : StoreModel) (old new : Tables) → AreBothLegal store old new → (alterations : List Alteration) → AreAlterations store old new alterations
        → (ends : List (List ℕ)) → TellWaits store.keys alterations ends → (places : List ℕ) → IsRing ends places
        → (changes : List RowChange) → AreChangesRound store alterations places changes → IsCycle store old new changes × All (IsChange store old new) changes }
{}
