ghost use Rattle.std.specs.Prelude.{List, Result};
ghost use Rattle.round_trip.specs.Words.{Schema, State, Tables};
ghost use Rattle.entity_changes.specs.declared.change.Change.{Change};
ghost use Rattle.mapping_core.specs.Accepted.{IsAccepted};
ghost use Rattle.mapping_core.specs.declared.saving.fault.SaveFault.{SaveFault};
ghost use Rattle.mapping_core.specs.declared.saving.saved.Saved.{Saved};
ghost use Rattle.mapping_core.specs.states.Saves.{Saves};
ghost use Rattle.mapping_core.specs.states.SavesAll.{CanBeSaved, SavesUnlessMemory};

/// What is accepted is saved: of legal tables of a legal state's own, whatever their free cells hold, and of changes that this state accepts, which lead to a legal state,
/// whose tables with free columns kept are legal and can be reached in an order that keeps all keys, saving answers what is saved, unless memory ran out.
pub fn what_is_accepted_is_saved()
    ensures { (schema : Schema) → IsAccepted schema → (tables : Tables) (state : State) (changes : List Change) → CanBeSaved schema tables state changes
        → (result : Result Saved SaveFault) → Saves schema tables changes result → SavesUnlessMemory schema tables changes result }
{}
