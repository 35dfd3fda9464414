ghost use Rattle.std.specs.Prelude.{ℕ, List, Result};
ghost use Rattle.round_trip.specs.Words.{AreLegalTables, IsLegal, Schema, State, Tables, TablesAre};
ghost use Rattle.case_laws.specs.Reading.{HasStateTables};
ghost use Rattle.mapping_core.specs.Accepted.{IsAccepted};
ghost use Rattle.mapping_core.specs.states.Loads.{IsStateText, Loads};
ghost use Rattle.data_documents.specs.declared.shape_faults.fault.ShapeFault.{ShapeFault};
ghost use Rattle.mapping_core.specs.Rules.{IsRead};
ghost use Rattle.mapping_core.specs.states.Documents.{HoldsTables, ReadsEntities, ReadsTables};
ghost use Rattle.mapping_core.specs.states.GivesBack.{GivesBack, GivesEntitiesBack, GivesTablesBack};
ghost use Rattle.mapping_core.specs.states.Stores.{IsTablesText};
ghost use Rattle.mapping_core.specs.declared.loading.LoadFault.{LoadFault};

/// What is stored is loaded: the tables of a legal state by an accepted mapping are legal, and the state's own; and what loading legal tables of the state's
/// own answers, whatever their free cells hold, is this state, unless memory ran out.
pub fn what_is_stored_is_loaded()
    ensures legal { (schema : Schema) → IsAccepted schema → (state : State) → IsLegal schema.model state → (tables : Tables) → TablesAre schema state tables
        → AreLegalTables schema.store tables }
    ensures own { (schema : Schema) (state : State) (tables : Tables) → TablesAre schema state tables → HasStateTables schema state tables }
    ensures loaded { (schema : Schema) (state : State) → IsLegal schema.model state → (tables : Tables) → AreLegalTables schema.store tables
        → HasStateTables schema state tables → (result : Result State LoadFault) → Loads schema tables result → GivesBack state result }
{}

/// What is printed is read: the text that is printed of a legal state's tables by an accepted mapping is read as a table document, which tells legal tables
/// that are the state's, unless memory ran out; and what loading these answers is the state, unless memory ran out. So is the text that is printed of a legal
/// state read as an entity document, which tells the same state, unless memory ran out. The schema is any that documents mean which break no rule.
pub fn what_is_printed_is_loaded()
    ensures tables { (schema : Schema) → IsRead schema → IsAccepted schema → (state : State) → IsLegal schema.model state → (text : List ℕ) → IsTablesText schema state text
        → (result : Result Tables ShapeFault) → ReadsTables schema.store text result → GivesTablesBack schema state result }
    ensures state { (schema : Schema) → IsRead schema → IsAccepted schema → (state : State) → IsLegal schema.model state → (text : List ℕ) → IsTablesText schema state text
        → (tables : Tables) → HoldsTables schema.store text tables → (result : Result State LoadFault) → Loads schema tables result → GivesBack state result }
    ensures entities { (schema : Schema) → IsRead schema → (state : State) → IsLegal schema.model state → (text : List ℕ) → IsStateText schema state text
        → (result : Result State ShapeFault) → ReadsEntities schema.model text result → GivesEntitiesBack state result }
{}
