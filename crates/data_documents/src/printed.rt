//! What a printed document tells when it is read: what it was printed of.

ghost use Rattle.std.specs.Prelude.{◌≡◌, ◌≢◌, ℕ, List, All, Some, codes};
ghost use Rattle.serde_json.specs.Data.{Data};
ghost use Rattle.json_form.specs.Documents.{printed};
ghost use Rattle.json_form.specs.TreeParts.{tree_at};
ghost use Rattle.round_trip.specs.Words.{AreLegalTables, EntityModel, IsLegal, State, StoreModel, Tables};
ghost use Rattle.round_trip.specs.soundness.models.Models.{IsSoundModel};
ghost use Rattle.round_trip.specs.soundness.Stores.{IsSoundStore};
ghost use Rattle.entity_state.specs.Tells.{IsTreeInKeyOrder as IsStateTree};
ghost use Rattle.table_files.specs.Tells.{IsTreeInKeyOrder as IsTablesTree};
ghost use Rattle.data_documents.specs.printed.Again.{TellsStateAgain, TellsTablesAgain};
ghost use Rattle.data_documents.specs.printed.Names.{HasTextModelNames, HasTextNames};
ghost use Rattle.data_documents.specs.printed.Texts.{HasTexts};

/// The text that is printed of legal tables of a sound store holds a table document of the right shape, and tells these tables again, in the
/// order of their primary keys. The names of tables and columns are texts, as each name that is read of a document is.
pub fn printed_tables_are_read()
    ensures again { (store : StoreModel) → IsSoundStore store → HasTextNames store → (tables : Tables) → AreLegalTables store tables
        → (tree : Data) → IsTablesTree store tables tree → TellsTablesAgain store tables (printed tree) }
{}

/// What is read of the bytes of a document holds texts: each name in it and each string is UTF-8.
pub fn what_is_read_holds_texts()
    ensures texts { (bytes : List ℕ) (d : Data) → tree_at bytes ≡ Some d → HasTexts d }
{}

/// The text that is printed of a legal state of a sound model holds an entity document of the right shape, and tells this state again, in the order of
/// keys. The names are texts, and no property is named as the member that tells a type, as no name that is read of a document is.
pub fn printed_entities_are_read()
    ensures again { (model : EntityModel) → IsSoundModel model → HasTextModelNames model → All (λ prop. prop.name ≢ codes "$type") model.props
        → (state : State) → IsLegal model state → (tree : Data) → IsStateTree model state tree → TellsStateAgain model state (printed tree) }
{}
