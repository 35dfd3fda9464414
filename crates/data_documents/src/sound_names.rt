//! What soundness says of the names in printed documents: those that stand in one object are apart.

ghost use Rattle.std.specs.Prelude.{◌≢◌, All, codes};
ghost use Rattle.round_trip.specs.Words.{EntityModel, StoreModel};
ghost use Rattle.round_trip.specs.soundness.models.Models.{IsSoundModel};
ghost use Rattle.round_trip.specs.soundness.Stores.{IsSoundStore};
ghost use Rattle.entity_state.specs.Tells.{HasApartNames as EntityNamesAreApart};
ghost use Rattle.table_files.specs.Tells.{HasApartNames as TableNamesAreApart};

/// In a sound store the names of tables are apart, and those of each table's columns: a document of tables holds each of its members.
pub fn names_of_a_sound_store_are_apart()
    ensures apart { (store : StoreModel) → IsSoundStore store → TableNamesAreApart store }
{}

/// In a sound model the names of entity sets and of independent association sets are apart, those of each type's properties and of the two
/// roles of an association: a document of entities holds each of its members. No property may be named as the member that tells an
/// entity's type, which no CSDL document that is read names one, since no name in it holds a `$`.
pub fn names_of_a_sound_model_are_apart()
    ensures apart { (model : EntityModel) → IsSoundModel model → All (λ prop. prop.name ≢ codes "$type") model.props → EntityNamesAreApart model }
{}
