//! Parts of legal states: which are legal, what they hold, and which failures stand in them.

ghost use Rattle.std.specs.Prelude.{◌≡◌, ◌↔◌, ◌⊎◌, ℕ, Bool, List, Contains};
ghost use Rattle.round_trip.specs.Words.{EntityModel, Entity, IsLegal, Place, Schema, SetId, State, TableId, Value};
ghost use Rattle.round_trip.specs.soundness.mappings.Mappings.{IsSoundSchema};
ghost use Rattle.round_trip.specs.soundness.models.Models.{IsSoundModel};
ghost use Rattle.population.specs.Kept.{AreAlikeAs, AreNeeded, AsksAtKey, HoldsNeeded, IsClosed, IsJoinedToOne, kept_state, key_in, needs, part_of};
ghost use Rattle.population.specs.Given.{HasNumbers};
ghost use Rattle.population.specs.Made.{AreWhole, needs_of, part_made, state_of};
ghost use Rattle.population.specs.declared.placed.Supporting.{Supporting};
ghost use Rattle.population.specs.Principals.{PlacedKey};
ghost use Rattle.population.specs.RowStates.{FailsInRows, IsEntityWriter, IsLinkWriter, row_writers};

/// A part of a legal state is legal exactly where it holds with each of its entities the principals, and the partners that ends `1` ask for.
pub fn legal_parts_are_closed()
    ensures closed { (model : EntityModel) → IsSoundModel model → (keep : SetId → Entity → Bool) (state : State) → IsLegal model state
        → IsLegal model (kept_state model keep state) ↔ IsClosed model keep state }
{}

/// What some entities need in legal states is told by the least list of their keys, of those of the principals and partners that are asked of them, and so on.
pub fn needed_keys_are_least()
    ensures least { (model : EntityModel) → IsSoundModel model → (states : List State) → ((one : State) → Contains states one → IsLegal model one) → (roots : List PlacedKey)
        → AreNeeded model states roots }
    ensures asked { (model : EntityModel) → IsSoundModel model → (state : State) (from to : PlacedKey)
        → Contains (needs model state from) to ↔ (AsksAtKey model state from to ⊎ IsJoinedToOne model state from to) }
{}

/// The part of a legal state holds an entity where its key is needed, and a link where the keys of both its ends are.
pub fn parts_hold_what_is_needed()
    ensures holds { (model : EntityModel) (states : List State) (roots : List PlacedKey) (state : State) → IsLegal model state → HoldsNeeded model states roots state }
{}

/// The parts of two legal states by one list are alike wherever the states are.
pub fn parts_by_one_list_are_alike()
    ensures alike { (model : EntityModel) (states : List State) (roots : List PlacedKey) (one two : State) → IsLegal model one → IsLegal model two
        → AreAlikeAs model states roots one two }
{}

/// The part of a legal state that holds what some entities need, in it or in other legal states beside it, is legal.
pub fn needed_parts_are_legal()
    ensures legal { (model : EntityModel) → IsSoundModel model → (states : List State) → ((one : State) → Contains states one → IsLegal model one) → (roots : List PlacedKey)
        → (state : State) → Contains states state → IsLegal model (part_of model states roots state) }
{}

/// Where a legal state fails by a clash, a null, a disagreement or a dangling key, so does the part that the writers of one row need, at the same place. These
/// are the entities that fragments write to the row, and those at both ends of the links that link fragments write to it.
pub fn failures_stand_in_parts()
    ensures stand { (schema : Schema) → IsSoundSchema schema → (state : State) → IsLegal schema.model state → (place : Place) (other : State) → FailsInRows schema state place other }
    ensures writers { (schema : Schema) (state : State) (t : TableId) (key : List Value) (placed : PlacedKey)
        → Contains (row_writers schema state t key) placed ↔ (IsEntityWriter schema state t key placed ⊎ IsLinkWriter schema state t key placed) }
{}

/// What the entity with a key needs in a supported state, and the part of the state that holds what is needed, are made of what supports the state, without
/// its other entities.
pub fn supported_parts_are_made()
    ensures needs { (model : EntityModel) (outer : ℕ) → HasNumbers model outer → (one : Supporting) → AreWhole model one.keys → (placed to : PlacedKey)
        → Contains (needs model (state_of model outer one) placed) to ↔ Contains (needs_of model outer one placed) to }
    ensures part { (model : EntityModel) (outer : ℕ) → HasNumbers model outer → (one : Supporting) → AreWhole model one.keys → IsLegal model (state_of model outer one)
        → (needed : PlacedKey → Bool) → kept_state model (λ u entity. needed (key_in model u entity)) (state_of model outer one) ≡ part_made model outer one needed }
{}
