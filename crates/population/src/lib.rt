//! Which legal states there are: for each sound model, given entities and links with what supports them are a legal state, and what some entities of a legal state need is one.
#![tactic(auto)]

mod link_states;
mod parts;
mod placed;

ghost use Rattle.std.specs.Prelude.{◌↔◌, ℕ, List, Contains};
ghost use Rattle.round_trip.specs.Words.{EntityModel, Entity, IsLegal, SetId, State};
ghost use Rattle.round_trip.specs.soundness.models.Models.{IsSoundModel};
ghost use Rattle.population.specs.Given.{AreGiven, AreKeys, AreLinked, AreWanted, HasNumbers};
ghost use Rattle.population.specs.Principals.{AsksFor, PlacedKey, principals};
ghost use Rattle.population.specs.Support.{IsLeastFor, support};
ghost use Rattle.population.specs.Supported.{Placed, PlacedLink, supported};

pub use link_states::links_can_stand;
pub use parts::{
    failures_stand_in_parts, legal_parts_are_closed, needed_keys_are_least, needed_parts_are_legal,
    parts_by_one_list_are_alike, parts_hold_what_is_needed, supported_parts_are_made,
};
pub use placed::{Placed, PlacedKey, PlacedLink, Supporting};

/// The principals that an entity asks for are computed.
pub fn principals_are_asked_for()
    ensures asked { (model : EntityModel) → IsSoundModel model → (u : SetId) (entity : Entity) (to : PlacedKey) → Contains (principals model u entity) to ↔ AsksFor model u entity to }
{}

/// Given entities, keys and links that fit together make a legal state, with the plain entities of the keys and those of all numbers.
pub fn supported_states_are_legal()
    ensures legal { (model : EntityModel) (outer : ℕ) → HasNumbers model outer → (given : List Placed) (keys : List PlacedKey) (links : List PlacedLink)
        → AreGiven model outer given → AreKeys model outer given keys → AreLinked model outer given keys links → IsLegal model (supported model outer given keys links) }
{}

/// The support is the least list of keys that holds the wanted ones and is closed under steps, as far as no other entity stands there; and it fits the given
/// entities.
pub fn the_support_is_the_least()
    ensures least { (model : EntityModel) (outer : ℕ) → HasNumbers model outer → (given : List Placed) (wanted : List PlacedKey)
        → IsLeastFor model outer given wanted (support model outer given wanted) }
    ensures fits { (model : EntityModel) (outer : ℕ) → HasNumbers model outer → (given : List Placed) (wanted : List PlacedKey)
        → AreGiven model outer given → AreWanted model given wanted → AreKeys model outer given (support model outer given wanted) }
{}
