ghost use Rattle.std.specs.Prelude.{◌↔◌, IsTrue};
ghost use Rattle.round_trip.specs.Words.{IsLegal, IsState};
ghost use Rattle.round_trip.specs.soundness.models.Models.{IsSoundModel};
ghost use Rattle.state_legality.specs.set_legality.Tells.{AreLegalSets};
ghost use Rattle.state_legality.specs.link_legality.Tells.{KeepsLinkRules, state_of};

use crate::link_legality::are_legal_links;
use crate::set_legality::are_legal_sets;
use edm_types::{Entity, EntityModel, Link};
use emc_base::Seq;
use entity_state::EntityState;

/// Whether an entity state is legal. It takes no memory, and its time grows with the square of the number of entities and of links.
pub fn is_legal(state: &EntityState, model: &EntityModel) -> bool
    requires shape { IsState model.now state.now }
    requires sound { IsSoundModel model.now }
    ensures { IsTrue result ↔ IsLegal model.now state.now }
{
    keep_rules(model, state.entity_lists(), state.link_lists())
}

// S1 to S8 of these lists.
fn keep_rules(model: &EntityModel, entities: &[Seq<Entity>], links: &[Seq<Link>]) -> bool
    requires { IsSoundModel model.now }
    ensures { IsTrue result ↔ (AreLegalSets model.now entities.now × KeepsLinkRules model.now (state_of entities.now links.now)) }
{
    are_legal_sets(model, entities) && are_legal_links(model, entities, links)
}
