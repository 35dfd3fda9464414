//! In a sound model each type stands in the forest.

ghost use Rattle.edm_types.specs.Forest.{HoldsEachType};
ghost use Rattle.round_trip.specs.Words.{EntityModel};
ghost use Rattle.round_trip.specs.soundness.models.Models.{IsSoundModel};

/// In a sound model each type stands in the forest.
pub fn a_sound_forest_is_whole()
    ensures whole { (model : EntityModel) → IsSoundModel model → HoldsEachType model model.forest }
{}
