//! What soundness of a model says of its types: each property and each name stands once in a type, and of any two types one is derived from the
//! other or isn't.

ghost use Rattle.std.specs.Prelude.{◌⊎◌, AllPairs};
ghost use Rattle.emc_base.specs.Lists.{AreApart};
ghost use Rattle.round_trip.specs.Words.{EntityModel, IsA, TypeId, props_of};
ghost use Rattle.round_trip.specs.soundness.models.Models.{IsSoundModel};
ghost use Rattle.schema_laws.specs.sound_types.PropNames.{HaveOtherNames};

/// In a sound model a type has each of its properties once, inherited ones included.
pub fn a_sound_type_has_each_property_once()
    ensures once { (model : EntityModel) (t : TypeId) → IsSoundModel model → AreApart (props_of model t) }
{}

/// In a sound model the properties of a type have different names, those of inherited ones included.
pub fn a_sound_type_has_each_name_once()
    ensures once { (model : EntityModel) (t : TypeId) → IsSoundModel model → AllPairs (HaveOtherNames model) (props_of model t) }
{}

/// In a sound model a type is another or derived from it, or it isn't: there is no third.
pub fn derivation_is_decided()
    ensures decided { (model : EntityModel) (t u : TypeId) → IsSoundModel model → IsA model t u ⊎ ¬ IsA model t u }
{}
