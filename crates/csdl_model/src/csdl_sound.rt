//! That what a CSDL document means is a sound model where it breaks no rule.

ghost use Rattle.std.specs.Prelude.{◌≡◌};
ghost use Rattle.csdl_names.specs.declared.csdl_lists.raw.RawModel.{RawModel};
ghost use Rattle.round_trip.specs.soundness.models.Models.{IsSoundModel};
ghost use Rattle.csdl_meaning.specs.ModelMeaning.{meaning};
ghost use Rattle.csdl_model.specs.csdl_sound.Classes.{class_assocs, class_forest, class_sets, classes};
ghost use Rattle.csdl_model.specs.csdl_sound.SoundMeaning.{KeepsRules};

/// What a document means that breaks no rule is a sound model.
pub fn a_document_that_breaks_no_rule_is_sound()
    ensures sound { (raw : RawModel) → KeepsRules raw → IsSoundModel (meaning raw) }
{}

/// What a small document means: two entity sets, an association with a constraint over an inherited key and one without, and association
/// sets whose ends stand in another order. It breaks none of the rules.
pub fn classes_are_meant()
    ensures sets { (meaning classes).sets ≡ class_sets }
    ensures assocs { (meaning classes).assocs ≡ class_assocs }
    ensures forest { (meaning classes).forest ≡ class_forest }
    ensures keeps { KeepsRules classes }
{}
