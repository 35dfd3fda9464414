//! The forest that a CSDL document means is that of its base types.

ghost use Rattle.std.specs.Prelude.{◌≡◌, ◌↔◌};
ghost use Rattle.csdl_names.specs.declared.csdl_lists.raw.RawModel.{RawModel};
ghost use Rattle.csdl_meaning.specs.csdl_forests.SchoolForest.{school_forest};
ghost use Rattle.csdl_meaning.specs.Meaning.{forest_in};
ghost use Rattle.csdl_meaning.specs.ModelMeaning.{meaning};
ghost use Rattle.csdl_meaning.specs.School.{school};
ghost use Rattle.csdl_meaning.specs.SoundTypes.{KeepsTypeRules};
ghost use Rattle.edm_types.specs.Forest.{
  HoldsEachType,
  IsForest,
  IsNodeOf,
  node_type,
};
ghost use Rattle.round_trip.specs.Words.{TypeNode};
ghost use Rattle.round_trip.specs.soundness.models.Inheritance.{HasNoCircle};
ghost use Rattle.round_trip.specs.soundness.models.ModelIds.{IsTypeId};

/// The forest that a document means is that of its base types, whatever the document: a type that stands above itself, or below one that
/// does, is in none of its trees. So each type stands in the forest just where none is its own ancestor, as where the document keeps the rules.
pub fn a_meant_forest_is_whole()
    ensures forest { (raw : RawModel) → IsForest (meaning raw) (meaning raw).forest }
    ensures ids { (raw : RawModel) (node : TypeNode) → IsNodeOf (meaning raw).forest node → IsTypeId (meaning raw) (node_type node) }
    ensures whole { (raw : RawModel) → HasNoCircle (meaning raw) ↔ HoldsEachType (meaning raw) (meaning raw).forest }
    ensures kept { (raw : RawModel) → KeepsTypeRules raw → HoldsEachType (meaning raw) (meaning raw).forest }
{}

/// Persons with the teachers below them, who stand before them in the document, and lessons.
pub fn a_school_is_two_trees()
    ensures trees { forest_in school ≡ school_forest }
{}
