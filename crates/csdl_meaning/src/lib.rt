//! What a CSDL document means, made from its lists: its types form a forest, and they and their properties are sound where no rule is broken.
#![tactic(auto)]

pub mod csdl_forests;
pub mod csdl_making;

ghost use Rattle.std.specs.Prelude.{◌≡◌};
ghost use Rattle.round_trip.specs.Words.{EntityModel};
ghost use Rattle.csdl_names.specs.declared.csdl_lists.raw.RawModel.{RawModel};
ghost use Rattle.csdl_meaning.specs.Meaning.{IsMeant, props_in, types_in};
ghost use Rattle.csdl_meaning.specs.School.{school, school_props, school_types};
ghost use Rattle.csdl_meaning.specs.SoundTypes.{HasSoundTypes, KeepsTypeRules};

pub use csdl_forests::{a_meant_forest_is_whole, a_school_is_two_trees};
pub use csdl_making::{make_model, simple_kind};

/// The types and the properties that a document means are sound where it breaks none of the rules V6 to V13.
pub fn a_document_that_breaks_no_rule_has_sound_types()
    ensures sound { (raw : RawModel) (model : EntityModel) → KeepsTypeRules raw → IsMeant raw model → HasSoundTypes model }
{}

/// What a small document means: a derived type that stands before its base type, each simple type, bounds, and enumerations. It breaks
/// none of the rules.
pub fn a_school_is_meant()
    ensures types { types_in school ≡ school_types }
    ensures props { props_in school ≡ school_props }
    ensures keeps { KeepsTypeRules school }
{}
