//! That what an MSL document means is sound with its model and its store where it breaks no rule.

ghost use Rattle.edm_types.specs.declared.model.EntityModel.{EntityModel};
ghost use Rattle.edm_types.specs.declared.store.StoreModel.{StoreModel};
ghost use Rattle.round_trip.specs.soundness.mappings.Mappings.{IsSoundSchema};
ghost use Rattle.msl_rules.specs.declared.msl_lists.raw.RawMapping.{RawMapping};
ghost use Rattle.msl_rules.specs.KeepsMapping.{KeepsMappingRules};
ghost use Rattle.msl_rules.specs.MappingMeaning.{schema_in};

use crate::sound_fragments::kept_fragments_are_sound;
use crate::sound_links::kept_links_are_sound;
use crate::sound_owners::{fragments_stand_apart, kept_tables_have_one_owner};

/// What a document means that breaks no rule is sound with its model and its store.
pub fn a_mapping_that_breaks_no_rule_is_sound()
    ensures sound { (model : EntityModel) (store : StoreModel) (raw : RawMapping) → KeepsMappingRules model store raw → IsSoundSchema (schema_in model store raw) }
{
    kept_fragments_are_sound();
    kept_links_are_sound();
    kept_tables_have_one_owner();
    fragments_stand_apart();
}
