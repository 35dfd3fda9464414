//! That what an MSL document means has sound fragments of entities where it breaks no rule.

ghost use Rattle.std.specs.Prelude.{All};
ghost use Rattle.round_trip.specs.Words.{EntityModel, StoreModel};
ghost use Rattle.round_trip.specs.soundness.mappings.Mappings.{IsSoundFragment};
ghost use Rattle.msl_rules.specs.declared.msl_lists.raw.RawMapping.{RawMapping};
ghost use Rattle.msl_rules.specs.KeepsMapping.{KeepsMappingRules};
ghost use Rattle.msl_rules.specs.MappingMeaning.{mapping_in, schema_in};

/// The fragments of entities that a document means which keeps the rules of MSL are sound.
pub fn kept_fragments_are_sound()
    ensures sound { (model : EntityModel) (store : StoreModel) (raw : RawMapping) → KeepsMappingRules model store raw
        → All (IsSoundFragment (schema_in model store raw)) (mapping_in model store raw).fragments }
{}
