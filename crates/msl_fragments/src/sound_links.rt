//! That what an MSL document means has sound fragments of links where it breaks no rule.

ghost use Rattle.std.specs.Prelude.{All, map};
ghost use Rattle.emc_base.specs.Lists.{AreApart};
ghost use Rattle.round_trip.specs.Words.{Assoc, At, EntityModel, StoreModel};
ghost use Rattle.round_trip.specs.soundness.mappings.Mappings.{HasLinkFragmentIds, IsSoundLinkFragment};
ghost use Rattle.msl_rules.specs.declared.msl_lists.raw.RawMapping.{RawMapping};
ghost use Rattle.msl_rules.specs.KeepsMapping.{KeepsMappingRules};
ghost use Rattle.msl_rules.specs.MappingMeaning.{mapping_in, schema_in};

/// The fragments of links that a document means which keeps the rules of MSL are sound, and no association set is mapped twice.
pub fn kept_links_are_sound()
    ensures ids { (model : EntityModel) (store : StoreModel) (raw : RawMapping) → KeepsMappingRules model store raw
        → All (HasLinkFragmentIds (schema_in model store raw)) (mapping_in model store raw).links }
    ensures sound { (model : EntityModel) (store : StoreModel) (raw : RawMapping) → KeepsMappingRules model store raw
        → All (λ fragment. (assoc : Assoc) → At model.assocs fragment.assoc.index assoc → IsSoundLinkFragment (schema_in model store raw) fragment assoc) (mapping_in model store raw).links }
    ensures once { (model : EntityModel) (store : StoreModel) (raw : RawMapping) → KeepsMappingRules model store raw
        → AreApart (map (λ fragment. fragment.assoc) (mapping_in model store raw).links) }
{}
