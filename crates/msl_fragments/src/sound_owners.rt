//! That tables have one owner, keys are paired alike and fragments stand apart in what a mapping document means.

ghost use Rattle.std.specs.Prelude.{◌++◌, map};
ghost use Rattle.emc_base.specs.Lists.{AreApart};
ghost use Rattle.edm_types.specs.declared.model.EntityModel.{EntityModel};
ghost use Rattle.edm_types.specs.declared.store.StoreModel.{StoreModel};
ghost use Rattle.round_trip.specs.soundness.mappings.Owners.{HasOneOwner, PairsKeysAlike};
ghost use Rattle.msl_rules.specs.declared.msl_lists.raw.RawMapping.{RawMapping};
ghost use Rattle.msl_rules.specs.KeepsMapping.{KeepsMappingRules};
ghost use Rattle.msl_rules.specs.MappingMeaning.{mapping_in, schema_in};
ghost use Rattle.msl_rules.specs.KeepsMapping.{HasFewItems};

/// Where a document keeps the rules of MSL, what it means has one owner for each table, and pairs each owner's key alike.
pub fn kept_tables_have_one_owner()
    ensures pairings { (model : EntityModel) (store : StoreModel) (raw : RawMapping) → KeepsMappingRules model store raw → PairsKeysAlike (schema_in model store raw) }
    ensures owners { (model : EntityModel) (store : StoreModel) (raw : RawMapping) → KeepsMappingRules model store raw → HasOneOwner (schema_in model store raw) }
{}

/// Where the lists of a document are no longer than a `Seq` may be, each fragment of what it means has a place of its own.
pub fn fragments_stand_apart()
    ensures places { (model : EntityModel) (store : StoreModel) (raw : RawMapping) → HasFewItems raw
        → AreApart (map (λ fragment. fragment.place) (mapping_in model store raw).fragments ++ map (λ fragment. fragment.place) (mapping_in model store raw).links) }
{}
