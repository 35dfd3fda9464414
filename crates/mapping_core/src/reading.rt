ghost use Rattle.std.specs.Prelude.{◌≡◌, ℕ, List};
ghost use Rattle.edm_types.specs.declared.faults.VocabFile.TheVariants.{Csdl, Ssdl, Msl};
ghost use Rattle.csdl_model.specs.ModelFaults.{IsModelFault};
ghost use Rattle.csdl_model.specs.ReadsModel.{IsModelOf};
ghost use Rattle.msl_fragments.specs.ReadsMapping.{IsMappingOf};
ghost use Rattle.msl_rules.specs.MappingFaults.{IsMappingFault};
ghost use Rattle.round_trip.specs.soundness.models.Models.{IsSoundModel};
ghost use Rattle.round_trip.specs.soundness.Stores.{IsSoundStore};
ghost use Rattle.ssdl_model.specs.ReadsStore.{IsStoreOf};
ghost use Rattle.ssdl_model.specs.StoreFaults.{IsStoreFault};
ghost use Rattle.mapping_core.specs.Compiles.{ReadsSchema};
ghost use Rattle.mapping_core.specs.Reading.{ReadsFile, ReadsTree};
ghost use Rattle.mapping_core.specs.Rules.{IsToldRule};

use csdl_model::read_csdl;
use edm_types::{EntityModel, Mapping, RuleFault, Schema, StoreModel, VocabFault, VocabFile};
use emc_base::Bin;
use json_form::{Doc, DocFault};
use layouts::{Fault, Rule, told};
use msl_fragments::read_msl;
use ssdl_model::read_ssdl;
use std::alloc::Global;

/// The law that no two different rules are told of three documents.
pub fn one_rule()
    ensures { (csdl ssdl msl : List ℕ) (one two : RuleFault) → IsToldRule csdl ssdl msl one → IsToldRule csdl ssdl msl two → one ≡ two }
{}

/// Reads the three documents of a mapping: `Ok` with what they mean together where they break no rule, else `Rule` with the broken rule
/// that is told: that of the first document that breaks one, the least of that document, at its first place. `Memory` comes where
/// memory ran out.
pub fn read(alloc: Global, csdl: &Bin, ssdl: &Bin, msl: &Bin) -> Result<Schema, VocabFault>
    ensures { ReadsSchema csdl.now ssdl.now msl.now result }
{
    let model = read_model(alloc, csdl)?;
    let store = read_store(alloc, ssdl)?;
    match read_mapping(alloc, msl, &model, &store) {
        Ok(mapping) => Ok(Schema {
            model,
            store,
            mapping,
        }),
        Err(fault) => Err(fault),
    }
}

// The entity model that a file means. Its tree is let go.
fn read_model(alloc: Global, csdl: &Bin) -> Result<EntityModel, VocabFault>
    ensures { ReadsFile Csdl IsModelFault IsModelOf csdl.now result }
{
    let doc = read_tree(alloc, VocabFile::Csdl, csdl)?;
    read_csdl(alloc, &doc)
}

// The store that a file means. Its tree is let go.
fn read_store(alloc: Global, ssdl: &Bin) -> Result<StoreModel, VocabFault>
    ensures { ReadsFile Ssdl IsStoreFault IsStoreOf ssdl.now result }
{
    let doc = read_tree(alloc, VocabFile::Ssdl, ssdl)?;
    read_ssdl(alloc, &doc)
}

// The mapping that a file means between a model and a store. Its tree is let go.
fn read_mapping(
    alloc: Global,
    msl: &Bin,
    model: &EntityModel,
    store: &StoreModel,
) -> Result<Mapping, VocabFault>
    requires model { IsSoundModel model.now }
    requires store { IsSoundStore store.now }
    ensures { ReadsFile Msl (IsMappingFault model.now store.now) (IsMappingOf model.now store.now) msl.now result }
{
    let doc = read_tree(alloc, VocabFile::Msl, msl)?;
    read_msl(alloc, &doc, model, store)
}

// The document that a file holds; or that it holds none.
fn read_tree(alloc: Global, file: VocabFile, bytes: &Bin) -> Result<Doc, VocabFault>
    ensures { ReadsTree file bytes.now result }
{
    match Doc::of_bytes(alloc, bytes) {
        Ok(doc) => Ok(doc),
        Err(DocFault::NotJson) => Err(told(alloc, file, Fault::here(alloc, Rule::IsJson))),
        Err(DocFault::Memory) => Err(VocabFault::Memory),
    }
}
