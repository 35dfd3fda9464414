ghost use Rattle.std.specs.Prelude.{◌≡◌, IfOk};
ghost use Rattle.json_form.specs.Documents.{tree_of};
ghost use Rattle.groupings.specs.least_fault.Least.{IsLeast};
ghost use Rattle.layouts.specs.Faults.{fault_cmp};
ghost use Rattle.round_trip.specs.soundness.models.Models.{IsSoundModel};
ghost use Rattle.round_trip.specs.soundness.Stores.{IsSoundStore};
ghost use Rattle.layouts.specs.told_rules.Reads.{Reads};
ghost use Rattle.msl_rules.specs.msl_lists.Raw.{raw_mapping};
ghost use Rattle.msl_rules.specs.KeepsMapping.{HasFewItems};
ghost use Rattle.msl_rules.specs.MappingFaults.{BreaksMappingRules, IsFaultAfterNames, IsMappingFault, IsMappingListFault};
ghost use Rattle.msl_rules.specs.MappingMeaning.{mapping_in};
ghost use Rattle.msl_fragments.specs.ReadsMapping.{ReadsMapping};
ghost use Rattle.msl_fragments.specs.Steps.{IsFaultAfterContainers, IsFaultAfterTwice};

use crate::msl_owners::first_owner_fault;
use crate::msl_sound::a_mapping_that_breaks_no_rule_is_sound;
use edm_types::{EntityModel, Mapping, StoreModel, VocabFault, VocabFile};
use emc_base::Memory;
use groupings::earlier;
use json_form::{Doc, FromNode};
use layouts::{Fault, Form, Shape, Stop, first_fault, told};
use msl_checks::{Barred, Between, first_fragment_fault, first_link_fault};
use msl_meaning::{
    allow_climbs, first_mapped_twice, first_other_container, first_type_name_fault,
    first_unresolved_name, make_mapping,
};
use msl_rules::RawMapping;
use schema_names::SchemaNames;
use std::alloc::Global;

/// Reads an MSL document between a sound model and a sound store: `Ok` with the mapping that it means, which is sound with both, where it breaks
/// no rule; else `Rule` with the least rule that it breaks, at its first place. `Memory` comes where memory ran out, and where names are looked up
/// in so many types that it may take very many steps.
pub fn read_msl(
    alloc: Global,
    doc: &Doc,
    model: &EntityModel,
    store: &StoreModel,
) -> Result<Mapping, VocabFault>
    requires model { IsSoundModel model.now }
    requires store { IsSoundStore store.now }
    ensures { ReadsMapping model.now store.now (tree_of doc.now) result }
{
    a_mapping_that_breaks_no_rule_is_sound();
    match read_document(alloc, doc, model, store) {
        Ok(mapping) => Ok(mapping),
        Err(Stop::Fault(fault)) => Err(told(alloc, VocabFile::Msl, fault)),
        Err(Stop::Memory) => Err(VocabFault::Memory),
    }
}

// Its layout first, whose rules have the least numbers.
fn read_document(
    alloc: Global,
    doc: &Doc,
    model: &EntityModel,
    store: &StoreModel,
) -> Result<Mapping, Stop>
    requires { IsSoundModel model.now }
    ensures reads { Reads (IsMappingFault model.now store.now (tree_of doc.now)) (mapping_in model.now store.now (raw_mapping (tree_of doc.now))) result }
    ensures few { IfOk result (λ _. HasFewItems (raw_mapping (tree_of doc.now))) }
{
    match first_fault(alloc, Form::Object(Shape::Mapping), doc.root())? {
        Some(fault) => Err(Stop::Fault(fault)),
        None => {
            let raw = RawMapping::read(alloc, doc.root())?;
            read_lists(alloc, &raw, model, store)
        }
    }
}

// The rules on what is written, by what the names stand for.
fn read_lists(
    alloc: Global,
    raw: &RawMapping,
    model: &EntityModel,
    store: &StoreModel,
) -> Result<Mapping, Stop>
    requires { IsSoundModel model.now }
    ensures reads { Reads (IsMappingListFault model.now store.now raw.now) (mapping_in model.now store.now raw.now) result }
    ensures few { IfOk result (λ _. HasFewItems raw.now) }
{
    let names = SchemaNames::of(alloc, model, store)?;
    let read = read_counted(alloc, &names, raw);
    drop(names);
    read
}

// On how many properties would be looked for, and then the others.
fn read_counted(alloc: Global, names: &SchemaNames<'_>, raw: &RawMapping) -> Result<Mapping, Stop>
    requires { IsSoundModel names.now.model.now }
    ensures reads { Reads (IsMappingListFault names.now.model.now names.now.store.now raw.now) (mapping_in names.now.model.now names.now.store.now raw.now) result }
    ensures few { IfOk result (λ _. HasFewItems raw.now) }
{
    allow_climbs(names, raw)?;
    read_names(alloc, names, raw)
}

// On what is mapped twice, and then the others.
fn read_names(alloc: Global, names: &SchemaNames<'_>, raw: &RawMapping) -> Result<Mapping, Stop>
    requires { IsSoundModel names.now.model.now }
    ensures { Reads (IsMappingListFault names.now.model.now names.now.store.now raw.now) (mapping_in names.now.model.now names.now.store.now raw.now) result }
{
    match first_mapped_twice(alloc, raw)? {
        Some(fault) => Err(Stop::Fault(fault)),
        None => read_references(alloc, names, raw),
    }
}

// On names that stand for nothing, and then the others.
fn read_references(
    alloc: Global,
    names: &SchemaNames<'_>,
    raw: &RawMapping,
) -> Result<Mapping, Stop>
    requires { IsSoundModel names.now.model.now }
    ensures { Reads (IsFaultAfterTwice names.now.model.now names.now.store.now raw.now) (mapping_in names.now.model.now names.now.store.now raw.now) result }
{
    match first_unresolved_name(alloc, names, raw)? {
        Some(fault) => Err(Stop::Fault(fault)),
        None => read_containers(alloc, names, raw),
    }
}

// On the names of containers, and then the others.
fn read_containers(
    alloc: Global,
    names: &SchemaNames<'_>,
    raw: &RawMapping,
) -> Result<Mapping, Stop>
    requires { IsSoundModel names.now.model.now }
    ensures { Reads (IsFaultAfterNames names.now.model.now names.now.store.now raw.now) (mapping_in names.now.model.now names.now.store.now raw.now) result }
{
    match first_other_container(alloc, names.model, names.store, raw)? {
        Some(fault) => Err(Stop::Fault(fault)),
        None => read_picks(alloc, names, raw),
    }
}

// On the types in TypeNames and the properties that they share, and then the others.
fn read_picks(alloc: Global, names: &SchemaNames<'_>, raw: &RawMapping) -> Result<Mapping, Stop>
    requires { IsSoundModel names.now.model.now }
    ensures { Reads (IsFaultAfterContainers names.now.model.now names.now.store.now raw.now) (mapping_in names.now.model.now names.now.store.now raw.now) result }
{
    match first_type_name_fault(alloc, names, raw)? {
        Some(fault) => Err(Stop::Fault(fault)),
        None => read_writing(alloc, names, raw),
    }
}

// On what is written; and then the mapping.
fn read_writing(alloc: Global, names: &SchemaNames<'_>, raw: &RawMapping) -> Result<Mapping, Stop>
    requires { IsSoundModel names.now.model.now }
    ensures { Reads (BreaksMappingRules names.now.model.now names.now.store.now raw.now) (mapping_in names.now.model.now names.now.store.now raw.now) result }
{
    let mapping = make_mapping(alloc, names, raw)?;
    match first_in_writing(alloc, names, &mapping, raw)? {
        Some(fault) => Err(Stop::Fault(fault)),
        None => Ok(mapping),
    }
}

// The least of what is wrong with what is written, by the mapping that is meant.
fn first_in_writing(
    alloc: Global,
    names: &SchemaNames<'_>,
    mapping: &Mapping,
    raw: &RawMapping,
) -> Result<Option<Fault>, Memory>
    requires sound { IsSoundModel names.now.model.now }
    requires meant { mapping.now ≡ mapping_in names.now.model.now names.now.store.now raw.now }
    ensures { IfOk result (λ found. IsLeast fault_cmp (BreaksMappingRules names.now.model.now names.now.store.now raw.now) found) }
{
    let barred = Barred::of(alloc, names.model, names.store, mapping)?;
    let between = Between {
        names,
        mapping,
        barred: &barred,
    };
    let found = first_writing_fault(alloc, &between, raw);
    drop(barred);
    found
}

// The same, by what is barred too.
fn first_writing_fault(
    alloc: Global,
    between: &Between<'_>,
    raw: &RawMapping,
) -> Result<Option<Fault>, Memory>
    requires { between.now.mapping.now ≡ mapping_in between.now.names.now.model.now between.now.names.now.store.now raw.now }
    ensures { IfOk result (λ found. IsLeast fault_cmp (BreaksMappingRules between.now.names.now.model.now between.now.names.now.store.now raw.now) found) }
{
    let fragments = first_fragment_fault(alloc, between, raw)?;
    let links = first_link_fault(alloc, between, raw)?;
    let owners = first_owner_fault(alloc, between.names, raw)?;
    Ok(earlier(fragments, earlier(links, owners)))
}
