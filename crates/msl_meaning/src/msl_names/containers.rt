ghost use Rattle.std.specs.Prelude.{◌≢◌, ◌⊎◌, ◌∷◌, [], codes, IfOk};
ghost use Rattle.json_form.specs.declared.pointer.Step.TheVariants.{Member};
ghost use Rattle.groupings.specs.least_fault.Least.{IsLeast};
ghost use Rattle.layouts.specs.declared.rule.Rule.TheVariants.{ContainerName};
ghost use Rattle.layouts.specs.Faults.{fault_cmp};
ghost use Rattle.layouts.specs.rule_places.Places.{IsAt};
ghost use Rattle.msl_rules.specs.NameRules.{HasOtherContainer};

use edm_types::{EntityModel, StoreModel};
use emc_base::{Memory, Txt};
use groupings::earlier;
use layouts::{Fault, Rule, behind_member, fault_if};
use msl_rules::RawMapping;
use std::alloc::Global;

/// The least of the containers that have another name than their documents give them. `Memory` comes where memory ran out.
pub fn first_other_container(
    alloc: Global,
    model: &EntityModel,
    store: &StoreModel,
    raw: &RawMapping,
) -> Result<Option<Fault>, Memory>
    ensures { IfOk result (λ found. IsLeast fault_cmp (HasOtherContainer model.now store.now raw.now) found) }
{
    let of_store = first_of_other(
        alloc,
        &raw.store_container,
        &store.container,
        "StorageEntityContainer",
    )?;
    let of_model = first_of_other(
        alloc,
        &raw.model_container,
        &model.container,
        "CdmEntityContainer",
    )?;
    let found = behind_member(alloc, "EntityContainerMapping", earlier(of_store, of_model))?;
    Ok(found)
}

// The name at this member is another than the container has.
fn first_of_other(
    alloc: Global,
    name: &Txt,
    container: &Txt,
    member: &str,
) -> Result<Option<Fault>, Memory>
    ensures { IfOk result (λ found. IsLeast fault_cmp (λ fault. (name.now ≢ container.now) × IsAt ContainerName (Member member.now ∷ []) fault) found) }
{
    let is_other = name.as_str() != container.as_str();
    let found = fault_if(alloc, is_other, Rule::ContainerName, member)?;
    Ok(found)
}
