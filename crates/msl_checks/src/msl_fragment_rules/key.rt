ghost use Rattle.std.specs.Prelude.{◌≡◌, ◌↔◌, IfOk, IsTrue, option_map, slice_get};
ghost use Rattle.std.specs.Option.{option_and_then};
ghost use Rattle.edm_types.specs.Entities.{type_at};
ghost use Rattle.round_trip.specs.soundness.Lookups.{set_key};
ghost use Rattle.msl_rules.specs.Found.{set_numbered};
ghost use Rattle.msl_checks.specs.msl_written.Within.{named_in, schema_in};
ghost use Rattle.msl_checks.specs.msl_fragment_rules.FragmentFaults.{LeavesKey};

use crate::msl_written::MeantPairs;
use edm_types::{EntityModel, EntityType};
use emc_base::{Memory, PropId};
use std::alloc::Global;
use table_owners::matches;

/// The key of the entities of the set at a place; empty where there is no such set.
pub fn set_key(model: &EntityModel, set: usize) -> &[PropId]
    ensures { result.now ≡ set_key model.now (set_numbered set) }
{
    match element_of(model, set) {
        Some(ty) => ty.key.as_slice(),
        None => &[],
    }
}

// The element type of the set at a place.
fn element_of(model: &EntityModel, set: usize) -> Option<&EntityType>
    ensures { option_map (λ ty. ty.now) result ≡ option_and_then (λ entry. type_at model.now entry.element) (slice_get model.now.sets set) }
{
    let entry = model.sets.get(set)?;
    model.types.get(entry.element.index as usize)
}

/// Whether no pairs match the key of the set at a place with the primary key of the table (V30). `Memory` comes where memory ran out.
pub fn leaves_key(alloc: Global, pairs: &MeantPairs<'_>, set: usize) -> Result<bool, Memory>
    ensures { IfOk result (λ yes. IsTrue yes ↔ LeavesKey (schema_in pairs.now.writing.now.between) (named_in pairs.now.writing.now) set pairs.now.writing.now.table pairs.now.pairs.now) }
{
    let writing = pairs.writing;
    let key = set_key(writing.between.names.model, set);
    let found = pairs.found(alloc)?;
    let is_matched = matches(alloc, key, writing.key_columns(), found.as_slice())?;
    Ok(!is_matched)
}
