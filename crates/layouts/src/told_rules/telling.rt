ghost use Rattle.layouts.specs.told_rules.Told.{IsToldOrMemory, told_as};

use crate::Fault;
use edm_types::{RuleFault, VocabFault, VocabFile};
use emc_base::Memory;
use json_form::pointer_of;
use std::alloc::Global;

/// The fault of a file as it is told. `Memory` comes where memory ran out.
pub fn told(alloc: Global, file: VocabFile, fault: Fault) -> VocabFault
    ensures { IsToldOrMemory (told_as file fault) result }
{
    let rule = fault.rule.number();
    match pointer_of(alloc, fault.place.as_slice()) {
        Ok(place) => VocabFault::Rule(RuleFault { file, rule, place }),
        Err(Memory) => VocabFault::Memory,
    }
}
