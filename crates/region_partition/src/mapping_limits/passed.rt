ghost use Rattle.std.specs.Prelude.{◌≡◌, IfOk};
ghost use Rattle.region_partition.specs.mapping_limits.Checked.{TellsFirst, fault_of};
ghost use Rattle.region_partition.specs.mapping_limits.FirstLimit.{passed};

use edm_types::{LimitFault, LimitKind};
use emc_base::{Memory, Txt};
use std::alloc::Global;

// A limit that is passed, with the name of the type, table, property or set where it is; the name is empty where it is in no such place.
#[derive(Drop)]
pub(super) struct Passed<'n> {
    what: LimitKind,
    name: &'n str,
    counted: u64,
    allowed: u64,
}

impl Passed<'_> {
    // The same, with a copy of the name.
    pub(super) fn told(&self, alloc: Global) -> Result<LimitFault, Memory>
        ensures { IfOk result (λ fault. fault ≡ fault_of self.now) }
    {
        Ok(LimitFault {
            what: self.what,
            name: Txt::of(alloc, self.name)?,
            counted: self.counted,
            allowed: self.allowed,
        })
    }
}

// Looks at one limit: an error where more are counted than are allowed.
pub(super) fn at_most(
    what: LimitKind,
    name: &str,
    counted: u64,
    allowed: u64,
) -> Result<(), Passed<'_>>
    ensures { TellsFirst (passed what name.now counted allowed) result }
{
    if counted > allowed {
        return Err(Passed {
            what,
            name,
            counted,
            allowed,
        });
    }
    Ok(())
}
