use crate::Fault;
use emc_base::Memory;

/// Why a document is not read.
#[derive(Drop)]
pub enum Stop {
    /// The least rule that it breaks, at its first place.
    Fault(Fault),
    /// Memory ran out.
    Memory,
}

impl From<Memory> for Stop {
    ghost use Rattle.std.specs.Prelude.{◌≡◌};
    ghost use Rattle.layouts.specs.declared.told_rules.stop.Stop.TheVariants as stop;

    ghost from_gives = { λ _ given. given ≡ stop.Memory };

    fn from(_memory: Memory) -> Stop {
        Stop::Memory
    }
}
