use data_documents::ShapeFault;
use edm_types::VocabFault;
use emc_base::Memory;

/// Why a data document isn't judged.
#[derive(Drop)]
pub enum Refusal {
    /// The document by which it is judged breaks a rule.
    Vocabulary(VocabFault),
    /// It has another shape.
    Shape(ShapeFault),
    /// Memory ran out.
    Memory,
}

impl From<VocabFault> for Refusal {
    ghost use Rattle.std.specs.Prelude.{◌≡◌};
    ghost use Rattle.probe.specs.declared.data.refusal.Refusal.TheVariants as refusal;

    ghost from_gives = { λ fault given. given ≡ refusal.Vocabulary fault };

    fn from(fault: VocabFault) -> Refusal {
        Refusal::Vocabulary(fault)
    }
}

impl From<Memory> for Refusal {
    ghost use Rattle.std.specs.Prelude.{◌≡◌};
    ghost use Rattle.probe.specs.declared.data.refusal.Refusal.TheVariants as refusal;

    ghost from_gives = { λ _ given. given ≡ refusal.Memory };

    fn from(_memory: Memory) -> Refusal {
        Refusal::Memory
    }
}
