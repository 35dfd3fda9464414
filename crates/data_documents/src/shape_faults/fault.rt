use emc_base::{Memory, Txt};

/// Why a document isn't read.
#[derive(Drop)]
pub enum ShapeFault {
    /// It has another form than it should; the JSON pointer (RFC 6901) of the first place where that is so.
    Shape(Txt),
    /// Memory ran out.
    Memory,
}

impl From<Memory> for ShapeFault {
    ghost use Rattle.std.specs.Prelude.{◌≡◌};
    ghost use Rattle.data_documents.specs.declared.shape_faults.fault.ShapeFault.TheVariants as fault;

    ghost from_gives = { λ _ given. given ≡ fault.Memory };

    fn from(_memory: Memory) -> ShapeFault {
        ShapeFault::Memory
    }
}
