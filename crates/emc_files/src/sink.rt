ghost use Rattle.std.specs.Prelude.{◌≡◌, ℕ, List, Option};
ghost use Rattle.emc_files.specs.Sink.{Puts, CountsPut};

use thiserror::Error;

/// Why bytes were not written whole.
#[derive(Clone, Copy, Debug, PartialEq, Eq, Error)]
pub enum SinkFault {
    /// Some of the first bytes were written, or all; the count of faults rose, where it could.
    #[error("the output could not be written")]
    Failed,
    /// Memory ran out; nothing was written.
    #[error("out of memory")]
    Memory,
}

/// Where the output goes.
pub trait Sink {
    /// What has been written, where it is told.
    ghost written_to: { Self → Option (List ℕ) };

    /// How often a call has failed. It stays at the last value of a `u64` once it is there.
    ghost fault_count: { Self → ℕ };

    /// Writes the bytes. After `Failed` some of the first of them are written; after `Memory` none. `Failed` comes only where the
    /// count of faults rose in the call or stands at its last value.
    fn put(&mut self, bytes: &[u8]) -> Result<(), SinkFault>
        ensures writes { Puts (written_to self.old) (written_to self.new) bytes.now result }
        ensures cause { CountsPut (fault_count self.old) (fault_count self.new) result };

    /// How often a call has failed.
    fn faults(&self) -> u64
        ensures { result ≡ fault_count self.now };
}
