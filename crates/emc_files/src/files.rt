ghost use Rattle.std.specs.Prelude.{◌≡◌, ◌≤◌, ℕ, List, Option, IfOk, length};
ghost use Rattle.emc_files.specs.Files.{FileMap, Tells, CountsRead, Replaces, CountsReplace};

use emc_base::{Bin, Txt};
use std::alloc::Global;
use thiserror::Error;

/// Why a file was not read.
#[derive(Clone, Copy, Debug, PartialEq, Eq, Error)]
pub enum ReadFault {
    /// No file of the name is there.
    #[error("there is no file of this name")]
    Missing,
    /// The file has more bytes than the limit.
    #[error("the file is larger than allowed")]
    TooLarge,
    /// The file could not be read; the count of faults rose, where it could.
    #[error("the file could not be read")]
    Failed,
    /// Memory ran out; nothing changed.
    #[error("out of memory")]
    Memory,
}

/// Why a file was not replaced.
#[derive(Clone, Copy, Debug, PartialEq, Eq, Error)]
pub enum ReplaceFault {
    /// The file could not be replaced: the old bytes stand at the name, or the new ones. The count of faults rose, where it could.
    #[error("the file could not be replaced")]
    Failed,
    /// Memory ran out; nothing changed.
    #[error("out of memory")]
    Memory,
}

/// Files by name.
pub trait Files {
    /// What the files hold, where it is told: the bytes of each name that is there.
    ghost held: { Self → Option FileMap };

    /// How often a call has failed. It stays at the last value of a `u64` once it is there.
    ghost fault_count: { Self → ℕ };

    /// Whether a call on the file of this name may answer `Failed` at all. It is the same over all calls.
    ghost may_fail: { List ℕ → Type 0 };

    /// All bytes of a file, of which there may be at most `limit`. `Missing` comes exactly where no file has the name, `TooLarge`
    /// exactly where it has more bytes than that, and `Failed` only where the count of faults rose in the call or stands at its last
    /// value, and only for a name whose calls may fail. No read changes the files.
    fn read(&mut self, alloc: Global, name: &Txt, limit: u64) -> Result<Bin, ReadFault>
        ensures tells { Tells (held self.old) name.now limit result }
        ensures fits { IfOk result (λ bytes. length bytes ≤ limit) }
        ensures same { held self.new ≡ held self.old }
        ensures cause { CountsRead (fault_count self.old) (fault_count self.new) result }
        ensures allowed { (result ≡ Err ReadFault.Failed) → may_fail name.now };

    /// Puts the bytes at the name, in place of what stood there, or where no file stood. After `Failed` the files are as before, or
    /// the bytes stand at the name; after `Memory` they are as before. `Failed` comes only where the count of faults rose in the call
    /// or stands at its last value, and only for a name whose calls may fail.
    fn replace(&mut self, alloc: Global, name: &Txt, bytes: &Bin) -> Result<(), ReplaceFault>
        ensures replaces { Replaces (held self.old) (held self.new) name.now bytes.now result }
        ensures cause { CountsReplace (fault_count self.old) (fault_count self.new) result }
        ensures allowed { (result ≡ Err ReplaceFault.Failed) → may_fail name.now };

    /// How often a call has failed.
    fn faults(&self) -> u64
        ensures { result ≡ fault_count self.now };
}
