ghost use Rattle.std.specs.Prelude.{◌≡◌, ◌<◌, All, IfOk, length};

use crate::memory::Memory;
use std::alloc::Global;
use std::marker::Model;

/// A list of bytes, which contracts see as the list of these numbers, each from 0 to 255.
#[derive(Clone, Debug, Drop)]
pub struct Bin {
    bytes: Vec<u8>,
}

impl Model for Bin {
    ghost use Rattle.std.specs.Prelude.{List, ℕ};
    ghost use Rattle.std.specs.Coded.{coded_list, coded_ℕ};

    ghost Value = { List ℕ };

    ghost coded = { coded_list coded_ℕ };

    ghost view = { λ b. b.bytes.items };
}

impl Bin {
    /// A copy of the bytes. `Memory` comes where there is none for it.
    pub fn of(alloc: Global, s: &[u8]) -> Result<Bin, Memory>
        ensures { IfOk result (λ bytes. bytes ≡ s.now) }
    {
        let bytes = Vec::from_slice(alloc, s)?;
        Ok(Bin { bytes })
    }

    /// The bytes of a vector, which are moved and not copied.
    pub fn from_vec(bytes: Vec<u8>) -> Bin
        ensures { result ≡ bytes.items }
    {
        Bin { bytes }
    }

    /// Lends the bytes.
    pub fn as_slice(&self) -> &[u8]
        ensures bytes { result.now ≡ self.now }
        ensures small { All (λ b. b < 256) self.now }
    {
        as_bytes(self.bytes.as_slice())
    }

    /// An equal list. `Memory` comes where there is none for it.
    pub fn copy(&self, alloc: Global) -> Result<Bin, Memory>
        ensures { IfOk result (λ bytes. bytes ≡ self.now) }
    {
        Bin::of(alloc, self.as_slice())
    }
}

// A slice's items are bytes.
fn as_bytes(bytes: &[u8]) -> &[u8]
    ensures same { result.now ≡ bytes.now }
    ensures small { All (λ b. b < 256) bytes.now }
{
    bytes
}
