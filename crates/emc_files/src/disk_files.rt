ghost use Rattle.std.specs.Prelude.{◌≡◌, ◌≢◌, ◌≤◌, ◌↔◌, ◌++◌, IfOk, codes, length};
ghost use Rattle.emc_base.specs.Faults.{one_more};
ghost use Rattle.emc_files.specs.Files.{CountsRead, CountsReplace, Replaces, Tells, any_may_fail, untold};

use crate::files::{Files, ReadFault, ReplaceFault};
use emc_base::{Bin, Memory, Txt};
use std::alloc::Global;
use std::io;
use std::io::{ErrorKind, Read};
use std::marker::Model;

/// The files of the disk, by their paths. It tells nothing of what they hold: contracts see it as how often a call failed.
#[derive(Drop)]
pub struct DiskFiles<R: std::rt::Files + Drop> {
    rt: R,
    faults: u64,
}

impl<R: std::rt::Files + Drop> Model for DiskFiles<R> {
    ghost use Rattle.std.specs.Prelude.{ℕ};

    ghost Value = { ℕ };

    ghost view = { λ f. f.faults };
}

impl<R: std::rt::Files + Drop> DiskFiles<R> {
    /// The files that this runtime reaches. No call has failed.
    pub fn new(rt: R) -> DiskFiles<R>
        ensures { result ≡ 0 }
    {
        DiskFiles { rt, faults: 0 }
    }
}

impl<R: std::rt::Files + Drop> Files for DiskFiles<R> {
    ghost held = { λ _. untold };

    ghost fault_count = { λ faults. faults };

    ghost may_fail = { any_may_fail };

    /// Reads at most `limit` and one byte. What the path names is read anew at each call.
    fn read(&mut self, alloc: Global, name: &Txt, limit: u64) -> Result<Bin, ReadFault>
        ensures tells { Tells untold name.now limit result }
        ensures fits { IfOk result (λ bytes. length bytes ≤ limit) }
        ensures same { untold ≡ untold }
        ensures cause { CountsRead self.old self.new result }
        ensures allowed { (result ≡ Err ReadFault.Failed) → any_may_fail name.now }
        ensures counts { (result ≡ Err ReadFault.Failed) → self.new ≡ one_more self.old }
    {
        let bytes = match read_at_most(alloc, &self.rt, name.as_str(), limit.saturating_add(1)) {
            Ok(bytes) => bytes,
            Err(error) => {
                let fault = fault_of(error.kind());
                if fault == ReadFault::Failed {
                    self.faults = self.faults.saturating_add(1);
                }
                return Err(fault);
            }
        };
        if bytes.len() as u64 > limit {
            return Err(ReadFault::TooLarge);
        }
        Ok(Bin::from_vec(bytes))
    }

    /// Writes a neighbour of the file, whose path is the name with `.new` added, and renames it over the name. Where one of the two
    /// fails, the neighbour is removed, as far as that goes.
    fn replace(&mut self, alloc: Global, name: &Txt, bytes: &Bin) -> Result<(), ReplaceFault>
        ensures replaces { Replaces untold untold name.now bytes.now result }
        ensures cause { CountsReplace self.old self.new result }
        ensures allowed { (result ≡ Err ReplaceFault.Failed) → any_may_fail name.now }
        ensures counts { (result ≡ Err ReplaceFault.Failed) → self.new ≡ one_more self.old }
    {
        let Ok(neighbour) = neighbour_of(alloc, name) else {
            return Err(ReplaceFault::Memory);
        };
        let Err(error) = write_through(&self.rt, &neighbour, name, bytes) else {
            return Ok(());
        };
        let _answer = std::fs::remove_file(&self.rt, neighbour.as_str());
        let fault = replace_fault_of(error.kind());
        if fault == ReplaceFault::Failed {
            self.faults = self.faults.saturating_add(1);
        }
        Err(fault)
    }

    fn faults(&self) -> u64 {
        self.faults
    }
}

// Where the new bytes of a file are written first.
fn neighbour_of(alloc: Global, name: &Txt) -> Result<Txt, Memory>
    ensures { IfOk result (λ path. path ≡ name.now ++ codes ".new") }
{
    let mut path = String::from_str(alloc, name.as_str())?;
    path.push_str(".new")?;
    Ok(Txt::from_string(path))
}

// Writes the bytes to the neighbour, and renames it over the name.
fn write_through<R: std::rt::Files>(
    rt: &R,
    neighbour: &Txt,
    name: &Txt,
    bytes: &Bin,
) -> io::Result<()> {
    std::fs::write(rt, neighbour.as_str(), bytes.as_slice())?;
    std::fs::rename(rt, neighbour.as_str(), name.as_str())
}

// The first bytes of a file, at most `most` of them.
fn read_at_most<R: std::rt::Files>(
    alloc: Global,
    rt: &R,
    path: &str,
    most: u64,
) -> io::Result<Vec<u8>>
    ensures { IfOk result (λ bytes. length bytes.items ≤ most) }
{
    let mut file = std::fs::open(rt, path)?.take(most);
    let mut bytes = Vec::new(alloc);
    let mut piece = [0; 8_192];
    for _ in 0..u64::MAX {
        match file.read(&mut piece) {
            Ok(0) => return Ok(bytes),
            Ok(count) => bytes.extend_from_slice(&piece[..count])?,
            Err(error) if error.kind() == ErrorKind::Interrupted => {}
            Err(error) => return Err(error),
        }
    }
    // After so many interrupted reads the file counts as one that could not be read.
    Err(io::Error::from(ErrorKind::TimedOut))
}

// What an error of a replace is told as.
fn replace_fault_of(kind: ErrorKind) -> ReplaceFault
    ensures { (result ≡ ReplaceFault.Memory) ↔ (kind ≡ ErrorKind.OutOfMemory) }
{
    match kind {
        ErrorKind::OutOfMemory => ReplaceFault::Memory,
        _ => ReplaceFault::Failed,
    }
}

// What an error of a read is told as.
fn fault_of(kind: ErrorKind) -> ReadFault
    ensures missing { (result ≡ ReadFault.Missing) ↔ (kind ≡ ErrorKind.NotFound) }
    ensures memory { (result ≡ ReadFault.Memory) ↔ (kind ≡ ErrorKind.OutOfMemory) }
    ensures no_size { result ≢ ReadFault.TooLarge }
{
    match kind {
        ErrorKind::NotFound => ReadFault::Missing,
        ErrorKind::OutOfMemory => ReadFault::Memory,
        _ => ReadFault::Failed,
    }
}
