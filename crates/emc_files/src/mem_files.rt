ghost use Rattle.std.specs.Prelude.{◌≡◌, ◌≢◌, ◌≤◌, ◌↔◌, List, ℕ, Contains, IfOk, OnOk, OnErr, Some, length, []};
ghost use Rattle.std.specs.BTreeMap.{get_by_text};
ghost use Rattle.emc_files.specs.Files.{FileMap, Tells, CountsRead, Replaces, CountsReplace, PutsFile, HoldsNothing, any_may_fail};
ghost use Rattle.emc_base.specs.Faults.{one_more};
ghost use Rattle.emc_files.specs.InMemory.{CountsFiles, CountsReplaced};
ghost use Rattle.emc_files.specs.MemFiles.{kept_files};

use crate::files::{Files, ReadFault, ReplaceFault};
use emc_base::{Bin, Memory, Seq, Txt};
use std::alloc::Global;
use std::collections::BTreeMap;

/// Files in memory. The calls that read or replace are counted together from 1, and those of the given numbers fail.
#[derive(Drop)]
pub struct MemFiles {
    map: BTreeMap<String, Bin>,
    failing: Seq<u64>,
    calls: u64,
    faults: u64,
}

impl MemFiles {
    /// No files. The calls of these numbers will fail.
    pub fn new(alloc: Global, failing: Seq<u64>) -> MemFiles
        ensures empty { HoldsNothing (kept_files result).map }
        ensures failing { (kept_files result).failing ≡ failing }
        ensures calls { (kept_files result).calls ≡ 0 }
        ensures faults { (kept_files result).faults ≡ 0 }
    {
        MemFiles {
            map: BTreeMap::new(alloc),
            failing,
            calls: 0,
            faults: 0,
        }
    }

    /// Puts the bytes at the name, in place of what stood there.
    #[tactic(auto, using(std::proofs::lemmas::Map::Text::text_keys))]
    pub fn add(&mut self, name: Txt, bytes: Bin) -> Result<(), Memory>
        ensures ok { OnOk result (PutsFile (kept_files self.old).map (kept_files self.new).map name bytes) }
        ensures err { OnErr result (kept_files self.new ≡ kept_files self.old) }
        ensures failing { (kept_files self.new).failing ≡ (kept_files self.old).failing }
        ensures calls { (kept_files self.new).calls ≡ (kept_files self.old).calls }
        ensures faults { (kept_files self.new).faults ≡ (kept_files self.old).faults }
    {
        let _replaced = self.map.insert(name.into_string(), bytes)?;
        Ok(())
    }

    // Counts a call that fails, and its fault.
    fn count_fault(&mut self, call: u64)
        ensures map { (kept_files self.new).map ≡ (kept_files self.old).map }
        ensures failing { (kept_files self.new).failing ≡ (kept_files self.old).failing }
        ensures calls { (kept_files self.new).calls ≡ call }
        ensures faults { (kept_files self.new).faults ≡ one_more (kept_files self.old).faults }
    {
        self.calls = call;
        self.faults = self.faults.saturating_add(1);
    }
}

impl Files for MemFiles {
    ghost held = { λ f. Some (kept_files f).map };

    ghost fault_count = { λ f. (kept_files f).faults };

    ghost may_fail = { any_may_fail };

    fn read(&mut self, alloc: Global, name: &Txt, limit: u64) -> Result<Bin, ReadFault>
        ensures tells { Tells (Some (kept_files self.old).map) name.now limit result }
        ensures fits { IfOk result (λ bytes. length bytes ≤ limit) }
        ensures same { Some (kept_files self.new).map ≡ Some (kept_files self.old).map }
        ensures cause { CountsRead (kept_files self.old).faults (kept_files self.new).faults result }
        ensures allowed { (result ≡ Err ReadFault.Failed) → any_may_fail name.now }

        // It fails at the calls that were named, and at no other.
        ensures named { (result ≡ Err ReadFault.Failed) ↔ Contains (kept_files self.old).failing (one_more (kept_files self.old).calls) }
        ensures failing { (kept_files self.new).failing ≡ (kept_files self.old).failing }
        ensures counts { CountsFiles (kept_files self.old) (kept_files self.new) result }
    {
        let call = self.calls.saturating_add(1);
        if self.failing.as_slice().contains(&call) {
            self.count_fault(call);
            return Err(ReadFault::Failed);
        }
        let answer = look_up(alloc, &self.map, name.as_str(), limit);
        if !matches!(&answer, Err(ReadFault::Memory)) {
            self.calls = call;
        }
        answer
    }

    fn replace(&mut self, alloc: Global, name: &Txt, bytes: &Bin) -> Result<(), ReplaceFault>
        ensures replaces { Replaces (Some (kept_files self.old).map) (Some (kept_files self.new).map) name.now bytes.now result }
        ensures cause { CountsReplace (kept_files self.old).faults (kept_files self.new).faults result }
        ensures allowed { (result ≡ Err ReplaceFault.Failed) → any_may_fail name.now }

        // It fails at the calls that were named, and at no other.
        ensures named { (result ≡ Err ReplaceFault.Failed) ↔ Contains (kept_files self.old).failing (one_more (kept_files self.old).calls) }
        ensures failing { (kept_files self.new).failing ≡ (kept_files self.old).failing }
        ensures counts { CountsReplaced (kept_files self.old) (kept_files self.new) result }
    {
        let call = self.calls.saturating_add(1);
        if self.failing.as_slice().contains(&call) {
            self.count_fault(call);
            return Err(ReplaceFault::Failed);
        }
        let (Ok(name), Ok(bytes)) = (name.copy(alloc), bytes.copy(alloc)) else {
            return Err(ReplaceFault::Memory);
        };
        match self.add(name, bytes) {
            Ok(()) => {
                self.calls = call;
                Ok(())
            }
            Err(_) => Err(ReplaceFault::Memory),
        }
    }

    fn faults(&self) -> u64 {
        self.faults
    }
}

fn look_up(
    alloc: Global,
    map: &BTreeMap<String, Bin>,
    name: &str,
    limit: u64,
) -> Result<Bin, ReadFault>
    ensures tells { Tells (Some (λ text. get_by_text map.now text)) name.now limit result }
    ensures fits { IfOk result (λ bytes. length bytes ≤ limit) }
    ensures sound { result ≢ Err ReadFault.Failed }
{
    match map.get(name) {
        None => Err(ReadFault::Missing),
        Some(bytes) if bytes.as_slice().len() as u64 > limit => Err(ReadFault::TooLarge),
        Some(bytes) => match bytes.copy(alloc) {
            Ok(bytes) => Ok(bytes),
            Err(_) => Err(ReadFault::Memory),
        },
    }
}
