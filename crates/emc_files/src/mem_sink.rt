ghost use Rattle.std.specs.Prelude.{◌≡◌, ◌≢◌, ◌++◌, [], ℕ, List, take, Some, MatchOption, IsErr};
ghost use Rattle.emc_files.specs.Sink.{Puts, CountsPut};
ghost use Rattle.emc_base.specs.Faults.{one_more};
ghost use Rattle.emc_files.specs.InMemory.{CountsSink, taken_at, KeptSink};

use crate::sink::{Sink, SinkFault};
use emc_base::Seq;
use std::alloc::Global;
use std::marker::Model;

/// A sink in memory. Its calls are counted from 1. A call whose number is given fails, after it took the given number
/// of bytes, or all where there are fewer.
#[derive(Drop)]
pub struct MemSink {
    bytes: Vec<u8>,
    failing: Seq<(u64, u64)>,
    calls: u64,
    faults: u64,
}

impl Model for MemSink {
    ghost use Rattle.std.specs.Prelude.{List, ℕ};
    ghost use Rattle.emc_files.specs.InMemory.{KeptSink};

    ghost Value = { KeptSink };

    ghost view = { λ s. record { written = s.bytes.items; failing = s.failing; calls = s.calls; faults = s.faults } };
}

impl MemSink {
    /// An empty sink. The calls of these numbers will fail, each after so many bytes.
    pub fn new(alloc: Global, failing: Seq<(u64, u64)>) -> MemSink
        ensures written { result.written ≡ [] }
        ensures failing { result.failing ≡ failing }
        ensures calls { result.calls ≡ 0 }
        ensures faults { result.faults ≡ 0 }
    {
        MemSink {
            bytes: Vec::new(alloc),
            failing,
            calls: 0,
            faults: 0,
        }
    }

    /// All bytes that were written.
    pub fn written(&self) -> &[u8]
        ensures { result.now ≡ self.now.written }
    {
        self.bytes.as_slice()
    }
}

impl Sink for MemSink {
    ghost written_to = { λ s. Some s.written };

    ghost fault_count = { λ s. s.faults };

    fn put(&mut self, bytes: &[u8]) -> Result<(), SinkFault>
        ensures writes { Puts (Some self.old.written) (Some self.new.written) bytes.now result }
        ensures cause { CountsPut self.old.faults self.new.faults result }

        // It fails at the calls that were named, after so many bytes, and at no other.
        ensures named { MatchOption (taken_at self.old.failing (one_more self.old.calls))
            (result ≢ Err SinkFault.Failed)
            (λ count. (IsErr result) × ((result ≡ Err SinkFault.Failed) → self.new.written ≡ self.old.written ++ take count bytes.now)) }
        ensures failing { self.new.failing ≡ self.old.failing }
        ensures counts { CountsSink self.old self.new result }
    {
        let call = self.calls.saturating_add(1);
        let failing_after = taken_by(self.failing.as_slice(), call);
        let count = match failing_after {
            Some(count) => bytes.len().min(count as usize),
            None => bytes.len(),
        };
        if self.bytes.extend_from_slice(&bytes[..count]).is_err() {
            return Err(SinkFault::Memory);
        }
        self.calls = call;
        if failing_after.is_none() {
            return Ok(());
        }
        self.faults = self.faults.saturating_add(1);
        Err(SinkFault::Failed)
    }

    fn faults(&self) -> u64 {
        self.faults
    }
}

// How many bytes a call that fails still takes.
fn taken_by(failing: &[(u64, u64)], call: u64) -> Option<u64>
    ensures { result ≡ taken_at failing.now call }
{
    failing
        .iter()
        .find(|entry| entry.0 == call)
        .map(|entry| entry.1)
}
