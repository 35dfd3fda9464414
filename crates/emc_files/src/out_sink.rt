ghost use Rattle.std.specs.Prelude.{◌≡◌, ◌≢◌, None};
ghost use Rattle.emc_base.specs.Faults.{one_more};
ghost use Rattle.emc_files.specs.Sink.{CountsPut, Puts};

use crate::sink::{Sink, SinkFault};
use std::marker::Model;

/// The standard output. It tells nothing of what was written: contracts see it as how often a call failed.
#[derive(Drop)]
pub struct OutSink<R: Print + Drop> {
    rt: R,
    faults: u64,
}

impl<R: Print + Drop> Model for OutSink<R> {
    ghost use Rattle.std.specs.Prelude.{ℕ};

    ghost Value = { ℕ };

    ghost view = { λ s. s.faults };
}

impl<R: Print + Drop> OutSink<R> {
    /// The output of this runtime. No call has failed.
    pub fn new(rt: R) -> OutSink<R>
        ensures { result ≡ 0 }
    {
        OutSink { rt, faults: 0 }
    }
}

impl<R: Print + Drop> Sink for OutSink<R> {
    ghost written_to = { λ _. None };

    ghost fault_count = { λ faults. faults };

    /// Writes piece by piece. A write that takes nothing of a piece that isn't empty is a fault.
    fn put(&mut self, bytes: &[u8]) -> Result<(), SinkFault>
        ensures writes { Puts None None bytes.now result }
        ensures cause { CountsPut self.old self.new result }
        ensures counts { (result ≡ Err SinkFault.Failed) → self.new ≡ one_more self.old }
        ensures never { result ≢ Err SinkFault.Memory }
    {
        let mut at = 0;
        while at < bytes.len() {
            match self.rt.write_some(&bytes[at..]) {
                Ok(0) | Err(_) => {
                    self.faults = self.faults.saturating_add(1);
                    return Err(SinkFault::Failed);
                }
                Ok(count) => at += count,
            }
        }
        Ok(())
    }

    fn faults(&self) -> u64 {
        self.faults
    }
}
