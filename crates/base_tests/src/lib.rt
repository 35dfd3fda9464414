//! Tests of the lowest crates: chains of bases, files and outputs.
#![tactic(auto)]

#[cfg(test)]
mod chains;
#[cfg(test)]
mod disks;
#[cfg(test)]
mod fake_runtime;
#[cfg(test)]
mod memory;
#[cfg(test)]
mod outputs;
