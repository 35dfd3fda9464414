//! Tests of a whole run over files and an output in memory.
#![tactic(auto)]

#[cfg(test)]
mod faults;
