//! The command line of the mapping compiler.
#![tactic(auto)]

use emc_files::{DiskFiles, OutSink};
use mapping_run::run_arguments;
use std::env;
use std::process::ExitCode;
use std::rt::HostRuntime;

// Runs the arguments of this process on the disk's files and the standard output.
fn main(rt: HostRuntime) -> ExitCode {
    let mut files = DiskFiles::new(&rt);
    let mut out = OutSink::new(&rt);
    let status = run_arguments(rt.alloc(), env::args(&rt), &mut files, &mut out);
    ExitCode::from(status.number())
}
