//! The files and the sink that the compiler reads from and writes to: the traits, in memory, on the disk, and the standard output.
#![tactic(auto)]

mod disk_files;
mod files;
mod mem_files;
mod mem_sink;
mod out_sink;
mod sink;

pub use disk_files::DiskFiles;
pub use files::{Files, ReadFault, ReplaceFault};
pub use mem_files::MemFiles;
pub use mem_sink::MemSink;
pub use out_sink::OutSink;
pub use sink::{Sink, SinkFault};
