//! What the program does: the words of a process are run on files, and what they give is written to an output.
#![tactic(auto)]

mod answers;
mod arguments;
mod commands;
mod inputs;
mod words;

pub use answers::Status;
pub use arguments::run_arguments;
pub use commands::run;
