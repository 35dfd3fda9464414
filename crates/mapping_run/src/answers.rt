//! What the commands answer, by the contents of their input files: the verdict on a mapping, and what is given by an accepted one.

mod accepting;
mod answer;
mod answering;
mod command;
mod load;
mod save;
mod status;
mod store;
mod views;

pub use answer::{Answer, Halt};
pub use answering::answer_on;
pub use command::{Command, input_count, name_count};
pub use status::Status;
