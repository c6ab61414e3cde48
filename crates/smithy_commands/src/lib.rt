//! One run of the program, over any files, source and sinks: its words, the command that they are, and how it ends.
//!
//! `run` takes the words, the objects of smithy_outside that it reads and writes, and answers the number that the
//! program ends with. `run_on_system` takes the arguments, files and streams of a process.
#![tactic(auto)]

mod checks;
mod commands;
mod one_input;
mod reporting;
mod running;
mod small_number;
mod status;
mod system;
mod wire_words;

pub use reporting::report;
pub use running::run;
pub use status::Status;
pub use system::run_on_system;
