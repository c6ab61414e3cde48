//! One run of the program for tables, over any files and sinks: its words, what they ask for, and how it ends.
//!
//! `run` takes the words and the objects of smithy_outside that it reads and writes, and answers the number that the
//! program ends with; `run_on_system` takes the arguments, files and streams of a process.
#![tactic(auto)]

mod left_out;
mod reporting;
mod running;
mod status;
mod system;
mod task;

pub use reporting::report;
pub use running::run;
pub use status::Status;
pub use system::run_on_system;
pub use task::Task;
