//! Rows of runs of the program (docs/ROWS.md).
#![tactic(auto)]

mod answer;
mod named;
mod runs;

pub use answer::Runs;
