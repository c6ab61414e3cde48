//! Writes the table of shapes that a part of a service's model is, for the program smithy_transcode.
//!
//! `[partial] input|output MODEL OPERATION`, `[partial] shape MODEL SHAPE` and `[partial] service MODEL` read the model from
//! the file MODEL, and write the table to standard output. The process ends with the number of the `Status`, and says it on
//! standard error unless it is 0.
#![tactic(auto)]

use smithy_table_commands::run_on_system;
use std::env;
use std::process::ExitCode;

fn main(rt: HostRuntime) -> ExitCode {
    run_on_system(rt.alloc(), env::args(&rt), &rt, rt.stdout(), rt.stderr())
}
