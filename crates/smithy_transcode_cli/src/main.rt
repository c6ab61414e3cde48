//! The program smithy_transcode: the first of its arguments names a command, and the others are the command's own.
//!
//! README.md says what each command does, and the files of `src/commands` in smithy_commands say which arguments it
//! takes. The process ends with the number of the `Status`, and says it on standard error unless the output has an
//! answer.
#![tactic(auto)]

use smithy_commands::run_on_system;
use std::env;
use std::process::ExitCode;

fn main(rt: HostRuntime) -> ExitCode {
    run_on_system(
        rt.alloc(),
        env::args(&rt),
        &rt,
        rt.stdin(),
        rt.stdout(),
        rt.stderr(),
    )
}
