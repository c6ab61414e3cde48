//! Goes through all rows of test data (docs/ROWS.md).
#![tactic(auto)]

use body_rows::{Requests, Tables, Transcoding};
use library_checks::Checks;
use reader_rows::Codecs;
use run_rows::Runs;
use smithy_rows::run;
use std::io;
use std::process::ExitCode;
use value_rows::{Items, Texts};

fn main(rt: HostRuntime) -> io::Result<ExitCode> {
    let texts = run(&rt, "text/", &Texts)?;
    let items = run(&rt, "items/", &Items)?;
    let calls = run(&rt, "calls/", &Codecs)?;
    let bodies = run(&rt, "bodies/", &Transcoding)?;
    let requests = run(&rt, "requests/", &Requests)?;
    let runs = run(&rt, "runs/", &Runs)?;
    let models = run(&rt, "models/", &Tables)?;
    let checks = run(&rt, "checks/", &Checks { rt: &rt })?;
    let all = texts && items && calls && bodies && requests && runs && models && checks;
    Ok(ExitCode::from(if all { 0 } else { 1 }))
}
