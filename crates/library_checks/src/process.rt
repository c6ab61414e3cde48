//! What the process ends with, over arguments and streams in memory and a real file.
use smithy_commands::run_on_system;
use std::alloc::Global;
use std::env::{Env, FillError};
use std::process::ExitCode;
use std::{env, fs, io, rt};

/// Arguments that are held in memory.
#[derive(Clone, Copy)]
struct Arguments {
    all: &'static [&'static [u8]],
}

impl Env for Arguments {
    fn arg(&self, i: usize, buf: &mut [u8]) -> Result<usize, FillError> {
        let Some(argument) = self.all.get(i) else {
            return Err(FillError::NotPresent);
        };
        if argument.len() > buf.len() {
            return Err(FillError::TooLong);
        }
        buf[..argument.len()].copy_from_slice(argument);
        Ok(argument.len())
    }

    fn var(&self, _name: &str, _buf: &mut [u8]) -> Result<usize, FillError> {
        Err(FillError::NotPresent)
    }

    fn var_at(&self, _i: usize, _buf: &mut [u8]) -> Result<usize, FillError> {
        Err(FillError::NotPresent)
    }
}

/// A run of the process.
#[derive(Clone, Copy)]
struct Process {
    name: &'static str,
    arguments: &'static [&'static [u8]],
    input: &'static [u8],
    status: u8,
    output: &'static [u8],
    line: &'static str,
}

const PROCESSES: [Process; 8] = [
    Process {
        name: "a body is written",
        arguments: &[b"cli", b"transcode", b"shapes", b"S", b"json", b"json"],
        input: b"{\"z\":[1], \"a\" : 7}",
        status: 0,
        output: b"{\"a\":7}",
        line: "",
    },
    Process {
        name: "no arguments",
        arguments: &[],
        input: b"{}",
        status: 2,
        output: b"",
        line: "smithy_transcode: usage\n",
    },
    Process {
        name: "an argument that is no text is no command",
        arguments: &[b"cli", b"transcode", b"shapes", b"\xff", b"json", b"json"],
        input: b"{}",
        status: 2,
        output: b"",
        line: "smithy_transcode: usage\n",
    },
    Process {
        name: "no such file",
        arguments: &[b"cli", b"transcode", b"absent", b"S", b"json", b"json"],
        input: b"{}",
        status: 6,
        output: b"",
        line: "smithy_transcode: read failed\n",
    },
    Process {
        name: "a body that spells nothing",
        arguments: &[b"cli", b"transcode", b"shapes", b"S", b"json", b"json"],
        input: b"{",
        status: 10,
        output: b"",
        line: "smithy_transcode: invalid input\n",
    },
    Process {
        name: "a word behind those of a form",
        arguments: &[
            b"cli",
            b"transcode",
            b"shapes",
            b"S",
            b"json",
            b"query",
            b"Do",
            b"1",
            b"extra",
        ],
        input: b"{}",
        status: 2,
        output: b"",
        line: "smithy_transcode: usage\n",
    },
    Process {
        name: "a form with an empty action",
        arguments: &[
            b"cli",
            b"transcode",
            b"shapes",
            b"S",
            b"json",
            b"query",
            b"",
            b"1",
        ],
        input: b"{}",
        status: 0,
        output: b"Action=&Version=1",
        line: "",
    },
    Process {
        name: "a form",
        arguments: &[
            b"cli",
            b"transcode",
            b"shapes",
            b"S",
            b"json",
            b"query",
            b"Do",
            b"1",
        ],
        input: b"{}",
        status: 0,
        output: b"Action=Do&Version=1",
        line: "",
    },
];

// Whether the process ends as the row says.
fn ends_as_told<F: rt::Files>(alloc: Global, files: &F, row: &Process) -> bool {
    let arguments = Arguments { all: row.arguments };
    let mut out = Vec::new(alloc);
    let mut err = Vec::new(alloc);
    let code = run_on_system(
        alloc,
        env::args(&(arguments, alloc)),
        files,
        row.input,
        &mut out,
        &mut err,
    );
    code == ExitCode::from(row.status)
        && out.as_slice() == row.output
        && err.as_slice() == row.line.as_bytes()
}

pub fn the_process_ends_with_the_status<F: rt::Files>(
    alloc: Global,
    files: &F,
) -> io::Result<bool> {
    fs::write(files, "shapes", "structure S\nmember a long\n")?;
    let mut all = true;
    for row in &PROCESSES {
        all = ends_as_told(alloc, files, row) && all;
    }
    fs::remove_file(files, "shapes")?;
    Ok(all)
}
