//! A run over the arguments, files and streams of a process.
ghost use Rattle.std.specs.Prelude.{IfErr, IfOk};
ghost use Rattle.std.specs.IoError.{error_kind};
ghost use Rattle.std.specs.Process.{exit_status};
ghost use Rattle.smithy_commands.specs.System.{EndsAsRun, EndsUnread};
ghost use Rattle.smithy_outside.specs.Os.{words_of};

use crate::reporting::report;
use crate::running::run;
use crate::status::Status;
use smithy_outside::{OsFiles, OsSink, OsSource, read_words};
use std::alloc::Global;
use std::env::Args;
use std::io::{Read, Write};
use std::process::ExitCode;
use std::{io, rt};

/// Runs the program over the arguments, files and streams of a process, and answers what the process ends
/// with. The arguments are those of `env::args`, of which the first is the program's own name.
pub fn run_on_system<F: rt::Files + Drop, R: Read + Drop, W: Write + Drop, E: Write + Drop>(
    alloc: Global,
    arguments: io::Result<Args>,
    files: F,
    input: R,
    out: W,
    err: E,
) -> ExitCode
    ensures read { IfOk arguments (λ arguments. EndsAsRun (words_of arguments) (exit_status result)) }
    ensures unread { IfErr arguments (λ error. EndsUnread (error_kind error) (exit_status result)) }
{
    let mut err = OsSink::new(err);
    let words = match read_words(alloc, arguments, Status::Usage, Status::OutOfMemory) {
        Ok(words) => words,
        Err(status) => {
            report(&mut err, status);
            return ExitCode::from(status.code());
        }
    };
    let mut files = OsFiles::new(files);
    let mut input = OsSource::new(input);
    let mut out = OsSink::new(out);
    let code = run(alloc, &words, &mut files, &mut input, &mut out, &mut err);
    ExitCode::from(code)
}
