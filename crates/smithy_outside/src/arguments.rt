//! The arguments of a process.
ghost use Rattle.std.specs.Prelude.{◌≡◌, drop, map, string_bytes, IfErr, IfOk, MatchResult};
ghost use Rattle.std.specs.IoError.{error_kind};
ghost use Rattle.std.specs.Vec.Iter.{into_iter_items};
ghost use Rattle.smithy_outside.specs.Os.{words_of, IsUnread};

use std::alloc::{AllocError, Global};
use std::env::Args;
use std::io;
use std::io::{Error, ErrorKind};

// The words of a program: all arguments but the first, which is its own name.
fn words_behind_name(alloc: Global, arguments: Args) -> Result<Vec<String>, AllocError>
    ensures { IfOk result (λ words. words.items ≡ drop 1 (into_iter_items arguments)) }
{
    arguments.skip(1).collect(alloc)
}

// The status where the arguments weren't read. Those that are no text are no command.
fn unread<S: Copy>(error: &Error, usage: S, out_of_memory: S) -> S
    ensures { IsUnread usage out_of_memory (error_kind error.now) result }
{
    match error.kind() {
        ErrorKind::OutOfMemory => out_of_memory,
        _ => usage,
    }
}

/// The words of a program, which are all arguments but its own name; or the status that it ends with: that of no command where an
/// argument is no text, and that of want of memory where the arguments weren't read for it, or the words have no room.
pub fn read_words<S: Copy>(
    alloc: Global,
    arguments: io::Result<Args>,
    usage: S,
    out_of_memory: S,
) -> Result<Vec<String>, S>
    ensures read { IfOk arguments (λ arguments. MatchResult result (λ words. map string_bytes words.items ≡ words_of arguments) (λ status. status ≡ out_of_memory)) }
    ensures unread { IfErr arguments (λ error. MatchResult result (λ _. ⊥) (IsUnread usage out_of_memory (error_kind error))) }
{
    match arguments {
        Ok(arguments) => match words_behind_name(alloc, arguments) {
            Ok(words) => Ok(words),
            Err(_) => Err(out_of_memory),
        },
        Err(error) => Err(unread(&error, usage, out_of_memory)),
    }
}
