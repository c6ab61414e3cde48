//! What a program asks of the outside: files, a source of bytes and sinks for them, in memory and of the system.
//!
//! `Files`, `Source` and `Sink` are the traits, whose objects count their faults and may tell what they hold.
//! `MemoryFiles`, `MemorySource` and `MemorySink` tell it, and fail at the calls that they are made to fail at;
//! `SteadySource` and `SteadySink` never fail, and tell it.
//! `OsFiles`, `OsSource` and `OsSink`, over a runtime, a reader and a writer, tell their counts alone.
//! `read_to_end` and `write_all` move whole streams. `read_words` takes the words of a program from its arguments, and `report` writes
//! the line on standard error that tells how its run ended.
#![tactic(auto)]

mod arguments;
mod memory;
mod os;
mod outside;
mod reporting;
mod streams;

pub use arguments::read_words;
pub use memory::{MemoryFiles, MemorySink, MemorySource, SteadySink, SteadySource};
pub use os::{OsFiles, OsSink, OsSource};
pub use outside::{Failed, Files, LoadFault, Sink, Source};
pub use reporting::{RunStatus, report, write_fault, write_line};
pub use streams::{read_to_end, write_all, write_bytes};
