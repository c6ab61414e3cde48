//! The real files, standard input, output and error. They tell no content, and count each error.
ghost use Rattle.std.specs.Prelude.{◌≡◌, true, false, OnErr};
ghost use Rattle.std.specs.Io.KnownBytes.{Keeps, ReadConsumes, WriteAppends};
ghost use Rattle.smithy_outside.specs.Os.{only_counts};
ghost use Rattle.smithy_outside.specs.Outside.{Reads, Writes, Finishes};

use crate::outside::{Failed, Files, LoadFault, Sink, Source};
use crate::streams::read_to_end;
use std::alloc::Global;
use std::io::{Read, Write};
use std::{fs, rt};

/// The files that a runtime reaches.
#[derive(Drop)]
pub struct OsFiles<R: rt::Files> {
    runtime: R,
    /// How many calls failed.
    pub faults: u64,
}

impl<R: rt::Files> OsFiles<R> {
    /// Files that met no fault.
    pub fn new(runtime: R) -> OsFiles<R>
        ensures { result.faults ≡ 0 }
    {
        OsFiles { runtime, faults: 0 }
    }
}

impl<R: rt::Files> Files for OsFiles<R> {
    ghost told = { λ s _. only_counts s.faults };

    fn load(&mut self, alloc: Global, path: &str, limit: usize) -> Result<Vec<u8>, LoadFault> {
        let Ok(input) = fs::open(&self.runtime, path) else {
            self.faults = self.faults.saturating_add(1);
            return Err(LoadFault::Failed);
        };
        let mut source = OsSource::new(input);
        let loaded = read_to_end(alloc, &mut source, limit);
        self.faults = self.faults.saturating_add(source.faults);
        loaded
    }
}

/// A source over a reader, as over standard input.
#[derive(Drop)]
pub struct OsSource<R: Read> {
    /// What is read.
    pub input: R,
    /// How many calls failed.
    pub faults: u64,
}

impl<R: Read> OsSource<R> {
    /// A source that met no fault.
    pub fn new(input: R) -> OsSource<R>
        ensures input { result.input ≡ input }
        ensures faults { result.faults ≡ 0 }
    {
        OsSource { input, faults: 0 }
    }
}

impl<R: Read> Source for OsSource<R> {
    ghost told = { λ s. only_counts s.faults };

    fn read(&mut self, into: &mut [u8]) -> Result<usize, Failed>
        ensures reads { Reads (only_counts self.old.faults) (only_counts self.new.faults) into.new result }

        // What the reader gave stands at the front, and is what is answered.
        ensures passes { ReadConsumes (R.remaining self.old.input) (R.remaining self.new.input) result into.new }
    {
        match self.input.read(into) {
            Ok(count) => Ok(count),
            Err(_) => {
                self.faults = self.faults.saturating_add(1);
                Err(Failed)
            }
        }
    }
}

/// A sink over a writer, as over standard output. It may hold back what it took until it is finished.
#[derive(Drop)]
pub struct OsSink<W: Write> {
    /// What is written to.
    pub output: W,
    /// Whether `write` was called since `finish` last succeeded.
    pub is_unfinished: bool,
    /// How many calls failed.
    pub faults: u64,
}

impl<W: Write> OsSink<W> {
    /// A sink that took nothing and met no fault.
    pub fn new(output: W) -> OsSink<W>
        ensures output { result.output ≡ output }
        ensures faults { result.faults ≡ 0 }
        ensures finished { result.is_unfinished ≡ false }
    {
        OsSink {
            output,
            is_unfinished: false,
            faults: 0,
        }
    }
}

impl<W: Write> Sink for OsSink<W> {
    ghost told = { λ s. only_counts s.faults };

    ghost holds_back = { λ s. s.is_unfinished };

    fn write(&mut self, piece: &[u8]) -> Result<usize, Failed>
        ensures writes { Writes (only_counts self.old.faults) (only_counts self.new.faults) piece.now result }

        // What the writer took of the piece is what is answered.
        ensures passes { WriteAppends (W.contents self.old.output) (W.contents self.new.output) result piece.now }
        ensures unfinished { self.new.is_unfinished ≡ true }
    {
        self.is_unfinished = true;
        match self.output.write(piece) {
            Ok(count) if count > 0 || piece.is_empty() => Ok(count),
            // A writer that takes nothing of a piece fails.
            _ => {
                self.faults = self.faults.saturating_add(1);
                Err(Failed)
            }
        }
    }

    fn finish(&mut self) -> Result<(), Failed>
        ensures finishes { Finishes (only_counts self.old.faults) (only_counts self.new.faults) self.new.is_unfinished result }

        // The writer still holds what it held. Where the call fails, the sink is as unfinished as it was.
        ensures keeps { Keeps (W.contents self.old.output) (W.contents self.new.output) }
        ensures unfinished { OnErr result (self.new.is_unfinished ≡ self.old.is_unfinished) }
    {
        if self.output.flush().is_err() {
            self.faults = self.faults.saturating_add(1);
            return Err(Failed);
        }
        self.is_unfinished = false;
        Ok(())
    }
}
