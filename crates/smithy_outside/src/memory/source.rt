//! A source in memory.
ghost use Rattle.std.specs.Prelude.{◌≡◌, ◌↔◌, ◌<◌, ◌≤◌, ◌-◌, min, length, Contains, IsErr, IfOk, OnErr};

use super::is_failing_call;
use crate::outside::{Failed, Source};

/// A source that gives bytes that are held in memory.
#[derive(Drop)]
pub struct MemorySource {
    /// All bytes, also those that were given.
    pub bytes: Vec<u8>,
    /// How many of the bytes were given.
    pub at: usize,
    /// The most bytes that one call gives, at least 1.
    pub piece: usize,
    /// The numbers, from 1, of the calls that fail.
    pub fail: Vec<u64>,
    /// How many calls there were.
    pub calls: u64,
    /// How many calls failed.
    pub faults: u64,
    ghost within: { at ≤ length bytes.items },
    ghost some: { 0 < piece },
}

impl MemorySource {
    /// A source of these bytes, that gives at most `piece` of them at once, and of which the calls of
    /// these numbers, from 1, fail.
    pub fn new(bytes: Vec<u8>, piece: usize, fail: Vec<u64>) -> MemorySource
        requires { 0 < piece }
        ensures bytes { result.bytes ≡ bytes }
        ensures piece { result.piece ≡ piece }
        ensures fail { result.fail ≡ fail }
        ensures at { result.at ≡ 0 }
        ensures calls { result.calls ≡ 0 }
        ensures faults { result.faults ≡ 0 }
    {
        MemorySource {
            bytes,
            at: 0,
            piece,
            fail,
            calls: 0,
            faults: 0,
        }
    }
}

impl Source for MemorySource {
    ghost use Rattle.smithy_outside.specs.Memory.{source_told};
    ghost use Rattle.smithy_outside.specs.Outside.{counted, Reads};

    ghost told = { source_told };

    fn read(&mut self, into: &mut [u8]) -> Result<usize, Failed>
        ensures reads { Reads (source_told self.old) (source_told self.new) into.new result }

        // Reads fail at the calls that are to fail, and at no others. The others give as much as they may.
        ensures calls { self.new.calls ≡ counted self.old.calls }
        ensures fails { IsErr result ↔ Contains self.old.fail.items self.new.calls }
        ensures as_much { IfOk result (λ count. count ≡ min (min (length self.old.bytes.items - self.old.at) self.old.piece) (length into.new)) }

        // All else stays, the buffer too where the call fails.
        ensures unmoved { OnErr result (into.new ≡ into.old) }
        ensures bytes { self.new.bytes ≡ self.old.bytes }
        ensures piece { self.new.piece ≡ self.old.piece }
        ensures fail { self.new.fail ≡ self.old.fail }
    {
        if is_failing_call(&mut self.calls, &self.fail) {
            self.faults = self.faults.saturating_add(1);
            return Err(Failed);
        }
        let left = &self.bytes[self.at..];
        let count = left.len().min(self.piece).min(into.len());
        into[..count].copy_from_slice(&left[..count]);
        self.at += count;
        Ok(count)
    }
}
