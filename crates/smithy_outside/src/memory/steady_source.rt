//! A source in memory that never fails.
ghost use Rattle.std.specs.Prelude.{◌≡◌, ◌<◌, ◌≤◌, ◌-◌, min, length};

use crate::outside::{Failed, Source};

/// A source that gives bytes that are held in memory. No call of it fails.
#[derive(Drop)]
pub struct SteadySource {
    /// All bytes, also those that were given.
    pub bytes: Vec<u8>,
    /// How many of the bytes were given.
    pub at: usize,
    /// The most bytes that one call gives, at least 1.
    pub piece: usize,
    ghost within: { at ≤ length bytes.items },
    ghost some: { 0 < piece },
}

impl SteadySource {
    /// A source of these bytes, that gives at most `piece` of them at once.
    pub fn new(bytes: Vec<u8>, piece: usize) -> SteadySource
        requires { 0 < piece }
        ensures bytes { result.bytes ≡ bytes }
        ensures at { result.at ≡ 0 }
        ensures piece { result.piece ≡ piece }
    {
        SteadySource {
            bytes,
            at: 0,
            piece,
        }
    }
}

impl Source for SteadySource {
    ghost use Rattle.smithy_outside.specs.Memory.{steady_source_told};
    ghost use Rattle.smithy_outside.specs.Outside.{Reads};

    ghost told = { steady_source_told };

    fn read(&mut self, into: &mut [u8]) -> Result<usize, Failed>
        ensures reads { Reads (steady_source_told self.old) (steady_source_told self.new) into.new result }

        // A call gives as much as it may.
        ensures as_much { result ≡ Ok (min (min (length self.old.bytes.items - self.old.at) self.old.piece) (length into.new)) }

        // All else stays.
        ensures bytes { self.new.bytes ≡ self.old.bytes }
        ensures piece { self.new.piece ≡ self.old.piece }
    {
        let left = &self.bytes[self.at..];
        let count = left.len().min(self.piece).min(into.len());
        into[..count].copy_from_slice(&left[..count]);
        self.at += count;
        Ok(count)
    }
}
