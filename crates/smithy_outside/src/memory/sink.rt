//! A sink in memory.
ghost use Rattle.std.specs.Prelude.{◌≡◌, ◌↔◌, ◌⊎◌, ◌<◌, ◌≤◌, ◌-◌, [], min, false, length, vec_capacity, Contains, IsErr, IfOk};

use super::is_failing_call;
use crate::outside::{Failed, Sink};
use std::alloc::{AllocError, Global};

/// A sink that keeps what it takes in memory. It holds nothing back.
#[derive(Drop)]
pub struct MemorySink {
    /// The bytes that the sink took.
    pub bytes: Vec<u8>,
    /// The most bytes that one call takes, at least 1.
    pub piece: usize,
    /// The most bytes that the sink takes in all.
    pub room: usize,
    /// The numbers, from 1, of the calls that fail.
    pub fail: Vec<u64>,
    /// How many calls there were.
    pub calls: u64,
    /// How many calls failed.
    pub faults: u64,
    ghost within: { length bytes.items ≤ room },
    ghost reserved: { room ≤ vec_capacity bytes },
    ghost some: { 0 < piece },
}

impl MemorySink {
    /// A sink with room for so many bytes, which takes at most `piece` of them at once, and of which
    /// the calls of these numbers, from 1, fail.
    pub fn new(
        alloc: Global,
        piece: usize,
        room: usize,
        fail: Vec<u64>,
    ) -> Result<MemorySink, AllocError>
        requires { 0 < piece }
        ensures bytes { IfOk result (λ sink. sink.bytes.items ≡ []) }
        ensures piece { IfOk result (λ sink. sink.piece ≡ piece) }
        ensures room { IfOk result (λ sink. sink.room ≡ room) }
        ensures fail { IfOk result (λ sink. sink.fail ≡ fail) }
        ensures calls { IfOk result (λ sink. sink.calls ≡ 0) }
        ensures faults { IfOk result (λ sink. sink.faults ≡ 0) }
    {
        Ok(MemorySink {
            bytes: Vec::with_capacity(alloc, room)?,
            piece,
            room,
            fail,
            calls: 0,
            faults: 0,
        })
    }
}

impl Sink for MemorySink {
    ghost use Rattle.smithy_outside.specs.Memory.{sink_told};
    ghost use Rattle.smithy_outside.specs.Outside.{counted, Writes, Finishes};

    ghost told = { sink_told };

    ghost holds_back = { λ _. false };

    fn write(&mut self, piece: &[u8]) -> Result<usize, Failed>
        ensures writes { Writes (sink_told self.old) (sink_told self.new) piece.now result }

        // Writes fail at the calls that are to fail, and where no room is left. The others take as much as they may.
        ensures calls { self.new.calls ≡ counted self.old.calls }
        ensures fails { Contains self.old.fail.items self.new.calls → IsErr result }
        ensures fails_only { IsErr result → Contains self.old.fail.items self.new.calls ⊎ (self.old.room ≡ length self.old.bytes.items) }
        ensures as_much { IfOk result (λ count. count ≡ min (min (self.old.room - length self.old.bytes.items) self.old.piece) (length piece.now)) }

        // All else stays.
        ensures piece { self.new.piece ≡ self.old.piece }
        ensures room { self.new.room ≡ self.old.room }
        ensures fail { self.new.fail ≡ self.old.fail }
    {
        let fails = is_failing_call(&mut self.calls, &self.fail);
        let count = (self.room - self.bytes.len())
            .min(self.piece)
            .min(piece.len());
        let is_full = count == 0 && !piece.is_empty();
        if fails || is_full || self.bytes.extend_from_slice(&piece[..count]).is_err() {
            self.faults = self.faults.saturating_add(1);
            return Err(Failed);
        }
        Ok(count)
    }

    fn finish(&mut self) -> Result<(), Failed>
        ensures finishes { Finishes (sink_told self.old) (sink_told self.new) false result }

        // The calls that are to fail do, and no others.
        ensures calls { self.new.calls ≡ counted self.old.calls }
        ensures fails { IsErr result ↔ Contains self.old.fail.items self.new.calls }

        // All else stays.
        ensures piece { self.new.piece ≡ self.old.piece }
        ensures room { self.new.room ≡ self.old.room }
        ensures fail { self.new.fail ≡ self.old.fail }
    {
        if is_failing_call(&mut self.calls, &self.fail) {
            self.faults = self.faults.saturating_add(1);
            return Err(Failed);
        }
        Ok(())
    }
}
