//! A sink in memory that never fails.
ghost use Rattle.std.specs.Prelude.{◌≡◌, ◌||◌, ◌<◌, ◌≤◌, ◌-◌, ◌++◌, [], min, nat_lt, false, length, take, vec_capacity, IsOk, IfOk};

use crate::outside::{Failed, Sink};
use std::alloc::{AllocError, Global};

/// A sink that takes whatever it is given, and keeps the first bytes of it in memory. No call of it fails, and it holds
/// nothing back.
#[derive(Drop)]
pub struct SteadySink {
    /// The bytes that are kept of those that the sink took.
    pub bytes: Vec<u8>,
    /// The most bytes that one call takes, at least 1.
    pub piece: usize,
    /// The most bytes that are kept.
    pub room: usize,
    /// Some byte that the sink took wasn't kept.
    pub lost: bool,
    ghost within: { length bytes.items ≤ room },
    ghost reserved: { room ≤ vec_capacity bytes },
    ghost some: { 0 < piece },
}

impl SteadySink {
    /// A sink that keeps so many bytes, and takes at most `piece` of them at once.
    pub fn new(alloc: Global, piece: usize, room: usize) -> Result<SteadySink, AllocError>
        requires { 0 < piece }
        ensures bytes { IfOk result (λ sink. sink.bytes.items ≡ []) }
        ensures piece { IfOk result (λ sink. sink.piece ≡ piece) }
        ensures room { IfOk result (λ sink. sink.room ≡ room) }
        ensures lost { IfOk result (λ sink. sink.lost ≡ false) }
    {
        Ok(SteadySink {
            bytes: Vec::with_capacity(alloc, room)?,
            piece,
            room,
            lost: false,
        })
    }
}

impl Sink for SteadySink {
    ghost use Rattle.smithy_outside.specs.Memory.{steady_sink_told};
    ghost use Rattle.smithy_outside.specs.Outside.{Writes, Finishes};

    ghost told = { steady_sink_told };

    ghost holds_back = { λ _. false };

    fn write(&mut self, piece: &[u8]) -> Result<usize, Failed>
        ensures writes { Writes (steady_sink_told self.old) (steady_sink_told self.new) piece.now result }

        // A call takes as much as it may, and keeps what there is room for.
        ensures as_much { result ≡ Ok (min self.old.piece (length piece.now)) }
        ensures kept { self.new.bytes.items ≡ self.old.bytes.items ++ take (min (min self.old.piece (length piece.now)) (self.old.room - length self.old.bytes.items)) piece.now }
        ensures lost { self.new.lost ≡ (self.old.lost || nat_lt (self.old.room - length self.old.bytes.items) (min self.old.piece (length piece.now))) }

        // All else stays.
        ensures piece { self.new.piece ≡ self.old.piece }
        ensures room { self.new.room ≡ self.old.room }
    {
        let count = self.piece.min(piece.len());
        let left = self.room - self.bytes.len();
        // The room is reserved, so no memory is wanted.
        let is_kept = self
            .bytes
            .extend_from_slice(&piece[..count.min(left)])
            .is_ok();
        self.lost = self.lost || left < count || !is_kept;
        Ok(count)
    }

    fn finish(&mut self) -> Result<(), Failed>
        ensures finishes { Finishes (steady_sink_told self.old) (steady_sink_told self.new) false result }

        // Nothing is held back, so nothing is to do.
        ensures done { IsOk result }
        ensures unmoved { self.new ≡ self.old }
    {
        Ok(())
    }
}
