//! What the program asks of the outside: files, a source of bytes and sinks for them.
//!
//! Each object counts its faults, and may tell what it holds. The clauses on content hold where it
//! is told, and a count that stands at its last value shows no further fault.
ghost use Rattle.std.specs.Prelude.{◌≡◌, List, Bool, ℕ};
ghost use Rattle.smithy_outside.specs.declared.outside.LoadFault.TheVariants as faults;
ghost use Rattle.smithy_outside.specs.Outside.{Shown, Loads, Reads, Writes, Finishes};

use std::alloc::{AllocError, Global};
use thiserror::Error;

/// A call that moved nothing, and was counted as a fault. `Display` writes its name.
#[derive(Clone, Copy, Debug, PartialEq, Eq, Error)]
#[error("Failed")]
pub struct Failed;

/// Why bytes were not loaded. `Display` writes the variant's name.
#[derive(Clone, Copy, Debug, PartialEq, Eq, Error)]
pub enum LoadFault {
    /// A fault, which was counted.
    #[error("Failed")]
    Failed,
    /// There are more bytes than the limit.
    #[error("TooLong")]
    TooLong,
    /// Want of memory.
    #[error("NoMemory")]
    NoMemory,
}

impl From<Failed> for LoadFault {
    ghost from_gives = { λ _ e. e ≡ faults.Failed };

    fn from(_: Failed) -> Self {
        LoadFault::Failed
    }
}

impl From<AllocError> for LoadFault {
    ghost from_gives = { λ _ e. e ≡ faults.NoMemory };

    fn from(_: AllocError) -> Self {
        LoadFault::NoMemory
    }
}

/// Files by path.
pub trait Files {
    /// What each path tells.
    ghost told: { Self → List ℕ → Shown };

    /// The whole content of the path, where it has at most `limit` bytes: `TooLong` where it has more. A path where no file is fails, and
    /// is counted. No path changes what it holds or whether it is steady, and no count falls.
    fn load(&mut self, alloc: Global, path: &str, limit: usize) -> Result<Vec<u8>, LoadFault>
        ensures { Loads (told self.old) (told self.new) path.now limit result };
}

/// A source of bytes, which are read once, from the front.
pub trait Source {
    /// What the source has left, and its count of faults.
    ghost told: { Self → Shown };

    /// Puts bytes at the front of `into`, and answers how many. At an `into` with room, 0 is the end.
    fn read(&mut self, into: &mut [u8]) -> Result<usize, Failed>
        ensures { Reads (told self.old) (told self.new) into.new result };
}

/// A sink for bytes. It may hold some of them back until it is finished.
pub trait Sink {
    /// What the sink took, and its count of faults.
    ghost told: { Self → Shown };

    /// Whether the sink may hold back some of what it took.
    ghost holds_back: { Self → Bool };

    /// Takes bytes from the front of `piece`, and answers how many: at least one, if there is one.
    fn write(&mut self, piece: &[u8]) -> Result<usize, Failed>
        ensures { Writes (told self.old) (told self.new) piece.now result };

    /// Passes on what is held back.
    fn finish(&mut self) -> Result<(), Failed>
        ensures { Finishes (told self.old) (told self.new) (holds_back self.new) result };
}
