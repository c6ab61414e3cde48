//! What answers a line, and why lines stay without an answer.
ghost use Rattle.std.specs.Prelude.{◌≡◌, ◌++◌, ℕ, List, Bool, IfOk, OnOk};
ghost use Rattle.smithy_lines.specs.Lines.{HasNoFeed};
ghost use Rattle.smithy_lines.specs.declared.answer.AnswerFault.TheVariants as answer_faults;
ghost use Rattle.smithy_lines.specs.declared.answer.StreamFault.TheVariants as stream_faults;

use smithy_outside::Failed;
use std::alloc::{AllocError, Global};
use thiserror::Error;

/// What answers lines. A line is known by its bytes and its number, and the first line has the number 1. No answer has a line feed.
pub trait AnswerLine {
    // What the answer to a line may be, without the line feed after it, and whether it refuses the line.
    ghost answers: { Self → ℕ → List ℕ → List ℕ → Bool → Type 0 };

    // What the answer may be to a line that is longer than its reader's limit. Each such line is refused.
    ghost refuses: { Self → ℕ → List ℕ → Type 0 };

    /// Appends the answer to a line, which has no line feed, to the text. The result says whether the line is refused.
    fn answer(
        &self,
        alloc: Global,
        number: u64,
        line: &[u8],
        text: &mut Vec<u8>,
    ) -> Result<bool, AllocError>
        ensures { IfOk result (λ refused. (answer : List ℕ) × (text.new.items ≡ text.old.items ++ answer) × HasNoFeed answer × answers self.now number line.now answer refused) };

    /// Appends the answer to a line that is longer than its reader's limit, so that its bytes aren't known.
    fn refuse_long(&self, alloc: Global, number: u64, text: &mut Vec<u8>) -> Result<(), AllocError>
        ensures { OnOk result ((answer : List ℕ) × (text.new.items ≡ text.old.items ++ answer) × HasNoFeed answer × refuses self.now number answer) };
}

/// Why not all lines of bytes in memory were answered. `Display` writes the variant's name.
#[derive(Clone, Copy, Debug, PartialEq, Eq, Error)]
pub enum AnswerFault {
    /// The sink failed.
    #[error("WriteFailed")]
    WriteFailed,
    /// An allocation failed, or there are more lines than 64 bits count.
    #[error("NoMemory")]
    NoMemory,
}

impl From<Failed> for AnswerFault {
    ghost from_gives = { λ _ e. e ≡ answer_faults.WriteFailed };

    fn from(_: Failed) -> Self {
        AnswerFault::WriteFailed
    }
}

impl From<AllocError> for AnswerFault {
    ghost from_gives = { λ _ e. e ≡ answer_faults.NoMemory };

    fn from(_: AllocError) -> Self {
        AnswerFault::NoMemory
    }
}

/// Why not all lines of a source were answered. `Display` writes the variant's name.
#[derive(Clone, Copy, Debug, PartialEq, Eq, Error)]
pub enum StreamFault {
    /// The source failed.
    #[error("ReadFailed")]
    ReadFailed,
    /// The sink failed.
    #[error("WriteFailed")]
    WriteFailed,
    /// An allocation failed, or there are more lines or reads than 64 bits count.
    #[error("NoMemory")]
    NoMemory,
}

impl From<Failed> for StreamFault {
    ghost from_gives = { λ _ e. e ≡ stream_faults.ReadFailed };

    fn from(_: Failed) -> Self {
        StreamFault::ReadFailed
    }
}

impl From<AllocError> for StreamFault {
    ghost from_gives = { λ _ e. e ≡ stream_faults.NoMemory };

    fn from(_: AllocError) -> Self {
        StreamFault::NoMemory
    }
}

impl From<AnswerFault> for StreamFault {
    ghost use Rattle.smithy_lines.specs.Sources.{stream_fault};

    ghost from_gives = { λ fault e. e ≡ stream_fault fault };

    fn from(fault: AnswerFault) -> Self {
        match fault {
            AnswerFault::WriteFailed => StreamFault::WriteFailed,
            AnswerFault::NoMemory => StreamFault::NoMemory,
        }
    }
}
