//! The lines of a source, one after the other.
ghost use Rattle.std.specs.Prelude.{◌≡◌, ◌<◌, ◌⊎◌, length, false, IfOk, IfErr, OnOk};
ghost use Rattle.smithy_lines.specs.Sources.{AnswersUpTo, AnswersEach};

use crate::answer::{AnswerLine, StreamFault};
use crate::batch::Batch;
use crate::finding::part;
use crate::listing::answer_last;
use crate::streaming::answer_piece;
use crate::up_to::UpTo;
use smithy_outside::{Sink, Source};
use std::alloc::{AllocError, Global};

// The most bytes that one call asks for.
const PIECE: usize = 65_536;

// A buffer of so many bytes.
fn zeros(alloc: Global, len: usize) -> Result<Vec<u8>, AllocError>
    ensures { IfOk result (λ buffer. length buffer.items ≡ len) }
{
    vec![in alloc; 0; len]
}

// Answers each line of a source, piece by piece through the buffer.
fn answer_from<A: AnswerLine, S: Source, K: Sink>(
    alloc: Global,
    answers: &A,
    longest: usize,
    buffer: &mut [u8],
    source: &mut S,
    out: &mut K,
) -> Result<bool, StreamFault>
    requires { 0 < length buffer.old }
    ensures answered { AnswersEach (AnswersUpTo longest (A.answers answers.now) (A.refuses answers.now)) result (S.told source.old) (S.told source.new) (K.told out.old) (K.told out.new) }
    ensures passed_on { OnOk result (K.holds_back out.new ≡ false) }
    ensures passed_on_before { IfErr result (λ e. e ≡ StreamFault.ReadFailed → (K.holds_back out.new ≡ false) ⊎ (out.new ≡ out.old)) }
{
    let answers = UpTo { answers, longest };
    let mut held = Vec::new(alloc);
    let mut batch = Batch::new(alloc);
    for _ in 0..u64::MAX {
        let count = source.read(buffer)?;
        if count == 0 {
            return Ok(answer_last(alloc, &answers, &held, &mut batch, out)?);
        }
        answer_piece(
            alloc,
            &answers,
            longest,
            part(buffer, 0, count),
            &mut held,
            &mut batch,
            out,
        )?;
    }
    Err(StreamFault::NoMemory)
}

/// Answers each line of a source, in their order. The result says whether a line was refused. A line of more than `longest` bytes is
/// refused unread, so memory is bounded by the longest line and not by the source. What was answered is passed on before more is read.
pub fn answer_each<A: AnswerLine, S: Source, K: Sink>(
    alloc: Global,
    answers: &A,
    longest: usize,
    source: &mut S,
    out: &mut K,
) -> Result<bool, StreamFault>
    ensures answered { AnswersEach (AnswersUpTo longest (A.answers answers.now) (A.refuses answers.now)) result (S.told source.old) (S.told source.new) (K.told out.old) (K.told out.new) }
    ensures passed_on { OnOk result (K.holds_back out.new ≡ false) }
    ensures passed_on_before { IfErr result (λ e. e ≡ StreamFault.ReadFailed → (K.holds_back out.new ≡ false) ⊎ (out.new ≡ out.old)) }
{
    let mut buffer = zeros(alloc, PIECE)?;
    answer_from(alloc, answers, longest, buffer.as_mut_slice(), source, out)
}
