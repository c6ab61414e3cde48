//! All lines of some bytes, one after the other.
ghost use Rattle.std.specs.Prelude.{◌≡◌, ◌≤◌, ℕ, List, drop, length, false, MatchResult, IfOk, OnOk};
ghost use Rattle.smithy_outside.specs.Outside.{Shown};
ghost use Rattle.smithy_lines.specs.Lines.{lines_of, HasNoFeed};
ghost use Rattle.smithy_lines.specs.Answered.{AnswersAll};
ghost use Rattle.smithy_lines.specs.Private.SoFar.{IsSoFar, IsRest, IsHeld, ServesFor, EndsEarly};

use crate::answer::{AnswerFault, AnswerLine};
use crate::batch::{Batch, answer_next, pass_on};
use crate::finding::{after, line_len, part};
use smithy_outside::Sink;
use std::alloc::Global;

/// Answers the lines that end in the bytes. The result is the place just past the last of them.
pub(crate) fn answer_ended<A: AnswerLine, K: Sink>(
    alloc: Global,
    answers: &A,
    bytes: &[u8],
    batch: &mut Batch,
    out: &mut K,
) -> Result<usize, AnswerFault>
    ensures within { IfOk result (λ at. at ≤ length bytes.now) }
    ensures none { IfOk result (λ at. HasNoFeed (drop at bytes.now)) }
    ensures answered { (taken : List ℕ) (start : Shown) → IsRest (A.answers answers.now) taken bytes.now batch.old start (K.told out.old) → MatchResult result
        (λ at. IsRest (A.answers answers.now) taken (drop at bytes.now) batch.new start (K.told out.new))
        (λ e. EndsEarly (A.answers answers.now) taken e start (K.told out.new)) }
{
    let mut at = 0;
    while let Some(len) = line_len(bytes, at) {
        answer_next(alloc, answers, part(bytes, at, len), batch, out)?;
        at += len + 1;
    }
    Ok(at)
}

// Writes the answers that wait, once all lines are answered. The result says whether a line was refused.
fn finish<A: AnswerLine, K: Sink>(
    _answers: &A,
    batch: &mut Batch,
    out: &mut K,
) -> Result<bool, AnswerFault>
    ensures answered { (done : List (List ℕ)) (start : Shown) → IsSoFar (A.answers _answers.now) done batch.old start (K.told out.old)
        → AnswersAll (A.answers _answers.now) done result start (K.told out.new) }
    ensures passed_on { OnOk result (K.holds_back out.new ≡ false) }
{
    pass_on(batch, out)?;
    Ok(batch.refused)
}

/// Answers the last line, which no line feed ends, where it has a byte. The result says whether a line was refused.
pub(crate) fn answer_last<A: AnswerLine, K: Sink>(
    alloc: Global,
    answers: &A,
    held: &[u8],
    batch: &mut Batch,
    out: &mut K,
) -> Result<bool, AnswerFault>
    ensures answered { (longest : ℕ) (taken rest : List ℕ) (start : Shown) → HasNoFeed rest → IsHeld longest held.now rest → ServesFor (A.answers answers.now) held.now rest
        → IsRest (A.answers answers.now) taken rest batch.old start (K.told out.old) → AnswersAll (A.answers answers.now) (lines_of taken) result start (K.told out.new) }
    ensures passed_on { OnOk result (K.holds_back out.new ≡ false) }
{
    if held.is_empty() {
        return finish(answers, batch, out);
    }
    answer_next(alloc, answers, held, batch, out)?;
    finish(answers, batch, out)
}

/// Answers each line of the bytes, in their order. The result says whether a line was refused.
pub fn answer_all<A: AnswerLine, K: Sink>(
    alloc: Global,
    answers: &A,
    bytes: &[u8],
    out: &mut K,
) -> Result<bool, AnswerFault>
    ensures answered { AnswersAll (A.answers answers.now) (lines_of bytes.now) result (K.told out.old) (K.told out.new) }
    ensures passed_on { OnOk result (K.holds_back out.new ≡ false) }
{
    let mut batch = Batch::new(alloc);
    let at = answer_ended(alloc, answers, bytes, &mut batch, out)?;
    answer_last(alloc, answers, after(bytes, at), &mut batch, out)
}
