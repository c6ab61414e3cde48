//! The lines of a source, piece by piece.
ghost use Rattle.std.specs.Prelude.{◌≡◌, ◌⊎◌, ◌++◌, ◌∷◌, ℕ, List, [], false, MatchResult, OnOk};
ghost use Rattle.smithy_outside.specs.Outside.{Shown};
ghost use Rattle.smithy_lines.specs.Answered.{EndsIn};
ghost use Rattle.smithy_lines.specs.Private.SoFar.{IsSoFar, IsRest, IsHeld, ServesFor, HasBegun, EndsEarly};

use crate::answer::{AnswerFault, AnswerLine};
use crate::batch::{Batch, answer_next, pass_on};
use crate::finding::{after, line_len, part};
use crate::listing::answer_ended;
use smithy_outside::Sink;
use std::alloc::{AllocError, Global};

// Appends bytes of a line to what is held of it. Of a line that is too long only one byte more than the limit is held.
fn hold(longest: usize, bytes: &[u8], held: &mut Vec<u8>) -> Result<(), AllocError>
    ensures { OnOk result ((line : List ℕ) → IsHeld longest held.old.items line → IsHeld longest held.new.items (line ++ bytes.now)) }
{
    let Some(room) = longest.checked_sub(held.len()) else {
        return Ok(());
    };
    if bytes.len() <= room {
        return held.extend_from_slice(bytes);
    }
    held.extend_from_slice(part(bytes, 0, room + 1))
}

// Answers the line that is held, once its line feed came.
fn answer_held<A: AnswerLine, K: Sink>(
    alloc: Global,
    answers: &A,
    held: &mut Vec<u8>,
    batch: &mut Batch,
    out: &mut K,
) -> Result<(), AnswerFault>
    ensures empty { OnOk result (held.new.items ≡ []) }
    ensures answered { (done : List (List ℕ)) (whole : List ℕ) (start : Shown) → ServesFor (A.answers answers.now) held.old.items whole → IsSoFar (A.answers answers.now) done batch.old start (K.told out.old) → MatchResult result
        (λ _. IsSoFar (A.answers answers.now) (done ++ whole ∷ []) batch.new start (K.told out.new))
        (λ e. EndsIn (A.answers answers.now) (done ++ whole ∷ []) e start (K.told out.new)) }
{
    answer_next(alloc, answers, held, batch, out)?;
    held.clear();
    Ok(())
}

// Answers the lines that end in the bytes, where no line has begun before them. The line that begins in them is held, and the answers
// are passed on.
fn answer_after<A: AnswerLine, K: Sink>(
    alloc: Global,
    answers: &A,
    longest: usize,
    bytes: &[u8],
    held: &mut Vec<u8>,
    batch: &mut Batch,
    out: &mut K,
) -> Result<(), AnswerFault>
    requires { held.old.items ≡ [] }
    ensures passed_on { OnOk result (K.holds_back out.new ≡ false) }
    ensures answered { (taken : List ℕ) (start : Shown) → ((front whole : List ℕ) → IsHeld longest front whole → ServesFor (A.answers answers.now) front whole) → IsRest (A.answers answers.now) taken bytes.now batch.old start (K.told out.old) → MatchResult result
        (λ _. HasBegun (A.answers answers.now) longest taken held.new.items batch.new start (K.told out.new))
        (λ e. EndsEarly (A.answers answers.now) taken e start (K.told out.new)) }
{
    let at = answer_ended(alloc, answers, bytes, batch, out)?;
    hold(longest, after(bytes, at), held)?;
    pass_on(batch, out)?;
    Ok(())
}

/// Answers the lines that end in the next piece of a source, and passes the answers on. The line that begins in it is held.
pub(crate) fn answer_piece<A: AnswerLine, K: Sink>(
    alloc: Global,
    answers: &A,
    longest: usize,
    piece: &[u8],
    held: &mut Vec<u8>,
    batch: &mut Batch,
    out: &mut K,
) -> Result<(), AnswerFault>
    ensures passed_on { OnOk result ((K.holds_back out.new ≡ false) ⊎ (out.new ≡ out.old)) }
    ensures answered { (taken : List ℕ) (start : Shown) → HasBegun (A.answers answers.now) longest taken held.old.items batch.old start (K.told out.old) → MatchResult result
        (λ _. HasBegun (A.answers answers.now) longest (taken ++ piece.now) held.new.items batch.new start (K.told out.new))
        (λ e. EndsEarly (A.answers answers.now) (taken ++ piece.now) e start (K.told out.new)) }
{
    let Some(len) = line_len(piece, 0) else {
        hold(longest, piece, held)?;
        return Ok(());
    };
    hold(longest, part(piece, 0, len), held)?;
    answer_held(alloc, answers, held, batch, out)?;
    answer_after(
        alloc,
        answers,
        longest,
        after(piece, len + 1),
        held,
        batch,
        out,
    )
}
