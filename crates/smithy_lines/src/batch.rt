//! The answers that are still to be written.
ghost use Rattle.std.specs.Prelude.{◌≡◌, ◌++◌, [], ◌∷◌, ℕ, List, false, MatchResult, OnOk};
ghost use Rattle.smithy_outside.specs.Outside.{Shown};
ghost use Rattle.smithy_lines.specs.Answered.{EndsIn};
ghost use Rattle.smithy_lines.specs.Private.Batches.{AddsAnswer, IsPassedOn};
ghost use Rattle.smithy_lines.specs.Private.SoFar.{IsSoFar, ServesFor};

use crate::answer::{AnswerFault, AnswerLine};
use smithy_outside::{Failed, Sink, write_all, write_bytes};
use std::alloc::{AllocError, Global};

// Answers are written once they have so many bytes.
const BATCH: usize = 65_536;

/// Answers that wait to be written, how many lines were answered, and whether one of them was refused.
#[derive(Drop)]
pub(crate) struct Batch {
    pub(crate) text: Vec<u8>,
    pub(crate) count: u64,
    pub(crate) refused: bool,
}

impl Batch {
    /// No answers.
    pub(crate) fn new(alloc: Global) -> Batch
        ensures text { result.text.items ≡ [] }
        ensures count { result.count ≡ 0 }
        ensures refused { result.refused ≡ false }
    {
        Batch {
            text: Vec::new(alloc),
            count: 0,
            refused: false,
        }
    }
}

// Appends the answer to the next line.
fn add_answer<A: AnswerLine>(
    alloc: Global,
    answers: &A,
    line: &[u8],
    batch: &mut Batch,
) -> Result<(), AllocError>
    ensures { OnOk result (AddsAnswer (A.answers answers.now) line.now batch.old batch.new) }
{
    let Some(number) = batch.count.checked_add(1) else {
        return Err(AllocError);
    };
    let refused = answers.answer(alloc, number, line, &mut batch.text)?;
    batch.text.push(b'\n')?;
    batch.count = number;
    batch.refused = batch.refused || refused;
    Ok(())
}

// Writes the answers that wait.
fn write_batch<K: Sink>(batch: &mut Batch, out: &mut K) -> Result<(), Failed>
    ensures { IsPassedOn batch.old batch.new (K.told out.old) (K.told out.new) result }
{
    write_bytes(out, &batch.text)?;
    batch.text.clear();
    Ok(())
}

/// Writes the answers that wait, and then what the sink holds back.
pub(crate) fn pass_on<K: Sink>(batch: &mut Batch, out: &mut K) -> Result<(), Failed>
    ensures written { IsPassedOn batch.old batch.new (K.told out.old) (K.told out.new) result }
    ensures passed_on { OnOk result (K.holds_back out.new ≡ false) }
{
    write_all(out, &batch.text)?;
    batch.text.clear();
    Ok(())
}

/// Answers the next line by the bytes that serve for it, and writes the answers that wait where they are many.
pub(crate) fn answer_next<A: AnswerLine, K: Sink>(
    alloc: Global,
    answers: &A,
    line: &[u8],
    batch: &mut Batch,
    out: &mut K,
) -> Result<(), AnswerFault>
    ensures { (done : List (List ℕ)) (whole : List ℕ) (start : Shown) → ServesFor (A.answers answers.now) line.now whole → IsSoFar (A.answers answers.now) done batch.old start (K.told out.old) → MatchResult result
        (λ _. IsSoFar (A.answers answers.now) (done ++ whole ∷ []) batch.new start (K.told out.new))
        (λ e. EndsIn (A.answers answers.now) (done ++ whole ∷ []) e start (K.told out.new)) }
{
    add_answer(alloc, answers, line, batch)?;
    if batch.text.len() < BATCH {
        return Ok(());
    }
    write_batch(batch, out)?;
    Ok(())
}
