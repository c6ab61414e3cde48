//! Answers with a limit on the length of lines.
ghost use Rattle.std.specs.Prelude.{◌≡◌, ◌++◌, ℕ, List, true};

use crate::answer::AnswerLine;
use std::alloc::{AllocError, Global};

/// Answers the lines of at most `longest` bytes, and refuses the longer ones.
#[derive(Drop)]
pub(crate) struct UpTo<'a, A: AnswerLine> {
    pub(crate) answers: &'a A,
    pub(crate) longest: usize,
}

impl<'a, A: AnswerLine> AnswerLine for UpTo<'a, A> {
    ghost use Rattle.smithy_lines.specs.Sources.{AnswersUpTo};

    ghost answers = { λ u. AnswersUpTo u.longest (A.answers u.answers.now) (A.refuses u.answers.now) };

    ghost refuses = { λ u. A.refuses u.answers.now };

    fn answer(
        &self,
        alloc: Global,
        number: u64,
        line: &[u8],
        text: &mut Vec<u8>,
    ) -> Result<bool, AllocError> {
        if line.len() <= self.longest {
            return self.answers.answer(alloc, number, line, text);
        }
        self.answers.refuse_long(alloc, number, text)?;
        Ok(true)
    }

    fn refuse_long(
        &self,
        alloc: Global,
        number: u64,
        text: &mut Vec<u8>,
    ) -> Result<(), AllocError> {
        self.answers.refuse_long(alloc, number, text)
    }
}
