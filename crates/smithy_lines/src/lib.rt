//! The lines of bytes, and an answer to each of them on a line of its own.
//!
//! `AnswerLine` says what the answer to a line is. `answer_all` answers the lines of bytes in memory. `answer_each` answers the lines
//! of a source, and holds one piece of the source and one line at a time.
#![tactic(auto)]

mod answer;
mod batch;
mod each;
mod finding;
mod listing;
mod streaming;
mod up_to;

pub use answer::{AnswerFault, AnswerLine, StreamFault};
pub use each::answer_each;
pub use listing::answer_all;
