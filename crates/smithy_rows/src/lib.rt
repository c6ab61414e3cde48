//! Rows of test data: text files that programs go through, a row at a time (docs/ROWS.md).
#![tactic(auto)]

mod answers;
mod check;
mod field;
mod rows;

pub use answers::Answers;
pub use check::{Program, run};
pub use field::{bytes_of, shown};
pub use rows::{Field, Row, Rows};
