//! Forms, read back as values.
#![tactic(auto)]

ghost use Rattle.smithy_form.specs.Laws.{OneValue};

mod entries;
mod error;
mod find;
mod names;
mod pairs;
mod percent;
mod pieces;
mod reading;
mod scalars;
mod sorting;
mod whole;

pub use error::FormError;
pub use whole::{Form, read_form};

/// Pairs are the leaves of at most one plain value of a structure.
pub fn one_value()
    ensures { OneValue }
{}
