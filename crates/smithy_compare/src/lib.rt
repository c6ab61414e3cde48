//! Two recorded bodies, compared as the values that they spell.
#![tactic(auto)]

mod comparing;
mod node;
mod parts;
mod path;
mod walk;

pub use comparing::{CompareError, Compared, compare};
pub use path::{PathPart, path_text};
