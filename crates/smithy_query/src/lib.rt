//! Forms of AWS Query: texts that are percent-encoded, and writers of forms.
#![tactic(auto)]

mod pairs;
mod path;
mod percent;
mod writer;

pub use percent::push_encoded;
pub use writer::{QueryListWriter, QueryMapWriter, QueryValueWriter, QueryWriter};
