//! Whole bodies of any wire, read and written, and the transcoding of one.
#![tactic(auto)]

mod expressing;
mod pool_input;
mod refusal;
mod transcoding;
mod value_test;
mod whole_input;
mod whole_output;
mod wire;

pub use expressing::{expressible, expressible_at};
pub use pool_input::read_body_into;
pub use smithy_value::{Value, read_value, write_value};
pub use transcoding::transcode;
pub use whole_input::read_body;
pub use whole_output::write_body;
pub use wire::{TranscodeError, Unfit, Wire};
