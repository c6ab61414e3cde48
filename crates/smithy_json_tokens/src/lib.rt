//! The tokens of a JSON text (RFC 8259), one at a time, and calls that take them.
#![tactic(auto)]

mod counting;
mod document;
mod error;
mod expect;
mod expect_blob;
mod expect_number_text;
mod expect_text;
mod frames;
mod is_token;
mod run_token;
mod skip;
mod string_end;
mod token;
mod token_iter;
mod token_scan;
mod token_turn;
mod tokens_of;

pub use counting::container_size;
pub use document::expect_document;
pub use error::{DeserializeError, DeserializeErrorKind};
pub use expect::{
    expect_bool_or_null, expect_number_or_null, expect_start_array, expect_start_object,
    expect_string_or_null,
};
pub use expect_blob::expect_blob_or_null;
pub use expect_number_text::expect_number_as_string_or_null;
pub use expect_text::expect_timestamp_or_null;
pub use is_token::IsToken;
pub use skip::{skip_to_end, skip_value};
pub use token::{Offset, Token};
pub use token_iter::JsonTokenIterator;
pub use tokens_of::json_token_iter;
