//! Instants and their texts: seconds, date-time (RFC 3339) and http-date (RFC 9110).
#![tactic(auto)]

mod calendar;
mod date_front;
mod date_text;
mod date_time;
mod display;
mod epoch;
mod format;
mod written_date;

pub use date_text::DateTimeParseError;
pub use date_time::{ConversionError, DateTime};
pub use epoch::{EpochError, read_epoch};
pub use format::Format;
pub use written_date::DateTimeFormatError;
