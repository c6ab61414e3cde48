//! Texts of numbers and of bytes: digits, decimals, big numbers that keep their text, and base64; and what grows by texts.
#![tactic(auto)]

mod append_text;
pub mod base64_text;
mod big_decimal;
mod big_integer;
pub mod decimal_text;
pub mod numeral;
mod written_decimal;

pub use append_text::AppendText;
pub use big_decimal::BigDecimal;
pub use big_integer::{BigInteger, BigNumberError, TooWide};
pub use written_decimal::push_decimal;
