//! Numbers with what a reader may allow, and whole numbers that are written in a lenient way.

use crate::strings::call_string;
use crate::words::input_of;
use smithy_json_grammar::number_grammar::{NumberGrammar, is_number_of, scan_number_of};
use smithy_json_grammar::number_run::{integral_number, number_run_end, read_signed};
use smithy_rows::{Answers, Row};
use std::alloc::{AllocError, Global};

// The grammar that allows what is named, all of it, or nothing.
fn grammar_of(name: &str) -> NumberGrammar {
    let mut grammar = NumberGrammar::default();
    let all = name == "all";
    grammar.allow_leading_zeros = all || name == "leading_zeros";
    grammar.allow_trailing_decimal_point = all || name == "trailing_decimal_point";
    grammar.allow_empty_integer_part = all || name == "empty_integer_part";
    grammar
}

// The end of the number under this grammar.
fn number(name: &str, input: &[u8], answers: &mut Answers) -> Result<(), AllocError> {
    match scan_number_of(grammar_of(name), input, 0) {
        Some(end) => answers.text(name, end),
        None => answers.text(name, "none"),
    }
}

// The end of the number under each grammar in turn.
fn numbers(input: &[u8], answers: &mut Answers) -> Result<(), AllocError> {
    number("nothing", input, answers)?;
    number("leading_zeros", input, answers)?;
    number("trailing_decimal_point", input, answers)?;
    number("empty_integer_part", input, answers)?;
    number("all", input, answers)
}

fn signed(input: &[u8], answers: &mut Answers) -> Result<(), AllocError> {
    match read_signed(input, 0) {
        Some((value, end)) => {
            answers.text("long", value)?;
            answers.text("end", end)
        }
        None => answers.none(),
    }
}

fn integral(text: &[u8], answers: &mut Answers) -> Result<(), AllocError> {
    match integral_number(text) {
        Some(value) => answers.text("long", value),
        None => answers.none(),
    }
}

/// Answers a call by its name and what stands behind it.
pub fn call_allowed_number(
    alloc: Global,
    row: &Row,
    name: &str,
    rest: &str,
    answers: &mut Answers,
) -> Result<(), AllocError> {
    let input = input_of(row);
    match name {
        "scan_number_of" => numbers(input, answers),
        "is_number_of" => answers.text("is_number", is_number_of(grammar_of(rest), input)),
        "number_run_end" => answers.text("end", number_run_end(input, 0)),
        "read_signed" => signed(input, answers),
        "integral_number" => integral(input, answers),
        _ => call_string(alloc, row, name, rest, answers),
    }
}
