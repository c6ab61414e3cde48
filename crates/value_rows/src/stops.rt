//! Where a scan of a string's text stops.

use crate::allowed_numbers::call_allowed_number;
use crate::words::{input_of, split};
use smithy_json_grammar::scan;
use smithy_rows::{Answers, Row};
use std::alloc::{AllocError, Global};

fn stop(row: &Row, controls: bool, answers: &mut Answers) -> Result<(), AllocError> {
    let input = input_of(row);
    let at = row.text("at").unwrap_or("0").parse::<usize>().unwrap_or(0);
    if at > input.len() {
        return answers.refused("no such place");
    }
    answers.text("end", scan::stop(input, at, controls))
}

// So many letters, of which the one at the place is this byte instead.
fn letters_with(
    alloc: Global,
    length: usize,
    place: usize,
    byte: u8,
) -> Result<Vec<u8>, AllocError> {
    let mut letters = Vec::new(alloc);
    for i in 0..length {
        letters.push(if i == place { byte } else { b'a' })?;
    }
    Ok(letters)
}

// From how many places on a scan stops at this place, which isn't before them, and from how many it comes to the end.
fn count_stops(input: &[u8], place: usize, controls: bool) -> (usize, usize) {
    let mut stopped: usize = 0;
    let mut passed: usize = 0;
    for at in 0..=input.len() {
        let end = scan::stop(input, at, controls);
        if end == input.len() {
            passed = passed.saturating_add(1);
        } else if at <= place && end == place {
            stopped = stopped.saturating_add(1);
        }
    }
    (stopped, passed)
}

// The same, of all inputs of at most so many letters, of which one is this byte.
fn stops_everywhere(
    alloc: Global,
    longest: usize,
    byte: u8,
    controls: bool,
    answers: &mut Answers,
) -> Result<(), AllocError> {
    let mut stopped: usize = 0;
    let mut passed: usize = 0;
    for length in 0..=longest {
        for place in 0..length {
            let input = letters_with(alloc, length, place, byte)?;
            let (here, through) = count_stops(&input, place, controls);
            stopped = stopped.saturating_add(here);
            passed = passed.saturating_add(through);
        }
    }
    answers.text("stopped", stopped)?;
    answers.text("passed", passed)
}

/// Answers a call by its name and what stands behind it.
pub fn call_stop(
    alloc: Global,
    row: &Row,
    name: &str,
    rest: &str,
    answers: &mut Answers,
) -> Result<(), AllocError> {
    match name {
        "stop" => stop(row, rest == "true", answers),
        "stop_everywhere" => {
            let (longest, controls) = split(rest);
            let longest = longest.parse::<usize>().unwrap_or(0);
            let byte = match input_of(row) {
                [byte, ..] => *byte,
                [] => b'a',
            };
            stops_everywhere(alloc, longest, byte, controls == "true", answers)
        }
        _ => call_allowed_number(alloc, row, name, rest, answers),
    }
}
