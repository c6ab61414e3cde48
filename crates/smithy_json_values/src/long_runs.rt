//! Integers of an array, one after another.

ghost use Rattle.std.specs.Prelude.{◌≡◌, ◌≤◌, length, take, IfSome};
ghost use Rattle.smithy_json_values.specs.Spans.{IsSeparated};
ghost use Rattle.smithy_json_values.specs.Private.LongRuns.{IsNextLong, LongsAt};

use crate::places::byte_end;
use smithy_json_grammar::number_text::read_long;
use smithy_json_grammar::scan::skip_blanks;

/// Integers that were found one after another in an array.
#[derive(Clone, Copy)]
pub struct LongRun {
    /// How many there are.
    pub count: usize,
    /// The offset behind the last one.
    pub end: usize,
}

// Where the next element of the array is due: behind a comma, if an element has come before it.
#[inline(always)]
fn next_place(input: &[u8], at: usize, entered: bool) -> Option<usize>
    requires { at ≤ length input.now }
    ensures separated { IfSome result (IsSeparated entered input.now at) }
    ensures within { IfSome result (λ place. place ≤ length input.now) }
{
    if entered {
        return byte_end(input, at, b',');
    }
    Some(at)
}

// The integer of 64 bits that is the next element of the array, with its end.
#[inline(always)]
fn next_long(input: &[u8], at: usize, entered: bool) -> Option<(i64, usize)>
    requires { at ≤ length input.now }
    ensures { IfSome result (λ r. IsNextLong input.now at entered r.0 r.1) }
{
    let place = next_place(input, at, entered)?;
    let start = skip_blanks(input, place);
    if start >= input.len() {
        return None;
    }
    if input[start] == b']' {
        return None;
    }
    read_long(input, start)
}

/// The integers of 64 bits that come next in the array inside of which the offset lies, as many as there is room for. An integer that
/// isn't written as RFC 8259 has it ends them.
pub fn longs_at(input: &[u8], at: usize, entered: bool, room: &mut [i64]) -> LongRun
    requires { at ≤ length input.now }
    ensures room { length room.new ≡ length room.old }
    ensures count { result.count ≤ length room.new }
    ensures within { result.end ≤ length input.now }
    ensures run { LongsAt input.now at entered (take result.count room.new) result.end }
{
    let mut count = 0;
    let mut end = at;
    let mut behind = entered;
    'longs: while count < room.len() {
        let Some((number, next)) = next_long(input, end, behind) else {
            break;
        };
        room[count] = number;
        count += 1;
        end = next;
        behind = true;
    }
    LongRun { count, end }
}
