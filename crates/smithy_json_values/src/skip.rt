//! Where a value ends that is skipped.

ghost use Rattle.std.specs.Prelude.{◌≡◌, ◌<◌, ◌≤◌, ◌+◌, ◌-◌, ◌&&◌, ℕ, List, length, get_or, slice_range, true, false, IfSome, IfNone};
ghost use Rattle.smithy_json_grammar.specs.Ascii.{begin_array, begin_object};
ghost use Rattle.smithy_json_grammar.specs.Standing.{IsQuotedAt};
ghost use Rattle.smithy_json_values.specs.Codec.{held_grammar};
ghost use Rattle.smithy_json_values.specs.LexicalGrammar.{is_skipped_in, NodeLies};
ghost use Rattle.smithy_json_values.specs.Scalar.{a_string};
ghost use Rattle.smithy_json_values.specs.Spans.{Lies};
ghost use Rattle.smithy_json_values.specs.Tokens.{IsNameToken};
ghost use Rattle.smithy_json_values.specs.Private.NextInContainer.{IsFirstByte};
ghost use Rattle.smithy_json_values.specs.Private.SkippedEnd.{FindsEnd};
ghost use Rattle.smithy_json_values.specs.Private.Skipping.{skip_refusal, ScalarLies, NoValueLies, BeginsAs, GoesOnInside, IsNextStep};
ghost use Rattle.smithy_wire.specs.Node.{leaf};

use crate::input::Input;
use crate::number_runs::{NumberSort, number_of};
use crate::places::{InList, byte_end, first_byte, next_in_list, next_name_place, null_end};
use crate::values::{boolean_at, may_follow};
use smithy_json_grammar::quoted_text::{escapes_are_valid, is_plain_text, scan_quoted};
use smithy_json_grammar::scan::skip_blanks;
use smithy_json_grammar::string_text::scan_string;
use smithy_json_settings::Settings;
use smithy_schema::SerdeError;

// The greatest depth that settings may allow.
const MAX_ALLOWED_DEPTH: usize = 512;

/// Why nothing is skipped.
#[derive(Clone, Copy)]
pub enum SkipFault {
    /// No value lies there, however many containers may be open.
    NoValue,
    /// A container opens inside of as many as may be open.
    TooDeep,
}

impl SkipFault {
    /// The error of a reader that refuses for it.
    pub fn refusal(self) -> SerdeError
        ensures { result ≡ skip_refusal self }
    {
        match self {
            SkipFault::NoValue => SerdeError::InvalidInput,
            SkipFault::TooDeep => SerdeError::TooDeep,
        }
    }
}

// How a value begins: as an object or an array, with the offset of its inside, or as a scalar, with
// its end.
#[derive(Clone, Copy)]
enum Beginning {
    Container(bool, usize),
    Scalar(usize),
}

// Whether a string may be skipped, where the settings don't ask both for valid escapes and for plain text.
fn may_skip_text(bytes: &[u8], settings: &Settings) -> bool
    requires { (settings.now.validate_skipped_string_encoding && settings.now.validate_skipped_values) ≡ false }
    ensures { result ≡ (held_grammar settings.now).is_skipped_text bytes.now }
{
    if settings.validate_skipped_string_encoding {
        return is_plain_text(bytes);
    }
    if settings.validate_skipped_values {
        return escapes_are_valid(bytes);
    }
    true
}

// The closing quotation mark of the string at the offset, as it is skipped.
#[inline(always)]
fn skipped_closing(input: &[u8], start: usize, settings: &Settings) -> Option<usize>
    requires { start ≤ length input.now }
    ensures found { IfSome result (λ closing. IsQuotedAt input.now start closing) }
    ensures valid { IfSome result (λ closing. (held_grammar settings.now).is_skipped_text (slice_range input.now (start + 1) closing) ≡ true) }
    ensures none { IfNone result ((closing : ℕ) → IsQuotedAt input.now start closing → (held_grammar settings.now).is_skipped_text (slice_range input.now (start + 1) closing) ≡ true → ⊥) }
{
    if settings.validate_skipped_string_encoding && settings.validate_skipped_values {
        let string = scan_string(input, start)?;
        return Some(string.closing);
    }
    let quoted = scan_quoted(input, start)?;
    if !may_skip_text(quoted.bytes, settings) {
        return None;
    }
    Some(quoted.closing)
}

// The end of the string that comes first behind blanks, as it is skipped.
#[inline(always)]
fn skipped_string_end(input: &[u8], at: usize, settings: &Settings) -> Option<usize>
    requires { at ≤ length input.now }
    ensures found { IfSome result (λ e. (raw : List ℕ) × NodeLies (held_grammar settings.now) (is_skipped_in (held_grammar settings.now)) 1 (leaf (a_string raw)) input.now at e) }
    ensures none { IfNone result ((raw : List ℕ) (e : ℕ) → NodeLies (held_grammar settings.now) (is_skipped_in (held_grammar settings.now)) 1 (leaf (a_string raw)) input.now at e → ⊥) }
{
    let closing = skipped_closing(input, skip_blanks(input, at), settings)?;
    may_follow(input, closing + 1, settings).then_some(closing + 1)
}

// The offset behind the name that comes first behind blanks, and behind its colon, as it is skipped.
#[inline(always)]
fn skipped_name_end(input: &[u8], at: usize, settings: &Settings) -> Option<usize>
    requires { at ≤ length input.now }
    ensures found { IfSome result (λ e. (raw : List ℕ) × Lies (IsNameToken raw) input.now at e × ((held_grammar settings.now).is_skipped_text raw ≡ true)) }
    ensures none { IfNone result ((raw : List ℕ) (e : ℕ) → Lies (IsNameToken raw) input.now at e → (held_grammar settings.now).is_skipped_text raw ≡ true → ⊥) }
{
    let closing = skipped_closing(input, skip_blanks(input, at), settings)?;
    byte_end(input, closing + 1, b':')
}

// The end of the scalar at the offset, which begins with this byte.
#[inline(always)]
fn scalar_end(input: &[u8], at: usize, first: u8, settings: &Settings) -> Option<usize>
    requires first { IsFirstByte input.now at first at }
    requires no_array { first ≡ begin_array → ⊥ }
    requires no_object { first ≡ begin_object → ⊥ }
    ensures found { IfSome result (λ e. ScalarLies (held_grammar settings.now) (is_skipped_in (held_grammar settings.now)) input.now at e) }
    ensures none { IfNone result (NoValueLies (held_grammar settings.now) (is_skipped_in (held_grammar settings.now)) input.now at) }
{
    if first == b'"' {
        return skipped_string_end(input, at, settings);
    }
    if first == b'n' {
        return null_end(input, at, settings);
    }
    if first == b't' || first == b'f' {
        let (_, end) = boolean_at(input, at, settings)?;
        return Some(end);
    }
    let (_, end) = number_of(NumberSort::OfGrammar, input, at, settings)?;
    Some(end)
}

#[inline(always)]
fn beginning_of(input: &[u8], at: usize, settings: &Settings) -> Option<Beginning>
    requires { at ≤ length input.now }
    ensures { BeginsAs (held_grammar settings.now) input.now at result }
{
    let (first, start) = first_byte(input, at)?;
    if first == b'[' {
        return Some(Beginning::Container(false, start + 1));
    }
    if first == b'{' {
        return Some(Beginning::Container(true, start + 1));
    }
    let end = scalar_end(input, start, first, settings)?;
    Some(Beginning::Scalar(end))
}

// What comes next in the object or the array inside of which the offset lies: a value, behind its name in an object, or the end.
#[inline(always)]
fn next_inside(
    input: &[u8],
    at: usize,
    is_object: bool,
    entered: bool,
    depth: usize,
    settings: &Settings,
) -> Option<InList>
    requires { at ≤ length input.now }
    ensures { GoesOnInside (held_grammar settings.now) input.now at is_object entered depth result }
{
    if !is_object {
        return next_in_list(input, at, entered, depth, settings);
    }
    match next_name_place(input, at, entered, depth, settings)? {
        InList::Element(place) => {
            let start = skipped_name_end(input, place, settings)?;
            Some(InList::Element(start))
        }
        InList::End(end) => Some(InList::End(end)),
    }
}

// One step on the way through a container: past a scalar, into an object or an array, to a value
// that is due, or out of the innermost container.
enum Step {
    PastScalar(usize),
    IntoContainer(bool, usize),
    ToValue(usize),
    OutOfContainer(usize),
}

// The next step, where a value is due or else the innermost container goes on.
#[inline(always)]
fn next_step(
    input: &Input<'_>,
    at: usize,
    due: bool,
    entered: bool,
    is_object: &[bool],
    count: usize,
    depth: usize,
) -> Option<Step>
    requires within { at ≤ length input.now.bytes.now }
    requires inside { due ≡ false → 0 < count }
    requires room { count ≤ length is_object.now }
    ensures { IsNextStep (held_grammar input.now.settings) input.now.bytes.now at due (get_or is_object.now (count - 1) false) entered depth result }
{
    let bytes = input.bytes;
    let settings = &input.settings;
    if due {
        return match beginning_of(bytes, at, settings)? {
            Beginning::Scalar(end) => Some(Step::PastScalar(end)),
            Beginning::Container(kind, inside) => Some(Step::IntoContainer(kind, inside)),
        };
    }
    match next_inside(bytes, at, is_object[count - 1], entered, depth, settings)? {
        InList::Element(start) => Some(Step::ToValue(start)),
        InList::End(end) => Some(Step::OutOfContainer(end)),
    }
}

/// The end of the value that lies at the offset inside so many containers, of whatever kind. No
/// more containers may be open at once than the settings say.
pub fn skipped_end(input: Input<'_>, at: usize, depth: usize) -> Result<usize, SkipFault>
    requires within { at ≤ length input.bytes.now }
    requires shallow { depth ≤ input.settings.max_depth }
    ensures { FindsEnd (held_grammar input.entry.settings) input.entry.settings.max_depth depth input.entry.bytes.now at result }
{
    match beginning_of(input.bytes, at, &input.settings) {
        Some(Beginning::Scalar(end)) => Ok(end),
        Some(Beginning::Container(_, _)) => container_end(input, at, depth),
        None => Err(SkipFault::NoValue),
    }
}

fn container_end(input: Input<'_>, at: usize, depth: usize) -> Result<usize, SkipFault>
    requires within { at ≤ length input.bytes.now }
    requires shallow { depth ≤ input.settings.max_depth }
    ensures { FindsEnd (held_grammar input.entry.settings) input.entry.settings.max_depth depth input.entry.bytes.now at result }
{
    let mut at = at;
    let mut due = true;
    let mut entered = false;
    let mut open: usize = 0;
    let mut is_object = [false; MAX_ALLOWED_DEPTH];
    while due || 0 < open {
        let Some(step) = next_step(&input, at, due, entered, &is_object, open, depth + open) else {
            return Err(SkipFault::NoValue);
        };
        match step {
            Step::PastScalar(end) => {
                at = end;
                due = false;
                entered = true;
            }
            Step::IntoContainer(kind, inside) => {
                if depth + open >= input.settings.max_depth {
                    return Err(SkipFault::TooDeep);
                }
                is_object[open] = kind;
                open += 1;
                at = inside;
                due = false;
                entered = false;
            }
            Step::ToValue(start) => {
                at = start;
                due = true;
            }
            Step::OutOfContainer(end) => {
                at = end;
                open -= 1;
                entered = true;
            }
        }
    }
    Ok(at)
}
