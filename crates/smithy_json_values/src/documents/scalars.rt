//! How a document's value begins, and its scalars.

ghost use Rattle.std.specs.Prelude.{◌≡◌, ◌⊎◌, ◌≤◌, ℕ, List, length};
ghost use Rattle.smithy_json_grammar.specs.Ascii.{begin_array, begin_object};
ghost use Rattle.smithy_wire.specs.Finding.{MatchFound};
ghost use Rattle.smithy_json_values.specs.declared.documents.scalars.BeginFault.TheVariants.{NoMemory};
ghost use Rattle.smithy_json_values.specs.Codec.{held_grammar};
ghost use Rattle.smithy_json_values.specs.Documents.{OtherNumberLies};
ghost use Rattle.smithy_json_values.specs.Private.NextInContainer.{IsFirstByte};
ghost use Rattle.smithy_json_values.specs.Private.OpenDocuments.{HeldNumberLies, NoNumberLies, BeginsDocument};

use crate::number_runs::{NumberSort, number_of};
use crate::places::{first_byte, null_end};
use crate::texts::text_at;
use crate::values::boolean_at;
use smithy_json_grammar::number_text::read_long;
use smithy_json_grammar::{number_of_long, number_of_text};
use smithy_json_settings::Settings;
use smithy_types::{Document, Number};
use smithy_wire::Found;
use std::alloc::{AllocError, Global};

/// How a value begins.
#[derive(Drop)]
pub enum Begun {
    /// As a scalar, which is read, with the offset behind it.
    Scalar(Document, usize),
    /// As an object, or else as an array, with the offset of its inside.
    Container(bool, usize),
}

/// Why no value of a document begins.
#[derive(Clone, Copy)]
pub enum BeginFault {
    /// No document begins there, whatever the limits.
    NoValue,
    /// A number lies there that no document holds.
    NotCarried,
    /// An allocation was refused.
    NoMemory,
}

impl From<AllocError> for BeginFault {
    ghost from_gives = { λ _ fault. fault ≡ NoMemory };

    fn from(_error: AllocError) -> BeginFault {
        BeginFault::NoMemory
    }
}

// The number at the offset, with its end. It stays a call, so that the common case is short.
#[inline(never)]
fn any_number_at(input: &[u8], at: usize, settings: &Settings) -> Found<(Number, usize)>
    requires { at ≤ length input.now }
    ensures { MatchFound result (λ r. HeldNumberLies (held_grammar settings.now) input.now at r.0 r.1) (NoNumberLies (held_grammar settings.now) input.now at) (OtherNumberLies (held_grammar settings.now) input.now at) }
{
    let Some((text, end)) = number_of(NumberSort::Decimal, input, at, settings) else {
        return Found::Nothing;
    };
    match number_of_text(text) {
        Some(number) => Found::Value((number, end)),
        None => Found::Beyond,
    }
}

// The number at the offset, which begins with this byte, with its end. A whole number of RFC 8259 is read in line, as documents
// hold it under all settings.
#[inline(always)]
fn held_number_at(input: &[u8], at: usize, first: u8, settings: &Settings) -> Found<(Number, usize)>
    requires first { IsFirstByte input.now at first at }
    ensures { MatchFound result (λ r. HeldNumberLies (held_grammar settings.now) input.now at r.0 r.1) (NoNumberLies (held_grammar settings.now) input.now at) (OtherNumberLies (held_grammar settings.now) input.now at) }
{
    if let Some((value, end)) = read_long(input, at) {
        return Found::Value((number_of_long(first == b'-', value), end));
    }
    any_number_at(input, at, settings)
}

fn text_begun(
    alloc: Global,
    input: &[u8],
    at: usize,
    settings: &Settings,
) -> Result<Begun, BeginFault>
    requires { IsFirstByte input.now at 0x22 at }
    ensures { BeginsDocument (held_grammar settings.now) input.now at result }
{
    let Some((text, end)) = text_at(alloc, input, at, settings)? else {
        return Err(BeginFault::NoValue);
    };
    Ok(Begun::Scalar(Document::String(text), end))
}

fn null_begun(input: &[u8], at: usize, settings: &Settings) -> Result<Begun, BeginFault>
    requires { IsFirstByte input.now at 0x6e at }
    ensures { BeginsDocument (held_grammar settings.now) input.now at result }
{
    match null_end(input, at, settings) {
        Some(end) => Ok(Begun::Scalar(Document::Null, end)),
        None => Err(BeginFault::NoValue),
    }
}

fn boolean_begun(
    input: &[u8],
    at: usize,
    first: u8,
    settings: &Settings,
) -> Result<Begun, BeginFault>
    requires first { IsFirstByte input.now at first at }
    requires letter { (first ≡ 0x74) ⊎ (first ≡ 0x66) }
    ensures { BeginsDocument (held_grammar settings.now) input.now at result }
{
    match boolean_at(input, at, settings) {
        Some((value, end)) => Ok(Begun::Scalar(Document::Bool(value), end)),
        None => Err(BeginFault::NoValue),
    }
}

#[inline(always)]
fn number_begun(
    input: &[u8],
    at: usize,
    first: u8,
    settings: &Settings,
) -> Result<Begun, BeginFault>
    requires first { IsFirstByte input.now at first at }
    requires no_string { first ≡ 0x22 → ⊥ }
    requires no_null { first ≡ 0x6e → ⊥ }
    requires no_true { first ≡ 0x74 → ⊥ }
    requires no_false { first ≡ 0x66 → ⊥ }
    requires no_array { first ≡ begin_array → ⊥ }
    requires no_object { first ≡ begin_object → ⊥ }
    ensures { BeginsDocument (held_grammar settings.now) input.now at result }
{
    match held_number_at(input, at, first, settings) {
        Found::Value((number, end)) => Ok(Begun::Scalar(Document::Number(number), end)),
        Found::Nothing => Err(BeginFault::NoValue),
        Found::Beyond => Err(BeginFault::NotCarried),
    }
}

// The scalar at the offset, which begins with this byte.
#[inline(always)]
fn scalar_begun(
    alloc: Global,
    input: &[u8],
    at: usize,
    first: u8,
    settings: &Settings,
) -> Result<Begun, BeginFault>
    requires first { IsFirstByte input.now at first at }
    requires no_array { first ≡ begin_array → ⊥ }
    requires no_object { first ≡ begin_object → ⊥ }
    ensures { BeginsDocument (held_grammar settings.now) input.now at result }
{
    if first == b'"' {
        return text_begun(alloc, input, at, settings);
    }
    if first == b'n' {
        return null_begun(input, at, settings);
    }
    if first == b't' || first == b'f' {
        return boolean_begun(input, at, first, settings);
    }
    number_begun(input, at, first, settings)
}

/// How the value begins that comes first behind blanks.
#[inline(always)]
pub fn document_begun(
    alloc: Global,
    input: &[u8],
    at: usize,
    settings: &Settings,
) -> Result<Begun, BeginFault>
    requires { at ≤ length input.now }
    ensures { BeginsDocument (held_grammar settings.now) input.now at result }
{
    let Some((first, start)) = first_byte(input, at) else {
        return Err(BeginFault::NoValue);
    };
    if first == b'[' {
        return Ok(Begun::Container(false, start + 1));
    }
    if first == b'{' {
        return Ok(Begun::Container(true, start + 1));
    }
    scalar_begun(alloc, input, start, first, settings)
}
