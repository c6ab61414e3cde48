//! The containers of a document that are open.

ghost use Rattle.std.specs.Prelude.{◌≡◌, [], ◌∷◌, vec_items, string_bytes, Some, IfOk, MatchOption, if◌then◌else◌};
ghost use Rattle.smithy_json_grammar.specs.EscapedText.{escaped_text};
ghost use Rattle.smithy_types.specs.Document.{put_property};
ghost use Rattle.smithy_types.specs.DocumentView.{document_view, elements_view, properties_view};
ghost use Rattle.smithy_json_tokens.specs.DocumentSteps.{in_array, in_object, add_element, put_value, where_value, goes_on, document_step, Step, TakesMemory};
ghost use Rattle.smithy_json_tokens.specs.Faults.{error_at, IsCustomKind};
ghost use Rattle.smithy_json_tokens.specs.Private.Frames.{frame_view, frames_view, Makes, IsOwnTextAt};
ghost use Rattle.smithy_json_tokens.specs.TokenView.{token_view, token_offset};
ghost use Rattle.smithy_json_tokens.specs.Tokens.{value_string, end_array, end_object, object_key};
ghost use Rattle.smithy_json_tokens.specs.declared.error.DeserializeErrorKind.TheVariants.{NoMemory};

use crate::error::{DeserializeError, DeserializeErrorKind};
use crate::expect::expected;
use crate::expect_text::unescaped_at;
use crate::token::Token;
use smithy_json_grammar::EscapedStr;
use smithy_types::Document;
use std::alloc::{AllocError, Global};
use std::collections::BTreeMap;

/// How many values may stand inside one another, scalars too.
const MAX_DOCUMENT_DEPTH: usize = 256;

/// A container that is open.
#[derive(Drop)]
pub(crate) enum Frame {
    /// An array with its elements so far.
    InArray(Vec<Document>),
    /// An object with its properties so far, where a name is due.
    InObject(BTreeMap<String, Document>),
    /// An object with its properties so far, and the name whose value is due.
    BehindName(BTreeMap<String, Document>, String),
}

fn wrong(at: usize) -> DeserializeError
    ensures offset { result.offset ≡ Some at }
    ensures kind { IsCustomKind result.kind }
{
    expected("expected a document", Some(at))
}

fn no_memory(at: usize) -> DeserializeError
    ensures { result ≡ error_at NoMemory at }
{
    DeserializeError {
        kind: DeserializeErrorKind::NoMemory,
        offset: Some(at),
    }
}

// One more container, the innermost.
#[tactic(auto, using(crate::proofs::FrameLemmas::frames_push))]
fn push(
    frames: &mut Vec<Frame>,
    frame: Frame,
    at: usize,
) -> Result<Option<Document>, DeserializeError>
    ensures { Makes (goes_on (frame_view frame ∷ frames_view (vec_items frames.old))) at result (vec_items frames.new) }
{
    match frames.push(frame) {
        Ok(()) => Ok(None),
        Err(_) => Err(no_memory(at)),
    }
}

// The innermost container, which leaves.
fn pop(frames: &mut Vec<Frame>) -> Option<Frame>
    ensures { MatchOption result (frames_view (vec_items frames.old) ≡ []) (λ frame. frames_view (vec_items frames.old) ≡ frame_view frame ∷ frames_view (vec_items frames.new)) }
{
    frames.pop()
}

fn with_element(elements: Vec<Document>, value: Document) -> Result<Frame, AllocError>
    ensures { IfOk result (λ frame. frame_view frame ≡ in_array (add_element (elements_view elements.items) (document_view value))) }
{
    let mut elements = elements;
    elements.push(value)?;
    Ok(Frame::InArray(elements))
}

fn with_property(
    properties: BTreeMap<String, Document>,
    name: String,
    value: Document,
) -> Result<Frame, AllocError>
    ensures { IfOk result (λ frame. frame_view frame ≡ in_object (put_property (string_bytes name) (document_view value) (properties_view properties.entries))) }
{
    let mut properties = properties;
    drop(properties.insert(name, value)?);
    Ok(Frame::InObject(properties))
}

fn push_made(
    frames: &mut Vec<Frame>,
    made: Result<Frame, AllocError>,
    at: usize,
) -> Result<Option<Document>, DeserializeError>
    ensures { (step : Step) → TakesMemory step → IfOk made (λ frame. step ≡ goes_on (frame_view frame ∷ frames_view (vec_items frames.old))) → Makes step at result (vec_items frames.new) }
{
    match made {
        Ok(frame) => push(frames, frame, at),
        Err(_) => Err(no_memory(at)),
    }
}

// A value that ends.
fn put(
    frames: &mut Vec<Frame>,
    value: Document,
    at: usize,
) -> Result<Option<Document>, DeserializeError>
    ensures { Makes (put_value (document_view value) (frames_view (vec_items frames.old))) at result (vec_items frames.new) }
{
    let Some(frame) = pop(frames) else {
        return Ok(Some(value));
    };
    match frame {
        Frame::InArray(elements) => push_made(frames, with_element(elements, value), at),
        Frame::BehindName(properties, name) => {
            push_made(frames, with_property(properties, name, value), at)
        }
        Frame::InObject(_) => Err(wrong(at)),
    }
}

// Whether a value may begin: not where a name is due, and inside fewer than 256 values.
fn value_may_begin(frames: &[Frame]) -> bool
    ensures { (step : Step) → where_value (frames_view frames.now) step ≡ (if result then step else Step.wrong) }
{
    if frames.is_empty() {
        return true;
    }
    match &frames[frames.len() - 1] {
        Frame::InArray(_) => frames.len() < MAX_DOCUMENT_DEPTH,
        Frame::BehindName(_, _) => frames.len() < MAX_DOCUMENT_DEPTH,
        Frame::InObject(_) => false,
    }
}

// The start of a container.
fn begin(
    frames: &mut Vec<Frame>,
    frame: Frame,
    at: usize,
) -> Result<Option<Document>, DeserializeError>
    ensures { Makes (where_value (frames_view (vec_items frames.old)) (goes_on (frame_view frame ∷ frames_view (vec_items frames.old)))) at result (vec_items frames.new) }
{
    if value_may_begin(frames) {
        push(frames, frame, at)
    } else {
        Err(wrong(at))
    }
}

// A value of one token.
fn scalar(
    frames: &mut Vec<Frame>,
    value: Document,
    at: usize,
) -> Result<Option<Document>, DeserializeError>
    ensures { Makes (where_value (frames_view (vec_items frames.old)) (put_value (document_view value) (frames_view (vec_items frames.old)))) at result (vec_items frames.new) }
{
    if value_may_begin(frames) {
        put(frames, value, at)
    } else {
        Err(wrong(at))
    }
}

// The text of a raw text, in memory of its own.
fn text_at<'a>(alloc: Global, raw: EscapedStr<'a>, at: usize) -> Result<String, DeserializeError>
    ensures { IsOwnTextAt (escaped_text raw.entry) at result }
{
    let text = unescaped_at(alloc, raw, at)?;
    match text.into_owned(alloc) {
        Ok(text) => Ok(text),
        Err(_) => Err(no_memory(at)),
    }
}

// A string.
fn text<'a>(
    alloc: Global,
    frames: &mut Vec<Frame>,
    raw: EscapedStr<'a>,
    at: usize,
) -> Result<Option<Document>, DeserializeError>
    ensures { Makes (document_step (frames_view (vec_items frames.old)) (value_string (escaped_text raw.entry))) at result (vec_items frames.new) }
{
    if !value_may_begin(frames) {
        return Err(wrong(at));
    }
    let text = text_at(alloc, raw, at)?;
    put(frames, Document::String(text), at)
}

// The name of a property.
fn name<'a>(
    alloc: Global,
    frames: &mut Vec<Frame>,
    raw: EscapedStr<'a>,
    at: usize,
) -> Result<Option<Document>, DeserializeError>
    ensures { Makes (document_step (frames_view (vec_items frames.old)) (object_key (escaped_text raw.entry))) at result (vec_items frames.new) }
{
    let Some(frame) = pop(frames) else {
        return Err(wrong(at));
    };
    match frame {
        Frame::InObject(properties) => {
            let name = text_at(alloc, raw, at)?;
            push(frames, Frame::BehindName(properties, name), at)
        }
        Frame::InArray(_) => Err(wrong(at)),
        Frame::BehindName(_, _) => Err(wrong(at)),
    }
}

fn end_of_array(frames: &mut Vec<Frame>, at: usize) -> Result<Option<Document>, DeserializeError>
    ensures { Makes (document_step (frames_view (vec_items frames.old)) end_array) at result (vec_items frames.new) }
{
    let Some(frame) = pop(frames) else {
        return Err(wrong(at));
    };
    match frame {
        Frame::InArray(elements) => put(frames, Document::Array(elements), at),
        Frame::InObject(_) => Err(wrong(at)),
        Frame::BehindName(_, _) => Err(wrong(at)),
    }
}

fn end_of_object(frames: &mut Vec<Frame>, at: usize) -> Result<Option<Document>, DeserializeError>
    ensures { Makes (document_step (frames_view (vec_items frames.old)) end_object) at result (vec_items frames.new) }
{
    let Some(frame) = pop(frames) else {
        return Err(wrong(at));
    };
    match frame {
        Frame::InObject(properties) => put(frames, Document::Object(properties), at),
        Frame::InArray(_) => Err(wrong(at)),
        Frame::BehindName(_, _) => Err(wrong(at)),
    }
}

/// What a token makes of the open containers: the document where it is whole.
pub(crate) fn take<'a>(
    alloc: Global,
    frames: &mut Vec<Frame>,
    token: Token<'a>,
) -> Result<Option<Document>, DeserializeError>
    ensures { Makes (document_step (frames_view (vec_items frames.old)) (token_view token.entry)) (token_offset token.entry) result (vec_items frames.new) }
{
    match token {
        Token::StartArray { offset } => begin(frames, Frame::InArray(Vec::new(alloc)), offset.0),
        Token::StartObject { offset } => {
            begin(frames, Frame::InObject(BTreeMap::new(alloc)), offset.0)
        }
        Token::EndArray { offset } => end_of_array(frames, offset.0),
        Token::EndObject { offset } => end_of_object(frames, offset.0),
        Token::ObjectKey { offset, key } => name(alloc, frames, key, offset.0),
        Token::ValueNull { offset } => scalar(frames, Document::Null, offset.0),
        Token::ValueBool { offset, value } => scalar(frames, Document::Bool(value), offset.0),
        Token::ValueNumber { offset, value } => {
            scalar(frames, Document::Number(value), offset.0)
        }
        Token::ValueString { offset, value } => text(alloc, frames, value, offset.0),
        Token::ValueUncarried { offset, text: _ } => Err(wrong(offset.0)),
    }
}
