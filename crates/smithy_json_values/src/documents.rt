//! Documents: JSON values of no shape, read in one pass.

ghost use Rattle.std.specs.Prelude.{◌≡◌, ◌≤◌, ℕ, [], ◌∷◌, length, vec_items, string_bytes, IfOk, IfErr, MatchOption};
ghost use Rattle.smithy_types.specs.DocumentView.{document_view, elements_view, properties_view};
ghost use Rattle.smithy_json_values.specs.declared.documents.DocumentFault.TheVariants.{NoMemory};
ghost use Rattle.smithy_json_values.specs.Codec.{held_settings, held_grammar};
ghost use Rattle.smithy_json_values.specs.Documents.{DocumentLies, DocumentStands};
ghost use Rattle.smithy_json_values.specs.Settings.{Settings, kept};
ghost use Rattle.smithy_json_values.specs.Private.OpenDocuments.{RefusesDocument, RefusesStanding, begin_fault, document_refusal, open_array, open_object, with_value, fresh, open_view, frame_view, frames_view, TakesValue, TakesStep};

mod scalars;

use crate::documents::scalars::{BeginFault, Begun, document_begun};
use crate::input::Input;
use crate::places::{InList, InObject, may_end, next_in_list, next_in_object};
use crate::texts::owned_text;
use smithy_schema::SerdeError;
use smithy_types::Document;
use std::alloc::{AllocError, Global};
use std::collections::BTreeMap;

/// A depth at which a container ends before any boundary, as inside of another one.
const INNER_DEPTH: usize = 2;

/// Why no document is read.
#[derive(Clone, Copy)]
pub enum DocumentFault {
    /// No document is there, whatever the limits.
    NoDocument,
    /// A value comes inside of as many containers as may be open.
    TooDeep,
    /// A number comes that no document holds.
    NotCarried,
    /// An allocation was refused.
    NoMemory,
}

impl From<AllocError> for DocumentFault {
    ghost from_gives = { λ _ fault. fault ≡ NoMemory };

    fn from(_error: AllocError) -> DocumentFault {
        DocumentFault::NoMemory
    }
}

impl From<BeginFault> for DocumentFault {
    ghost from_gives = { λ begin fault. fault ≡ begin_fault begin };

    fn from(fault: BeginFault) -> DocumentFault {
        match fault {
            BeginFault::NoValue => DocumentFault::NoDocument,
            BeginFault::NotCarried => DocumentFault::NotCarried,
            BeginFault::NoMemory => DocumentFault::NoMemory,
        }
    }
}

impl DocumentFault {
    /// The error of a reader that refuses for it.
    pub fn refusal(self) -> SerdeError
        ensures { result ≡ document_refusal self }
    {
        match self {
            DocumentFault::NoDocument => SerdeError::InvalidInput,
            DocumentFault::TooDeep => SerdeError::TooDeep,
            DocumentFault::NotCarried => SerdeError::NotCarried,
            DocumentFault::NoMemory => SerdeError::NoMemory,
        }
    }
}

// The innermost open container of a document: an array with its elements so far, or an object with
// its properties so far.
#[derive(Drop)]
enum Open {
    Array(Vec<Document>),
    Object(BTreeMap<String, Document>),
}

// A container in which a value is due that is being read: the next element, or that of a name.
#[derive(Drop)]
enum Frame {
    InArray(Vec<Document>),
    BehindName(BTreeMap<String, Document>, String),
}

// One step inside of the innermost container: it takes a scalar that ends at the offset, or waits for
// an object or an array with its inside at the offset, or is whole and ends at the offset.
#[derive(Drop)]
enum Step {
    Inside(Open, usize),
    Opens(Frame, bool, usize),
    Ends(Document, usize),
}

// A container that has just opened.
#[inline(always)]
fn fresh(alloc: Global, is_object: bool) -> Open
    ensures { open_view result ≡ fresh is_object }
{
    if is_object {
        Open::Object(BTreeMap::new(alloc))
    } else {
        Open::Array(Vec::new(alloc))
    }
}

#[inline(always)]
fn with_element(elements: Vec<Document>, value: Document) -> Result<Open, AllocError>
    ensures { IfOk result (λ o. open_view o ≡ with_value (frame_view (Frame.InArray elements)) (document_view value)) }
{
    let mut elements = elements;
    elements.push(value)?;
    Ok(Open::Array(elements))
}

#[inline(always)]
fn with_property(
    properties: BTreeMap<String, Document>,
    name: String,
    value: Document,
) -> Result<Open, AllocError>
    ensures { IfOk result (λ o. open_view o ≡ with_value (frame_view (Frame.BehindName properties name)) (document_view value)) }
{
    let mut properties = properties;
    drop(properties.insert(name, value)?);
    Ok(Open::Object(properties))
}

// The container with the value that was due.
#[inline(always)]
fn with_value(frame: Frame, value: Document) -> Result<Open, AllocError>
    ensures { IfOk result (λ o. open_view o ≡ with_value (frame_view frame) (document_view value)) }
{
    match frame {
        Frame::InArray(elements) => with_element(elements, value),
        Frame::BehindName(properties, name) => with_property(properties, name, value),
    }
}

// The step to the value that is due at the offset, inside of so many containers, for which the
// innermost waits.
#[inline(always)]
fn value_step(
    alloc: Global,
    input: &Input<'_>,
    at: usize,
    frame: Frame,
    depth: usize,
) -> Result<Step, DocumentFault>
    requires within { at ≤ length input.now.bytes.now }
    requires shallow { depth ≤ input.now.settings.max_depth }
    ensures { TakesValue (held_grammar input.now.settings) (held_settings input.now.settings) depth input.now.bytes.now at (frame_view frame) result }
{
    let begun = document_begun(alloc, input.bytes, at, &input.settings)?;
    if depth >= input.settings.max_depth {
        return Err(DocumentFault::TooDeep);
    }
    match begun {
        Begun::Scalar(value, end) => Ok(Step::Inside(with_value(frame, value)?, end)),
        Begun::Container(is_object, inside) => Ok(Step::Opens(frame, is_object, inside)),
    }
}

#[inline(always)]
fn array_step(
    alloc: Global,
    input: &Input<'_>,
    at: usize,
    entered: bool,
    elements: Vec<Document>,
    depth: usize,
) -> Result<Step, DocumentFault>
    requires within { at ≤ length input.now.bytes.now }
    requires shallow { depth ≤ input.now.settings.max_depth }
    ensures { TakesStep (held_grammar input.now.settings) (held_settings input.now.settings) depth input.now.bytes.now at entered (open_array (elements_view elements.items)) result }
{
    match next_in_list(input.bytes, at, entered, INNER_DEPTH, &input.settings) {
        Some(InList::Element(start)) => {
            value_step(alloc, input, start, Frame::InArray(elements), depth)
        }
        Some(InList::End(end)) => Ok(Step::Ends(Document::Array(elements), end)),
        None => Err(DocumentFault::NoDocument),
    }
}

#[inline(always)]
fn object_step(
    alloc: Global,
    input: &Input<'_>,
    at: usize,
    entered: bool,
    properties: BTreeMap<String, Document>,
    depth: usize,
) -> Result<Step, DocumentFault>
    requires within { at ≤ length input.now.bytes.now }
    requires shallow { depth ≤ input.now.settings.max_depth }
    ensures { TakesStep (held_grammar input.now.settings) (held_settings input.now.settings) depth input.now.bytes.now at entered (open_object (properties_view properties.entries)) result }
{
    match next_in_object(input.bytes, at, entered, INNER_DEPTH, &input.settings) {
        Some(InObject::Member(name)) => {
            let Some(key) = owned_text(alloc, name.raw, name.has_escape)? else {
                return Err(DocumentFault::NoDocument);
            };
            let frame = Frame::BehindName(properties, key);
            value_step(alloc, input, name.end, frame, depth)
        }
        Some(InObject::End(end)) => Ok(Step::Ends(Document::Object(properties), end)),
        None => Err(DocumentFault::NoDocument),
    }
}

// The next step inside of the innermost of so many containers.
#[inline(always)]
fn next_step(
    alloc: Global,
    input: &Input<'_>,
    at: usize,
    entered: bool,
    inner: Open,
    depth: usize,
) -> Result<Step, DocumentFault>
    requires within { at ≤ length input.now.bytes.now }
    requires shallow { depth ≤ input.now.settings.max_depth }
    ensures { TakesStep (held_grammar input.now.settings) (held_settings input.now.settings) depth input.now.bytes.now at entered (open_view inner) result }
{
    match inner {
        Open::Array(elements) => { array_step(alloc, input, at, entered, elements, depth) }
        Open::Object(properties) => { object_step(alloc, input, at, entered, properties, depth) }
    }
}

// One more container that waits, the innermost.
#[tactic(auto, using(crate::proofs::DocumentFrames::frames_push))]
fn push(frames: &mut Vec<Frame>, frame: Frame) -> Result<(), AllocError>
    ensures { IfOk result (λ _. frames_view (vec_items frames.new) ≡ frame_view frame ∷ frames_view (vec_items frames.old)) }
{
    frames.push(frame)?;
    Ok(())
}

// The innermost container that waits, which leaves.
fn pop(frames: &mut Vec<Frame>) -> Option<Frame>
    ensures { MatchOption result (frames_view (vec_items frames.old) ≡ []) (λ frame. frames_view (vec_items frames.old) ≡ frame_view frame ∷ frames_view (vec_items frames.new)) }
{
    frames.pop()
}

/// The document at the offset inside of so many containers, with its end. Each of its values counts as
/// one more container than it stands in, and no more may be open at once than the settings say.
///
/// The first fault is answered: what is no document whatever the limits, a number that no document holds, or a value too
/// deep.
fn document_at(
    alloc: Global,
    input: Input<'_>,
    at: usize,
    depth: usize,
) -> Result<(Document, usize), DocumentFault>
    requires within { at ≤ length input.bytes.now }
    requires shallow { depth ≤ input.settings.max_depth }
    ensures ok { IfOk result (λ r. DocumentLies (held_grammar input.entry.settings) (held_settings input.entry.settings) depth input.entry.bytes.now at (document_view r.0) r.1) }
    ensures refused { IfErr result (RefusesDocument (held_grammar input.entry.settings) (held_settings input.entry.settings) depth input.entry.bytes.now at) }
{
    let begun = document_begun(alloc, input.bytes, at, &input.settings)?;
    if depth >= input.settings.max_depth {
        return Err(DocumentFault::TooDeep);
    }
    let (is_object, mut at) = match begun {
        Begun::Scalar(value, end) => return Ok((value, end)),
        Begun::Container(is_object, inside) => (is_object, inside),
    };
    let mut frames = Vec::new(alloc);
    let mut inner = fresh(alloc, is_object);
    let mut entered = false;
    'steps: loop {
        let inside_depth = depth + frames.len() + 1;
        match next_step(alloc, &input, at, entered, inner, inside_depth)? {
            Step::Inside(more, end) => {
                inner = more;
                entered = true;
                at = end;
            }
            Step::Opens(frame, is_object, inside) => {
                push(&mut frames, frame)?;
                inner = fresh(alloc, is_object);
                entered = false;
                at = inside;
            }
            Step::Ends(value, end) => {
                let Some(frame) = pop(&mut frames) else {
                    return Ok((value, end));
                };
                inner = with_value(frame, value)?;
                entered = true;
                at = end;
            }
        }
    }
}

/// The document at the offset inside of `depth` containers, with its end, as `document_at` reads it, where behind it comes what
/// may follow a container there. Outside of all containers that is blanks alone.
pub fn standing_document_at(
    alloc: Global,
    input: Input<'_>,
    at: usize,
    depth: usize,
) -> Result<(Document, usize), DocumentFault>
    requires within { at ≤ length input.bytes.now }
    requires shallow { depth ≤ input.settings.max_depth }
    ensures ok { IfOk result (λ r. DocumentStands (held_grammar input.entry.settings) (held_settings input.entry.settings) depth input.entry.bytes.now at (document_view r.0) r.1) }
    ensures refused { IfErr result (RefusesStanding (held_grammar input.entry.settings) (held_settings input.entry.settings) depth input.entry.bytes.now at) }
{
    let (document, end) = document_at(alloc, input, at, depth)?;
    if !may_end(input.bytes, end, depth + 1, &input.settings) {
        return Err(DocumentFault::NoDocument);
    }
    Ok((document, end))
}
