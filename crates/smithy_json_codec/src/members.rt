//! Which member of an object comes next, behind the entries that are passed over.

ghost use Rattle.std.specs.Prelude.{◌≡◌, ◌≤◌, ◌↔◌, ℕ, true, length, IfSome, IfNone, IsTrue};
ghost use Rattle.smithy_shapes.specs.Site.{site_of, kind_at};
ghost use Rattle.smithy_declarations.specs.Table.{IsDocument};
ghost use Rattle.smithy_json_values.specs.Codec.{held_settings, held_grammar};
ghost use Rattle.smithy_json_values.specs.LexicalGrammar.{frames_of};
ghost use Rattle.smithy_json_codec.specs.declared.members.EntryFault.TheVariants.{NoMemory};
ghost use Rattle.smithy_json_codec.specs.Private.MemberSteps.{StepsTo, passing, passes_marks, passes_null};
ghost use Rattle.smithy_json_codec.specs.Private.PassedEntries.{entry_fault, entry_refusal, type_name, IsEntry, IsNext, EntryMissing, NothingComes, FindsNext};

use smithy_json_settings::Settings;
use smithy_json_values::input::Input;
use smithy_json_values::places::{InObject, next_in_object, null_end};
use smithy_json_values::skip::{SkipFault, skipped_end};
use smithy_json_values::texts::text_of;
use smithy_schema::{Schema, SerdeError, ShapeType, Step};
use std::alloc::{AllocError, Global};
use std::borrow::CowStr;

/// Why nothing comes in an object.
#[derive(Clone, Copy)]
pub(crate) enum EntryFault {
    /// Neither an entry whose name has a text nor the end comes, or a value to pass over is none.
    NoEntry,
    /// A value to pass over opens a container inside of as many as may be open.
    TooDeep,
    /// An allocation was refused.
    NoMemory,
}

impl From<AllocError> for EntryFault {
    ghost from_gives = { λ _ fault. fault ≡ NoMemory };

    fn from(_error: AllocError) -> EntryFault {
        EntryFault::NoMemory
    }
}

impl From<SkipFault> for EntryFault {
    ghost from_gives = { λ skipped fault. fault ≡ entry_fault skipped };

    fn from(fault: SkipFault) -> EntryFault {
        match fault {
            SkipFault::NoValue => EntryFault::NoEntry,
            SkipFault::TooDeep => EntryFault::TooDeep,
        }
    }
}

impl EntryFault {
    /// The error of a reader that refuses for it.
    pub(crate) fn refusal(self) -> SerdeError
        ensures { result ≡ entry_refusal self }
    {
        match self {
            EntryFault::NoEntry => SerdeError::InvalidInput,
            EntryFault::TooDeep => SerdeError::TooDeep,
            EntryFault::NoMemory => SerdeError::NoMemory,
        }
    }
}

// A member that isn't passed over, by the text of its name and the offset of its value, or the end of
// the object.
#[derive(Drop)]
pub(crate) enum Next<'a> {
    Member(CowStr<'a, Global>, usize),
    End(usize),
}

// What comes next in an object: an entry that is passed over, with its end, or something else.
#[derive(Drop)]
enum Entry<'a> {
    Passed(usize),
    Kept(Next<'a>),
}

// Whether a document stands at the place.
fn is_document(schema: &Schema<'_>) -> bool
    ensures { IsTrue result ↔ IsDocument (kind_at (site_of schema.now)) }
{
    schema.shape_type() == ShapeType::Document
}

// The step to a member of this name.
#[inline(always)]
pub(crate) fn step_to<'s>(schema: &Schema<'s>, settings: Settings, name: &str) -> Step<'s>
    ensures { StepsTo result (held_settings settings) (site_of schema.now) name.now }
{
    let member = if settings.use_json_name {
        schema.member_of_json_name(name)
    } else {
        schema.member_schema(name)
    };
    match member {
        Some(member) => Step::Member(member),
        None => Step::Unknown,
    }
}

// Whether a null under this name is passed over: it names no member of documents, and the settings don't hand nulls on.
#[inline(never)]
fn passes_null(schema: &Schema<'_>, settings: Settings, name: &str) -> bool
    ensures { result ≡ passes_null (held_settings settings) (site_of schema.now) name.now }
{
    if settings.dispatch_null_members {
        return false;
    }
    match step_to(schema, settings, name) {
        Step::Member(member) => !is_document(&member),
        Step::Unknown => true,
        Step::End => true,
    }
}

// The end of the null at the offset, where it is passed over under this name.
#[inline(always)]
fn passed_null(input: &Input<'_>, at: usize, schema: &Schema<'_>, name: &str) -> Option<usize>
    requires { at ≤ length input.now.bytes.now }
    ensures found { IfSome result (λ e. (frames_of (held_grammar input.now.settings)).null input.now.bytes.now 0 at e) }
    ensures passes { IfSome result (λ _. passes_null (held_settings input.now.settings) (site_of schema.now) name.now ≡ true) }
    ensures none { IfNone result ((e : ℕ) → (frames_of (held_grammar input.now.settings)).null input.now.bytes.now 0 at e → passes_null (held_settings input.now.settings) (site_of schema.now) name.now ≡ true → ⊥) }
{
    let end = null_end(input.bytes, at, &input.settings)?;
    passes_null(schema, input.settings, name).then_some(end)
}

// Whether each `__type` is a mark: where no member has this name.
#[inline(never)]
fn passes_marks(schema: &Schema<'_>, settings: Settings) -> bool
    ensures { result ≡ passes_marks (held_settings settings) (site_of schema.now) }
{
    matches!(step_to(schema, settings, "__type"), Step::Unknown)
}

// The name of a mark, which says of what shape a value is.
#[inline(always)]
fn is_type_name(name: &str) -> bool
    ensures { IsTrue result ↔ (name.now ≡ type_name) }
{
    name == "__type"
}

// What comes next in the object inside of which the offset lies: a member, the end, or an entry to pass over, which is a mark, or
// a null that isn't handed on.
#[inline(always)]
fn entry_at<'a>(
    alloc: Global,
    input: &Input<'a>,
    at: usize,
    entered: bool,
    depth: usize,
    schema: &Schema<'_>,
) -> Result<Entry<'a>, EntryFault>
    requires within { at ≤ length input.now.bytes.now }
    requires shallow { depth ≤ input.now.settings.max_depth }
    ensures { let g = held_grammar input.now.settings in let passed = passing (held_settings input.now.settings) (site_of schema.now) in let most = input.now.settings.max_depth in
        FindsNext g most depth input.now.bytes.now at (IsEntry g passed most depth input.now.bytes.now at entered) (λ Stays. EntryMissing g Stays passed depth input.now.bytes.now at entered) result }
{
    let name = match next_in_object(input.bytes, at, entered, depth, &input.settings) {
        Some(InObject::Member(name)) => name,
        Some(InObject::End(end)) => return Ok(Entry::Kept(Next::End(end))),
        None => return Err(EntryFault::NoEntry),
    };
    let Some(text) = text_of(alloc, name.raw, name.has_escape)? else {
        return Err(EntryFault::NoEntry);
    };
    if let Some(end) = passed_null(input, name.end, schema, text.as_str()) {
        return Ok(Entry::Passed(end));
    }
    if !is_type_name(text.as_str()) || !passes_marks(schema, input.settings) {
        return Ok(Entry::Kept(Next::Member(text, name.end)));
    }
    let end = skipped_end(*input, name.end, depth)?;
    Ok(Entry::Passed(end))
}

// The next member of the object inside of which the offset lies, without what is passed over, or the end of the object.
#[inline(always)]
pub(crate) fn next_present<'a>(
    alloc: Global,
    input: &Input<'a>,
    at: usize,
    entered: bool,
    depth: usize,
    schema: &Schema<'_>,
) -> Result<Next<'a>, EntryFault>
    requires within { at ≤ length input.now.bytes.now }
    requires shallow { depth ≤ input.now.settings.max_depth }
    ensures { let g = held_grammar input.now.settings in let passed = passing (held_settings input.now.settings) (site_of schema.now) in let most = input.now.settings.max_depth in
        FindsNext g most depth input.now.bytes.now at (IsNext g passed most depth input.now.bytes.now at entered) (λ Stays. NothingComes g Stays passed most depth input.now.bytes.now at entered) result }
{
    let mut at = at;
    let mut entered = entered;
    loop {
        match entry_at(alloc, input, at, entered, depth, schema)? {
            Entry::Passed(end) => {
                at = end;
                entered = true;
            }
            Entry::Kept(next) => return Ok(next),
        }
    }
}
