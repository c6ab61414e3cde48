//! Where the names, separators and brackets of containers lie in an input (RFC 8259, sections 2, 4
//! and 5).

ghost use Rattle.std.specs.Prelude.{◌≡◌, ◌≤◌, ◌↔◌, ◌==◌, ℕ, List, length, drop, true, false, IsTrue, IfSome, IfNone};
ghost use Rattle.smithy_json_grammar.specs.Ascii.{is_ws, end_array};
ghost use Rattle.smithy_json_grammar.specs.Grammar.{IsWs};
ghost use Rattle.smithy_json_grammar.specs.Unescape.{has_escape};
ghost use Rattle.smithy_json_values.specs.Codec.{held_settings, held_grammar};
ghost use Rattle.smithy_json_values.specs.LexicalGrammar.{frames_of};
ghost use Rattle.smithy_json_values.specs.Spans.{Lies, IsByte, without_ws};
ghost use Rattle.smithy_json_values.specs.Tokens.{BoundaryBy, IsOverBy, EndsInside, IsNameToken};
ghost use Rattle.smithy_json_values.specs.TypeMismatch.{begins_by};
ghost use Rattle.smithy_json_values.specs.Private.NextInContainer.{IsFirstByte, IsNotFirst, GoesOnInArray, GoesOnToName, GoesOnInObject};
ghost use Rattle.smithy_json_values.specs.Private.PlacedTexts.{StandsFrom};

use crate::values::{begins_with_null, may_follow, string_of};
use smithy_json_grammar::scan::skip_blanks;
use smithy_json_settings::Settings;

/// A member's name, as it is written.
#[derive(Clone, Copy)]
pub struct Name<'a> {
    /// What stands between the quotation marks.
    pub raw: &'a str,
    /// The offset at which that begins.
    pub at: usize,
    /// Whether the name holds a backslash.
    pub has_escape: bool,
    /// The offset behind the colon.
    pub end: usize,
}

/// How a list goes on, or an object whose next name isn't read yet.
#[derive(Clone, Copy)]
pub enum InList {
    /// With an element or a name, which comes from this offset on.
    Element(usize),
    /// With its end, and this is the offset behind it.
    End(usize),
}

/// How an object goes on.
#[derive(Clone, Copy)]
pub enum InObject<'a> {
    /// With a member of this name.
    Member(Name<'a>),
    /// With its end, and this is the offset behind it.
    End(usize),
}

/// The first byte from the offset on that is no blank, with its offset.
#[inline(always)]
pub fn first_byte(input: &[u8], at: usize) -> Option<(u8, usize)>
    requires { at ≤ length input.now }
    ensures found { IfSome result (λ r. IsFirstByte input.now at r.0 r.1) }
    ensures none { IfNone result (IsWs (drop at input.now)) }
{
    let start = skip_blanks(input, at);
    if start < input.len() {
        Some((input[start], start))
    } else {
        None
    }
}

/// The offset behind this byte, where it comes first behind blanks.
#[inline(always)]
pub fn byte_end(input: &[u8], at: usize, byte: u8) -> Option<usize>
    requires within { at ≤ length input.now }
    requires plain { is_ws byte ≡ false }
    ensures found { IfSome result (λ e. Lies (IsByte byte) input.now at e) }
    ensures none { IfNone result (IsNotFirst byte input.now at) }
    ensures other { IfNone result (begins_by (λ b. b == byte) (without_ws (drop at input.now)) ≡ false) }
{
    match first_byte(input, at) {
        Some((first, start)) if first == byte => Some(start + 1),
        _ => None,
    }
}

/// The end of a null.
#[inline(always)]
pub fn null_end(input: &[u8], at: usize, settings: &Settings) -> Option<usize>
    requires { at ≤ length input.now }
    ensures found { IfSome result (λ e. (frames_of (held_grammar settings.now)).null input.now 0 at e) }
    ensures none { IfNone result ((e : ℕ) → (frames_of (held_grammar settings.now)).null input.now 0 at e → ⊥) }
{
    let start = skip_blanks(input, at);
    if !begins_with_null(&input[start..]) {
        return None;
    }
    may_follow(input, start + 4, settings).then_some(start + 4)
}

/// Whether the innermost of `depth` open containers may end at the offset. Behind the only one nothing but blanks may follow.
#[inline(always)]
pub fn may_end(input: &[u8], at: usize, depth: usize, settings: &Settings) -> bool
    requires { at ≤ length input.now }
    ensures { IsTrue result ↔ EndsInside (BoundaryBy (held_settings settings.now).enforce_strictness) depth (drop at input.now) }
{
    match depth {
        0 => false,
        1 => skip_blanks(input, at) == input.len(),
        _ => may_follow(input, at, settings),
    }
}

/// Whether the input is over at the offset, so that a structure may be missing there: strictly the whole input is empty, and else
/// nothing but blanks is left.
#[inline(always)]
pub fn is_over(input: &[u8], at: usize, settings: &Settings) -> bool
    requires { at ≤ length input.now }
    ensures { IsTrue result ↔ IsOverBy (held_settings settings.now).enforce_strictness input.now at (length input.now) }
{
    if settings.enforce_strictness {
        input.is_empty()
    } else {
        skip_blanks(input, at) == input.len()
    }
}

/// What comes next in the list inside of which the offset lies: an element, or the end of the list.
#[inline(always)]
pub fn next_in_list(
    input: &[u8],
    at: usize,
    entered: bool,
    depth: usize,
    settings: &Settings,
) -> Option<InList>
    requires { at ≤ length input.now }
    ensures { GoesOnInArray (held_grammar settings.now) input.now at entered depth result }
{
    let Some((first, start)) = first_byte(input, at) else {
        return if entered {
            None
        } else {
            Some(InList::Element(at))
        };
    };
    if first == b']' {
        return may_end(input, start + 1, depth, settings).then_some(InList::End(start + 1));
    }
    if !entered {
        return Some(InList::Element(at));
    }
    if first != b',' {
        return None;
    }
    match byte_end(input, start + 1, b']') {
        Some(_) => None,
        None => Some(InList::Element(start + 1)),
    }
}

/// Where the name of a member is due in the object inside of which the offset lies, or the end of the object.
#[inline(always)]
pub fn next_name_place(
    input: &[u8],
    at: usize,
    entered: bool,
    depth: usize,
    settings: &Settings,
) -> Option<InList>
    requires { at ≤ length input.now }
    ensures { GoesOnToName (held_grammar settings.now) input.now at entered depth result }
{
    let (first, start) = first_byte(input, at)?;
    if first == b'}' {
        return may_end(input, start + 1, depth, settings).then_some(InList::End(start + 1));
    }
    if !entered {
        return Some(InList::Element(at));
    }
    if first != b',' {
        return None;
    }
    Some(InList::Element(start + 1))
}

// The name that comes first behind blanks, with its colon.
#[inline(always)]
fn name_at<'a>(input: &'a [u8], at: usize, settings: &Settings) -> Option<Name<'a>>
    requires { at ≤ length input.now }
    ensures found { IfSome result (λ name. Lies (IsNameToken name.raw.now) input.now at name.end) }
    ensures valid { IfSome result (λ name. (held_grammar settings.now).is_text name.raw.now ≡ true) }
    ensures stands { IfSome result (λ name. StandsFrom input.now at name.end name.at name.raw.now) }
    ensures has_escape { IfSome result (λ name. name.has_escape ≡ has_escape name.raw.now) }
    ensures none { IfNone result ((raw : List ℕ) (e : ℕ) → Lies (IsNameToken raw) input.now at e → (held_grammar settings.now).is_text raw ≡ true → ⊥) }
{
    let start = skip_blanks(input, at);
    let name = string_of(input, start, settings)?;
    let end = byte_end(input, name.closing + 1, b':')?;
    Some(Name {
        raw: name.text,
        at: start + 1,
        has_escape: name.has_escape,
        end,
    })
}

/// What comes next in the object inside of which the offset lies: a member's name with its colon, or the end of the object.
#[inline(always)]
pub fn next_in_object<'a>(
    input: &'a [u8],
    at: usize,
    entered: bool,
    depth: usize,
    settings: &Settings,
) -> Option<InObject<'a>>
    requires { at ≤ length input.now }
    ensures { GoesOnInObject (held_grammar settings.now) input.now at entered depth result }
{
    match next_name_place(input, at, entered, depth, settings)? {
        InList::Element(place) => {
            let name = name_at(input, place, settings)?;
            Some(InObject::Member(name))
        }
        InList::End(end) => Some(InObject::End(end)),
    }
}
