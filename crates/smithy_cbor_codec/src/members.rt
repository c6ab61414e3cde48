//! Which entry of a map comes next: in a structure or a union behind those that are passed over.

ghost use Rattle.std.specs.Prelude.{◌≡◌, ◌≤◌, length, IfOk, IfSome, MatchOption};
ghost use Rattle.smithy_shapes.specs.Site.{site_of, kind_at};
ghost use Rattle.smithy_cbor_codec.specs.Private.MemberSteps.{StepsTo};
ghost use Rattle.smithy_cbor_codec.specs.Private.PassedEntries.{is_mark, passes_null, IsPairOrEnd, PairMissing, IsEntry, IsNext, EntryMissing, NothingComes};
ghost use Rattle.smithy_cbor_codec.specs.Private.Spans.{BorrowsKey};

use smithy_cbor_values::places::{EntryOrEnd, entry_or_end, null_end};
use smithy_cbor_values::values::{skipped_end, text_at};
use smithy_schema::{Schema, Step};
use std::alloc::{AllocError, Global};
use std::borrow::CowStr;

// An entry of a map, by its key, the offset of its value and how many are due behind it, or the end of the map.
#[derive(Drop)]
pub(crate) enum Next<'a> {
    Pair(CowStr<'a, Global>, usize, Option<u64>),
    End(usize),
}

// What comes next in a structure or a union: an entry that is passed over, with the offset behind it and how many
// entries are due there, or something else.
#[derive(Drop)]
enum Entry<'a> {
    Passed(usize, Option<u64>),
    Kept(Next<'a>),
}

// The step to an entry of this name.
pub(crate) fn step_to<'s>(schema: &Schema<'s>, name: &str) -> Step<'s>
    ensures { StepsTo result (site_of schema.now) name.now }
{
    match schema.member_schema(name) {
        Some(member) => Step::Member(member),
        None => Step::Unknown,
    }
}

// Whether the key is a mark, which says of what shape a value is: a `__type` that names no member.
fn is_mark(schema: &Schema<'_>, key: &str) -> bool
    ensures { result ≡ is_mark (kind_at (site_of schema.now)) key.now }
{
    key == "__type" && schema.member_schema(key).is_none()
}

// Whether a null under the key is passed over: each where nulls are dropped, and else under a key that names no member.
fn passes_null(schema: &Schema<'_>, key: &str, drops_nulls: bool) -> bool
    ensures { result ≡ passes_null drops_nulls (kind_at (site_of schema.now)) key.now }
{
    drops_nulls || schema.member_schema(key).is_none()
}

// What comes next in the map inside of which the offset lies: a key with the place of its value, or the end of the map.
pub(crate) fn next_in_map<'a>(
    alloc: Global,
    input: &'a [u8],
    at: usize,
    due: Option<u64>,
) -> Result<Option<Next<'a>>, AllocError>
    requires { at ≤ length input.now }
    ensures found { IfOk result (λ o. MatchOption o (PairMissing input.now at due) (IsPairOrEnd input.now at due)) }
    ensures borrowed { IfOk result (λ o. IfSome o (BorrowsKey input.now at)) }
{
    match entry_or_end(input, at, due) {
        Some(EntryOrEnd::Entry(after)) => {
            let Some((key, value)) = text_at(alloc, input, at)? else {
                return Ok(None);
            };
            Ok(Some(Next::Pair(key, value, after)))
        }
        Some(EntryOrEnd::End(end)) => Ok(Some(Next::End(end))),
        None => Ok(None),
    }
}

// What comes next in the structure or the union inside of which the offset lies. An entry is passed over where its value is a
// null that isn't handed on, or where its key is a mark. By so many containers is judged where a value may end.
fn entry_at<'a>(
    alloc: Global,
    input: &'a [u8],
    at: usize,
    due: Option<u64>,
    depth: usize,
    schema: &Schema<'_>,
    drops_nulls: bool,
) -> Result<Option<Entry<'a>>, AllocError>
    requires { at ≤ length input.now }
    ensures { IfOk result (λ o. MatchOption o (EntryMissing (kind_at (site_of schema.now)) input.now at due depth) (IsEntry drops_nulls (kind_at (site_of schema.now)) input.now at due depth)) }
{
    match next_in_map(alloc, input, at, due)? {
        Some(Next::Pair(key, value, after)) => {
            if let Some(end) = null_end(input, value, depth) {
                if passes_null(schema, key.as_str(), drops_nulls) {
                    return Ok(Some(Entry::Passed(end, after)));
                }
                return Ok(Some(Entry::Kept(Next::Pair(key, value, after))));
            }
            if !is_mark(schema, key.as_str()) {
                return Ok(Some(Entry::Kept(Next::Pair(key, value, after))));
            }
            match skipped_end(alloc, input, value, depth)? {
                Some(end) => Ok(Some(Entry::Passed(end, after))),
                None => Ok(None),
            }
        }
        Some(Next::End(end)) => Ok(Some(Entry::Kept(Next::End(end)))),
        None => Ok(None),
    }
}

// The next member of the map inside of which the offset lies, without what is passed over, or the end of the map.
pub(crate) fn next_present<'a>(
    alloc: Global,
    input: &'a [u8],
    at: usize,
    due: Option<u64>,
    depth: usize,
    schema: &Schema<'_>,
    drops_nulls: bool,
) -> Result<Option<Next<'a>>, AllocError>
    requires { at ≤ length input.now }
    ensures { IfOk result (λ o. MatchOption o (NothingComes drops_nulls (kind_at (site_of schema.now)) input.now at due depth) (IsNext drops_nulls (kind_at (site_of schema.now)) input.now at due depth)) }
{
    let mut at = at;
    let mut due = due;
    loop {
        match entry_at(alloc, input, at, due, depth, schema, drops_nulls)? {
            Some(Entry::Passed(end, after)) => {
                at = end;
                due = after;
            }
            Some(Entry::Kept(next)) => return Ok(Some(next)),
            None => return Ok(None),
        }
    }
}
