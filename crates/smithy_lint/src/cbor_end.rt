//! Where a data item of CBOR ends that nests within a limit (RFC 8949, section 3).
ghost use Rattle.std.specs.Prelude.{◌≡◌, ◌≤◌, IfOk, IfErr, drop, length};
ghost use Rattle.std.specs.Int.{is_in_range};
ghost use Rattle.cbor_item.specs.WellFormed.{HoldsOneItem};
ghost use Rattle.smithy_lint.specs.Private.CborEnds.{most_nested, ItemNests, EntryNests, EntriesNest, EndsWithin, IsEndFault, IsChecked};

use crate::linting::LintError;
use cbor_item::{ItemError, read_head, skip_item};
use smithy_cbor_values::places::{EntryOrEnd, entry_or_end};
use std::alloc::Global;

// How many arrays, maps and tags may be nested.
const MAX_NESTING: usize = 512;

// Whether a head of this major type opens an array, a map or a tag.
fn opens_items(major: u8) -> bool
    ensures { result ≡ is_in_range 4 6 major }
{
    4 <= major && major <= 6
}

// The end of the item, however deep it nests.
fn skipped_end(alloc: Global, bytes: &[u8], at: usize) -> Result<usize, LintError>
    requires { at ≤ length bytes.now }
    ensures found { IfOk result (HoldsOneItem bytes.now at) }
    ensures fault { IfErr result (IsEndFault bytes.now at) }
{
    match skip_item(alloc, bytes, at) {
        Ok(end) => Ok(end),
        Err(error) => match error {
            ItemError::NoMemory => Err(LintError::NoMemory),
            _ => Err(LintError::NotWellFormed),
        },
    }
}

/// The end of the item at the offset, which is inside `outer` arrays, maps and tags. No more than 512 may be nested.
#[cycle(nest)]
pub(crate) fn item_end(
    alloc: Global,
    bytes: &[u8],
    at: usize,
    outer: usize,
) -> Result<usize, LintError>
    requires within { at ≤ length bytes.now }
    requires shallow { outer ≤ most_nested }
    ensures { EndsWithin (ItemNests bytes.now at) outer (drop at bytes.now) result }
{
    let Ok(head) = read_head(bytes, at) else {
        return Err(LintError::NotWellFormed);
    };
    if !opens_items(head.major) {
        return skipped_end(alloc, bytes, at);
    }
    if outer >= MAX_NESTING {
        return Err(LintError::TooNested);
    }
    let inside = at + usize::from(head.length);
    match head.major {
        4 => entries_end(alloc, bytes, inside, head.argument, false, outer + 1),
        5 => entries_end(alloc, bytes, inside, head.argument, true, outer + 1),
        _ => item_end(alloc, bytes, inside, outer + 1),
    }
}

// The end of the array or map inside which the offset is, with `due` entries left.
#[cycle(nest)]
fn entries_end(
    alloc: Global,
    bytes: &[u8],
    at: usize,
    due: Option<u64>,
    is_map: bool,
    outer: usize,
) -> Result<usize, LintError>
    requires within { at ≤ length bytes.now }
    requires shallow { outer ≤ most_nested }
    ensures { EndsWithin (EntriesNest is_map due bytes.now at) outer (drop at bytes.now) result }
{
    let mut at = at;
    let mut due = due;
    'entries: loop {
        match entry_or_end(bytes, at, due) {
            None => return Err(LintError::NotWellFormed),
            Some(EntryOrEnd::End(end)) => return Ok(end),
            Some(EntryOrEnd::Entry(left)) => {
                at = entry_end(alloc, bytes, at, is_map, outer)?;
                due = left;
            }
        }
    }
}

// The end of an entry: of a map a key and its value, of an array an item.
#[cycle(nest)]
fn entry_end(
    alloc: Global,
    bytes: &[u8],
    at: usize,
    is_map: bool,
    outer: usize,
) -> Result<usize, LintError>
    requires within { at ≤ length bytes.now }
    requires shallow { outer ≤ most_nested }
    ensures { EndsWithin (EntryNests is_map bytes.now at) outer (drop at bytes.now) result }
{
    let end = item_end(alloc, bytes, at, outer)?;
    if is_map {
        return item_end(alloc, bytes, end, outer);
    }
    Ok(end)
}

/// Checks that the bytes are one item in which at most 512 arrays, maps and tags are nested.
pub(crate) fn check_item(alloc: Global, bytes: &[u8]) -> Result<(), LintError>
    ensures { IsChecked bytes.now result }
{
    let end = item_end(alloc, bytes, 0, 0)?;
    if end < bytes.len() {
        return Err(LintError::NotWellFormed);
    }
    Ok(())
}
