//! The entries of a map in a form.
ghost use Rattle.std.specs.Prelude.{◌≡◌, option_map, decimal};
ghost use Rattle.smithy_form.specs.Lookup.{inside};
ghost use Rattle.smithy_form.specs.Private.Kept.{kept_leaves};
ghost use Rattle.smithy_form.specs.Private.Order.{LeavesAscend};
ghost use Rattle.smithy_form.specs.Private.Reading.{comes_after};
ghost use Rattle.smithy_form.specs.Private.Entries.{TellsText, FindsEntry};

use crate::find::{only_here, with_segment};
use crate::pairs::Pair;
use itoa::Buffer;

/// An entry: its key, and the pairs of its value from a place of their names on.
#[derive(Clone, Copy)]
pub(crate) struct Entry<'p, 'a> {
    pub(crate) key: &'p str,
    pub(crate) values: &'p [Pair<'a>],
    pub(crate) at: usize,
    /// How many pairs the entry has.
    pub(crate) count: usize,
}

/// The text of the one pair under this name in an entry.
fn key_in<'p>(entry: &'p [Pair<'_>], at: usize, name: &str) -> Option<&'p str>
    requires sorted { LeavesAscend (kept_leaves at entry.now) }
    ensures { TellsText name.now (kept_leaves at entry.now) (option_map (λ s. s.now) result) }
{
    let keys = with_segment(entry, 0, at, name.as_bytes());
    if keys.is_empty() {
        return None;
    }
    let pair = only_here(keys, at + name.len() + 1)?;
    Some(pair.text.as_str())
}

/// The entry of this number: its pairs are its key and those of its value, and no others. It is found at once where it begins at the
/// index `near`.
pub(crate) fn find_entry<'p, 'a>(
    pairs: &'p [Pair<'a>],
    near: usize,
    at: usize,
    number: u64,
    key_name: &str,
    value_name: &str,
) -> Option<Entry<'p, 'a>>
    requires sorted { LeavesAscend (kept_leaves at pairs.now) }
    ensures { FindsEntry key_name.now value_name.now (inside (decimal number) (kept_leaves at pairs.now)) result }
{
    let mut buffer = Buffer::new();
    let segment = buffer.format(number);
    let entry = with_segment(pairs, near, at, segment.as_bytes());
    if entry.is_empty() {
        return None;
    }
    let inner = at + segment.len() + 1;
    let key = key_in(entry, inner, key_name)?;
    let values = with_segment(entry, 1, inner, value_name.as_bytes());
    if values.is_empty() {
        return None;
    }
    if values.len() + 1 < entry.len() {
        return None;
    }
    Some(Entry {
        key,
        values,
        at: inner + value_name.len() + 1,
        count: entry.len(),
    })
}

/// The key is above the one before, where there is one.
pub(crate) fn is_above(key: &str, before: Option<&str>) -> bool
    ensures { result ≡ comes_after (option_map (λ s. s.now) before.entry) key.now }
{
    match before {
        Some(earlier) => earlier < key,
        None => true,
    }
}
