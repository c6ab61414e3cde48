//! Pairs by the segments of their names.
ghost use Rattle.std.specs.Prelude.{◌≡◌, ◌≢◌, ◌≤◌, ◌<◌, ◌+◌, ◌^◌, ℕ, suc, List, [], ◌∷◌, length, drop, IsTrue, MatchOption};
ghost use Rattle.std.specs.Cow.{cow_str_bytes};
ghost use Rattle.std.specs.List.Sorted.{IsPartitionedBy};
ghost use Rattle.smithy_query_codec.specs.Leaves.{leaf};
ghost use Rattle.smithy_form.specs.Lookup.{inside, AreSame};
ghost use Rattle.smithy_form.specs.Private.Names.{segment_cmp, rest_path, first_cmp};
ghost use Rattle.smithy_form.specs.Private.Kept.{kept_leaves, is_before as is_pair_before, is_not_behind as is_pair_not_behind, BeginsAt, EndsAt};
ghost use Rattle.smithy_form.specs.Private.Order.{LeavesAscend, name_cmp};

use crate::pairs::Pair;
use smithy_texts::decimal_text::point_at;
use std::cmp::Ordering;

/// Segments by their lengths, and of one length by their bytes, so that positions are in their order.
fn compare_segments(a: &[u8], b: &[u8]) -> Ordering
    ensures { result ≡ segment_cmp a.now b.now }
{
    match a.len().cmp(&b.len()) {
        Ordering::Less => Ordering::Less,
        Ordering::Equal => a.cmp(b),
        Ordering::Greater => Ordering::Greater,
    }
}

// The bytes from a place on.
pub(crate) fn bytes_from(bytes: &[u8], at: usize) -> &[u8]
    requires { at ≤ length bytes.now }
    ensures { result.now ≡ drop at bytes.now }
{
    &bytes[at..]
}

// The bytes after a place.
fn bytes_behind(bytes: &[u8], at: usize) -> &[u8]
    requires { at < length bytes.now }
    ensures { result.now ≡ drop (at + 1) bytes.now }
{
    &bytes[at + 1..]
}

// The pairs from a place on.
fn pairs_from<'p, 'a>(pairs: &'p [Pair<'a>], from: usize) -> &'p [Pair<'a>]
    requires { from ≤ length pairs.now }
    ensures { result.now ≡ drop from pairs.now }
{
    &pairs[from..]
}

/// How many bytes two names have in common at their fronts, which don't count for their order.
fn common_len(a: &[u8], b: &[u8]) -> usize
    ensures within { (result ≤ length a.now) × (result ≤ length b.now) }
    ensures order { name_cmp (drop result a.now) (drop result b.now) ≡ name_cmp a.now b.now }
{
    let mut at = 0;
    while at < a.len() && at < b.len() && a[at] == b[at] {
        at += 1;
    }
    at
}

/// Names, segment by segment: one that goes on where the other ends comes after it.
fn compare_by_segments(a: &[u8], b: &[u8]) -> Ordering
    ensures { result ≡ name_cmp a.now b.now }
{
    let mut left = a;
    let mut right = b;
    loop {
        let left_end = point_at(left);
        let right_end = point_at(right);
        let order = compare_segments(&left[..left_end], &right[..right_end]);
        if order.is_ne() {
            return order;
        }
        if left_end >= left.len() {
            return false.cmp(&(right_end < right.len()));
        }
        if right_end >= right.len() {
            return Ordering::Greater;
        }
        left = bytes_behind(left, left_end);
        right = bytes_behind(right, right_end);
    }
}

/// Names, segment by segment: the bytes that both have at their fronts are skipped.
pub(crate) fn compare_names(a: &[u8], b: &[u8]) -> Ordering
    ensures { result ≡ name_cmp a.now b.now }
{
    let common = common_len(a, b);
    let left = bytes_from(a, common);
    let right = bytes_from(b, common);
    compare_by_segments(left, right)
}

/// The segment that begins at this place of a name, against another one: a name that ends before it comes first.
fn compare_at(name: &[u8], at: usize, segment: &[u8]) -> Ordering
    ensures { result ≡ first_cmp (rest_path at name.now) segment.now }
{
    if name.len() < at {
        return Ordering::Less;
    }
    let rest = bytes_from(name, at);
    compare_segments(&rest[..point_at(rest)], segment)
}

fn is_before(pair: &Pair<'_>, at: usize, segment: &[u8]) -> bool
    ensures { result ≡ is_pair_before at segment.now pair.now }
{
    match compare_at(pair.name.as_str().as_bytes(), at, segment) {
        Ordering::Less => true,
        Ordering::Equal => false,
        Ordering::Greater => false,
    }
}

fn is_not_behind(pair: &Pair<'_>, at: usize, segment: &[u8]) -> bool
    ensures { result ≡ is_pair_not_behind at segment.now pair.now }
{
    match compare_at(pair.name.as_str().as_bytes(), at, segment) {
        Ordering::Less => true,
        Ordering::Equal => true,
        Ordering::Greater => false,
    }
}

// Whether the pairs that aren't before the segment begin at this index.
fn begin_there(pairs: &[Pair<'_>], near: usize, at: usize, segment: &[u8]) -> bool
    requires { IsPartitionedBy (is_pair_before at segment.now) pairs.now }
    ensures { IsTrue result → BeginsAt at segment.now pairs.now near }
{
    if near >= pairs.len() || is_before(&pairs[near], at, segment) {
        return false;
    }
    if near == 0 {
        return true;
    }
    is_before(&pairs[near - 1], at, segment)
}

// Whether all pairs are before the segment.
fn are_before(pairs: &[Pair<'_>], at: usize, segment: &[u8]) -> bool
    requires { IsPartitionedBy (is_pair_before at segment.now) pairs.now }
    ensures { IsTrue result → BeginsAt at segment.now pairs.now (length pairs.now) }
{
    let count = pairs.len();
    if count == 0 {
        return true;
    }
    is_before(&pairs[count - 1], at, segment)
}

/// Where the pairs begin that aren't before the segment. They are looked for first at a place where they begin if all pairs that were
/// found so far are before them.
fn begin_of(pairs: &[Pair<'_>], near: usize, at: usize, segment: &[u8]) -> usize
    requires { IsPartitionedBy (is_pair_before at segment.now) pairs.now }
    ensures { BeginsAt at segment.now pairs.now result }
{
    if begin_there(pairs, near, at, segment) {
        return near;
    }
    if are_before(pairs, at, segment) {
        return pairs.len();
    }
    pairs.partition_point(|pair| is_before(pair, at, segment))
}

// Whether no pair is behind the segment.
fn none_is_behind(pairs: &[Pair<'_>], at: usize, segment: &[u8]) -> bool
    requires { IsPartitionedBy (is_pair_not_behind at segment.now) pairs.now }
    ensures { IsTrue result → EndsAt at segment.now pairs.now (length pairs.now) }
{
    let count = pairs.len();
    if count == 0 {
        return true;
    }
    is_not_behind(&pairs[count - 1], at, segment)
}

// How many pairs at the front aren't behind the segment. Each of them is read later, so that they are counted costs little.
fn count_of(pairs: &[Pair<'_>], at: usize, segment: &[u8]) -> usize
    requires { IsPartitionedBy (is_pair_not_behind at segment.now) pairs.now }
    ensures { EndsAt at segment.now pairs.now result }
{
    if none_is_behind(pairs, at, segment) {
        return pairs.len();
    }
    let mut count = 0;
    while count < pairs.len() {
        if !is_not_behind(&pairs[count], at, segment) {
            return count;
        }
        count += 1;
    }
    count
}

/// The pairs whose names have this segment at this place, among sorted pairs. They are found at once where they begin at the index
/// `near`.
pub(crate) fn with_segment<'p, 'a>(
    pairs: &'p [Pair<'a>],
    near: usize,
    at: usize,
    segment: &[u8],
) -> &'p [Pair<'a>]
    requires sorted { LeavesAscend (kept_leaves at pairs.now) }
    ensures inside { kept_leaves (at + suc (length segment.now)) result.now ≡ inside segment.now (kept_leaves at pairs.now) }
    ensures sorted { LeavesAscend (kept_leaves (at + suc (length segment.now)) result.now) }
    ensures room { result.now ≢ [] → at + length segment.now < 2 ^ 63 }
{
    let from = begin_of(pairs, near, at, segment);
    let rest = pairs_from(pairs, from);
    let count = count_of(rest, at, segment);
    &rest[..count]
}

/// The one pair whose name ends at this place, where there are no others.
pub(crate) fn only_here<'p, 'a>(pairs: &'p [Pair<'a>], at: usize) -> Option<&'p Pair<'a>>
    requires sorted { LeavesAscend (kept_leaves at pairs.now) }
    ensures { MatchOption result ((t : List ℕ) → AreSame (kept_leaves at pairs.now) (leaf t ∷ []) → ⊥) (λ p. kept_leaves at pairs.now ≡ leaf (cow_str_bytes p.now.text) ∷ []) }
{
    if pairs.len() != 1 {
        return None;
    }
    let pair = &pairs[0];
    if at <= pair.name.as_str().len() {
        return None;
    }
    Some(pair)
}
