//! Pairs in the order of their names.
ghost use Rattle.std.specs.Prelude.{◌≡◌, map};
ghost use Rattle.smithy_form.specs.Private.Kept.{named_text};
ghost use Rattle.smithy_form.specs.Private.Order.{AreNumbered, SortsPairs, pair_cmp, least_repeated as least_repeated_of, with_repeat as with_repeat_of};

use crate::error::FormError;
use crate::find::compare_names;
use crate::pairs::Pair;
use std::alloc::Global;
use std::cmp::Ordering;

fn compare_pairs(a: &Pair<'_>, b: &Pair<'_>) -> Ordering
    ensures { result ≡ pair_cmp a.now b.now }
{
    let order = compare_names(a.name.as_str().as_bytes(), b.name.as_str().as_bytes());
    order.then(a.number.cmp(&b.number))
}

/// The least number so far, with that of the second pair where both have one name.
fn with_repeat(before: &Pair<'_>, pair: &Pair<'_>, least: Option<u64>) -> Option<u64>
    ensures { result ≡ with_repeat_of before.now pair.now least }
{
    if before.name.as_str() != pair.name.as_str() {
        return least;
    }
    let Some(number) = least else {
        return Some(pair.number);
    };
    if number < pair.number {
        return least;
    }
    Some(pair.number)
}

/// The least number of a pair with the name of the one before it, among sorted pairs.
fn least_repeated(pairs: &[Pair<'_>]) -> Option<u64>
    ensures { result ≡ least_repeated_of pairs.now }
{
    let mut least = None;
    let mut at = pairs.len();
    while at > 1 {
        at -= 1;
        least = with_repeat(&pairs[at - 1], &pairs[at], least);
    }
    least
}

/// Sorts pairs by their names, if no two have one name.
pub(crate) fn sort_pairs(alloc: Global, pairs: &mut [Pair<'_>]) -> Result<(), FormError>
    requires { AreNumbered 3 pairs.old }
    ensures { SortsPairs (map named_text pairs.old) (map named_text pairs.new) result }
{
    // Pairs that a writer puts down in order are a few long runs, which the stable sort keeps.
    pairs.sort_by(alloc, |a, b| compare_pairs(a, b))?;
    match least_repeated(pairs) {
        Some(number) => Err(FormError::Repeated(number)),
        None => Ok(()),
    }
}
