//! The pairs of a form.
ghost use Rattle.std.specs.Prelude.{◌<◌, ◌^◌, length};
ghost use Rattle.std.specs.Cow.{cow_str_bytes};

use std::alloc::Global;
use std::borrow::CowStr;

/// A pair, decoded, with its number in the form, from 1.
#[derive(Drop)]
pub(crate) struct Pair<'a> {
    pub(crate) name: CowStr<'a, Global>,
    pub(crate) text: CowStr<'a, Global>,
    pub(crate) number: u64,

    // A place in a name, and the one after it, fit a `usize`.
    ghost short: { length (cow_str_bytes name) < 2 ^ 63 },
}
