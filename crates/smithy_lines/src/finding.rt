//! Where lines end, and parts of bytes.
ghost use Rattle.std.specs.Prelude.{◌≡◌, ◌<◌, ◌≤◌, ◌+◌, ◌++◌, ◌∷◌, take, drop, length, MatchOption};
ghost use Rattle.smithy_lines.specs.Lines.{line_feed, HasNoFeed};

use memchr::memchr;

/// How many bytes are from a place on to the next line feed, if there is one.
pub(crate) fn line_len(bytes: &[u8], at: usize) -> Option<usize>
    requires { at ≤ length bytes.now }
    ensures { MatchOption result (HasNoFeed (drop at bytes.now)) (λ len. (at + len < length bytes.now)
        × (drop at bytes.now ≡ take len (drop at bytes.now) ++ line_feed ∷ drop (at + (len + 1)) bytes.now) × HasNoFeed (take len (drop at bytes.now))) }
{
    memchr(b'\n', &bytes[at..])
}

/// The part of the bytes from a place on that has this length.
pub(crate) fn part(bytes: &[u8], at: usize, len: usize) -> &[u8]
    requires { at + len ≤ length bytes.now }
    ensures { result.now ≡ take len (drop at bytes.now) }
{
    &bytes[at..at + len]
}

/// The bytes from a place on.
pub(crate) fn after(bytes: &[u8], at: usize) -> &[u8]
    requires { at ≤ length bytes.now }
    ensures { result.now ≡ drop at bytes.now }
{
    &bytes[at..]
}
