//! Paths of values in a form: segments with points between them.
ghost use Rattle.std.specs.Prelude.{◌≡◌, ◌<◌, ◌++◌, ◌∷◌, [], string_bytes, if◌then◌else◌, OnOk, IfOk};
ghost use Rattle.std.specs.Fmt.{decimal};
ghost use Rattle.smithy_query.specs.Writer.{further};

use itoa::Buffer;
use std::alloc::{AllocError, Global};

// The path of a writer, as a text of its own.
pub(crate) fn joined(alloc: Global, base: &str, rest: &str) -> Result<String, AllocError>
    ensures { IfOk result (λ p. string_bytes p ≡ base.now ++ rest.now) }
{
    let mut path = String::new(alloc);
    path.push_str(base)?;
    path.push_str(rest)?;
    Ok(path)
}

pub(crate) fn push_segment(path: &mut String, segment: &str) -> Result<(), AllocError>
    ensures { OnOk result (string_bytes path.new ≡ further (string_bytes path.old) (segment.now ∷ [])) }
{
    path.push_str(".")?;
    path.push_str(segment)
}

// Adds the segment between a list or a map and the numbers of its parts, which a flat one lacks.
pub(crate) fn push_group(path: &mut String, is_flat: bool, name: &str) -> Result<(), AllocError>
    ensures { OnOk result (string_bytes path.new ≡ further (string_bytes path.old) (if is_flat then [] else name.now ∷ [])) }
{
    if is_flat {
        return Ok(());
    }
    push_segment(path, name)
}

// Adds the number of a part. The greatest is no part's, so that each part has a number behind it.
pub(crate) fn push_number(path: &mut String, n: u64) -> Result<(), AllocError>
    ensures path { OnOk result (string_bytes path.new ≡ further (string_bytes path.old) (decimal n ∷ [])) }
    ensures room { OnOk result (n < 18446744073709551615) }
{
    if n == u64::MAX {
        return Err(AllocError);
    }
    let mut buffer = Buffer::new();
    push_segment(path, buffer.format(n))
}
