//! Texts and bytes of a reader in a pool.
ghost use Rattle.std.specs.Prelude.{◌≡◌, IfOk, IfErr, OnErr};
ghost use Rattle.smithy_schema.specs.Spans.{text_bytes, span_bytes, IsTextPlaced, IsPlaced};
ghost use Rattle.smithy_schema.specs.declared.error.SerdeError.TheVariants.{NoMemory};
ghost use Rattle.smithy_tree.specs.Seen.{IsSound, HasBytes};
ghost use Rattle.smithy_value.specs.Private.Placed.{HasText, RefusesText, RefusesBytes};

use smithy_schema::{BytesSpan, SerdeError, TextSpan};
use smithy_tree::Pool;

// Where a copy of the text stands in the pool.
#[inline(never)]
fn copy_text(pool: &mut Pool<'_>, text: &str) -> Result<(u32, u32), SerdeError>
    requires sound { IsSound pool.old }
    ensures ok { IfOk result (λ r. HasText pool.old pool.new r.0 r.1 text.now) }
    ensures err { IfErr result (λ e. e ≡ NoMemory) }
{
    Ok(pool.copy(text.as_bytes())?)
}

// Where the text stands in the pool.
#[inline(always)]
pub(crate) fn place_text(pool: &mut Pool<'_>, text: TextSpan) -> Result<(u32, u32), SerdeError>
    requires sound { IsSound pool.old }
    requires placed { IsTextPlaced pool.old.input.now text }
    ensures ok { IfOk result (λ r. HasText pool.old pool.new r.0 r.1 (text_bytes pool.old.input.now text)) }
    ensures err { IfErr result (λ e. e ≡ NoMemory) }
    ensures limit { OnErr result (RefusesText text) }
{
    match text {
        TextSpan::Placed(at, size) => {
            if at > u32::MAX as usize || size > u32::MAX as usize {
                return Err(SerdeError::NoMemory);
            }
            Ok((at as u32, size as u32))
        }
        TextSpan::Owned(text) => copy_text(pool, text.as_str()),
    }
}

// Where the bytes stand in the pool.
#[inline(always)]
pub(crate) fn place_bytes(pool: &mut Pool<'_>, bytes: BytesSpan) -> Result<(u32, u32), SerdeError>
    requires sound { IsSound pool.old }
    requires placed { IsPlaced pool.old.input.now bytes }
    ensures ok { IfOk result (λ r. HasBytes pool.old pool.new r.0 r.1 (span_bytes pool.old.input.now bytes)) }
    ensures err { IfErr result (λ e. e ≡ NoMemory) }
    ensures limit { OnErr result (RefusesBytes bytes) }
{
    match bytes {
        BytesSpan::Placed(at, size) => {
            if at > u32::MAX as usize || size > u32::MAX as usize {
                return Err(SerdeError::NoMemory);
            }
            Ok((at as u32, size as u32))
        }
        BytesSpan::Owned(blob) => Ok(pool.copy(blob.as_ref())?),
    }
}
