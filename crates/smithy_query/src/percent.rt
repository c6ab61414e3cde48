//! The texts of a form, percent-encoded.
ghost use Rattle.std.specs.Prelude.{◌≡◌, ◌++◌, OnOk, OnErr, string_bytes};
ghost use Rattle.smithy_query.specs.Percent.{encoded};

use percent_encoding::{AsciiSet, NON_ALPHANUMERIC, ascii_set, percent_encode};
use std::alloc::AllocError;

/// The ASCII bytes that are escaped: all but letters, digits, `-`, `_`, `.` and `~`.
pub(crate) const FORM_SET: AsciiSet = ascii_set!(
    NON_ALPHANUMERIC
        .remove(b'-')
        .remove(b'_')
        .remove(b'.')
        .remove(b'~')
);

/// Adds a text with its escapes to a string, which stays as it is where memory is refused.
#[tactic(auto, using(crate::proofs::PercentLemmas::encode_form))]
pub(crate) fn append_encoded(out: &mut String, text: &str) -> Result<(), AllocError>
    ensures ok { OnOk result (string_bytes out.new ≡ string_bytes out.old ++ encoded text.now) }
    ensures err { OnErr result (string_bytes out.new ≡ string_bytes out.old) }
{
    percent_encode(text.as_bytes(), FORM_SET).append_to(out)
}

/// Adds a text with its escapes to bytes, of which a part may stand where memory is refused.
#[tactic(auto, using(crate::proofs::PercentLemmas::encode_form))]
pub fn push_encoded(out: &mut Vec<u8>, text: &str) -> Result<(), AllocError>
    ensures ok { OnOk result (out.new.items ≡ out.old.items ++ encoded text.now) }
{
    for piece in percent_encode(text.as_bytes(), FORM_SET) {
        out.extend_from_slice(piece.as_bytes())?;
    }
    Ok(())
}
