//! Pairs at the end of a form. A refused pair leaves the text as it was.
ghost use Rattle.std.specs.Prelude.{◌≡◌, ◌++◌, ◌∷◌, [], length, take, codes, string_bytes, OnOk, OnErr};
ghost use Rattle.smithy_query.specs.Split.{pairs_of};
ghost use Rattle.smithy_query.specs.Form.{pair_text, form_head};

use crate::percent::append_encoded;
use std::alloc::AllocError;

// Adds a pair to a text, which stays as it is where memory is refused.
pub(crate) fn push_pair(
    out: &mut String,
    base: &str,
    rest: &str,
    value: &str,
) -> Result<(), AllocError>
    ensures ok { OnOk result (string_bytes out.new ≡ string_bytes out.old ++ pair_text (base.now ++ rest.now) value.now) }
    ensures err { OnErr result (string_bytes out.new ≡ string_bytes out.old) }
{
    let length = out.len();
    let done = add_pair(out, base, rest, value);
    if done.is_err() {
        out.truncate(length);
    }
    done
}

fn add_pair(out: &mut String, base: &str, rest: &str, value: &str) -> Result<(), AllocError>
    ensures ok { OnOk result (string_bytes out.new ≡ string_bytes out.old ++ pair_text (base.now ++ rest.now) value.now) }
    ensures front { take (length (string_bytes out.old)) (string_bytes out.new) ≡ string_bytes out.old }
{
    out.push_str("&")?;
    out.push_str(base)?;
    out.push_str(rest)?;
    out.push_str("=")?;
    append_encoded(out, value)
}

// Adds the action and the version.
pub(crate) fn push_head(out: &mut String, action: &str, version: &str) -> Result<(), AllocError>
    ensures ok { OnOk result (string_bytes out.new ≡ string_bytes out.old ++ form_head action.now version.now) }
    ensures err { OnErr result (string_bytes out.new ≡ string_bytes out.old) }
    ensures reads { pairs_of (form_head action.now version.now) ≡ (codes "Action", action.now) ∷ (codes "Version", version.now) ∷ [] }
{
    let length = out.len();
    let done = add_head(out, action, version);
    if done.is_err() {
        out.truncate(length);
    }
    done
}

fn add_head(out: &mut String, action: &str, version: &str) -> Result<(), AllocError>
    ensures ok { OnOk result (string_bytes out.new ≡ string_bytes out.old ++ form_head action.now version.now) }
    ensures front { take (length (string_bytes out.old)) (string_bytes out.new) ≡ string_bytes out.old }
{
    out.push_str("Action=")?;
    append_encoded(out, action)?;
    add_pair(out, "Version", "", version)
}
