//! The path of a leaf, and pairs of a path and a text.
ghost use Rattle.std.specs.Prelude.{◌≡◌, ◌++◌, [], take, drop, length, true, false, OnOk, Ok, decimal, option_to_list};
ghost use Rattle.smithy_shapes.specs.Site.{site_of};
ghost use Rattle.smithy_query.specs.Form.{pair_text, form_head};
ghost use Rattle.smithy_query_codec.specs.Leaves.{query_name as name_in_form, inner_path};
ghost use Rattle.smithy_query_codec.specs.Writing.{dotted, extended};
ghost use Rattle.smithy_query_codec.specs.Serializing.{role_of_flatness};

use crate::names::query_name;
use itoa::Buffer;
use smithy_query::push_encoded;
use smithy_schema::Schema;
use std::alloc::AllocError;

// Adds a segment to a path.
pub(crate) fn push_segment(prefix: &mut Vec<u8>, segment: &[u8]) -> Result<(), AllocError>
    ensures { OnOk result (prefix.new.items ≡ dotted prefix.old.items segment.now) }
{
    if !prefix.is_empty() {
        prefix.push(b'.')?;
    }
    prefix.extend_from_slice(segment)?;
    Ok(())
}

pub(crate) fn push_number(prefix: &mut Vec<u8>, number: u64) -> Result<(), AllocError>
    ensures { OnOk result (prefix.new.items ≡ dotted prefix.old.items (decimal number)) }
{
    let mut buffer = Buffer::new();
    push_segment(prefix, buffer.format(number).as_bytes())
}

// The first bytes, at most so many.
pub(crate) fn front(bytes: &[u8], length: usize) -> &[u8]
    ensures { result.now ≡ take length bytes.now }
{
    if length < bytes.len() {
        &bytes[..length]
    } else {
        bytes
    }
}

// The bytes behind the first so many.
pub(crate) fn behind(bytes: &[u8], length: usize) -> &[u8]
    ensures { result.now ≡ drop length bytes.now }
{
    if length < bytes.len() {
        &bytes[length..]
    } else {
        &[]
    }
}

// Adds the name of a member to a path, where there is one.
pub(crate) fn push_name(prefix: &mut Vec<u8>, schema: &Schema<'_>) -> Result<(), AllocError>
    ensures { OnOk result (prefix.new.items ≡ extended prefix.old.items (option_to_list (name_in_form (site_of schema.now).view))) }
{
    match query_name(schema) {
        Some(name) => push_segment(prefix, name.as_bytes()),
        None => Ok(()),
    }
}

// Adds what stands between a list or a map and the numbers of its parts: nothing where it is a flat member's value.
pub(crate) fn push_inner(
    prefix: &mut Vec<u8>,
    flatness: Option<bool>,
    name: &str,
) -> Result<(), AllocError>
    ensures { OnOk result (prefix.new.items ≡ extended prefix.old.items (inner_path (role_of_flatness flatness) name.now)) }
{
    match flatness {
        Some(true) => Ok(()),
        Some(false) | None => push_segment(prefix, name.as_bytes()),
    }
}

// Adds a pair: its path as it is, its text percent-encoded.
pub(crate) fn push_pair(out: &mut Vec<u8>, path: &[u8], text: &str) -> Result<(), AllocError>
    ensures { OnOk result (out.new.items ≡ out.old.items ++ pair_text path.now text.now) }
{
    out.push(b'&')?;
    out.extend_from_slice(path)?;
    out.push(b'=')?;
    push_encoded(out, text)
}

// Adds the beginning of a form.
pub(crate) fn push_head(out: &mut Vec<u8>, action: &str, version: &str) -> Result<(), AllocError>
    ensures { OnOk result (out.new.items ≡ out.old.items ++ form_head action.now version.now) }
{
    out.extend_from_slice(b"Action=")?;
    push_encoded(out, action)?;
    push_pair(out, b"Version", version)
}
