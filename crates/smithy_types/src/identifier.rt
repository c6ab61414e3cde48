//! Identifiers of shapes, as documents name them.
ghost use Rattle.std.specs.Prelude.{◌≡◌, ◌≤◌, length, IfOk, option_map, string_bytes};
ghost use Rattle.std.specs.List.{list_all, list_any, position_or_len, after_first};
ghost use Rattle.smithy_types.specs.Identifier.{is_hash, is_dollar, is_absolute, is_name_byte, is_name, identifier_of};

use std::alloc::{AllocError, Global};

// Where the first `#` stands, or the length.
fn hash_at(text: &[u8]) -> usize
    ensures place { result ≡ position_or_len is_hash text.now }
    ensures within { result ≤ length text.now }
{
    let mut at = 0;
    while at < text.len() && text[at] != b'#' {
        at += 1;
    }
    at
}

// What comes after the first `#`.
fn after_hash(text: &[u8]) -> &[u8]
    ensures { result.now ≡ after_first is_hash text.now }
{
    let at = hash_at(text);
    if at < text.len() {
        &text[at + 1..]
    } else {
        &text[at..]
    }
}

/// Whether a `#` stands in the text.
pub fn has_hash(text: &[u8]) -> bool
    ensures { result ≡ list_any is_hash text.now }
{
    for byte in text {
        if *byte == b'#' {
            return true;
        }
    }
    false
}

fn has_dollar(text: &[u8]) -> bool
    ensures { result ≡ list_any is_dollar text.now }
{
    for byte in text {
        if *byte == b'$' {
            return true;
        }
    }
    false
}

fn is_absolute(text: &[u8]) -> bool
    ensures { result ≡ is_absolute text.now }
{
    let namespace = &text[..hash_at(text)];
    let name = after_hash(text);
    !namespace.is_empty() && !name.is_empty() && !has_hash(name) && !has_dollar(text)
}

fn are_name_bytes(text: &[u8]) -> bool
    ensures { result ≡ list_all is_name_byte text.now }
{
    for byte in text {
        if !(byte.is_ascii_alphanumeric() || *byte == b'_') {
            return false;
        }
    }
    true
}

fn is_name(text: &[u8]) -> bool
    ensures { result ≡ is_name text.now }
{
    !text.is_empty() && !text[0].is_ascii_digit() && are_name_bytes(text)
}

// The identifier that a text gives: itself, or where it has no `#` its name behind the namespace.
pub(crate) fn identifier_of(
    alloc: Global,
    namespace: Option<&str>,
    text: &str,
) -> Result<Option<String>, AllocError>
    ensures { IfOk result (λ found. option_map string_bytes found ≡ identifier_of (option_map (λ n. n.now) namespace.entry) text.now) }
{
    if has_hash(text.as_bytes()) {
        if !is_absolute(text.as_bytes()) {
            return Ok(None);
        }
        return Ok(Some(String::from_str(alloc, text)?));
    }
    if !is_name(text.as_bytes()) {
        return Ok(None);
    }
    let Some(namespace) = namespace else {
        return Ok(None);
    };
    let identifier = format!(in alloc; "{namespace}#{text}")?;
    Ok(Some(identifier))
}
