//! How a text is written between quotation marks (RFC 8259, section 7).

ghost use Rattle.std.specs.Prelude.{◌≡◌, ◌<◌, ◌↔◌, ◌++◌, IfOk, IsOk, OnOk, OnErr, Ok, false};
ghost use Rattle.std.specs.Cow.{cow_str_bytes, IsBorrowedStr};
ghost use Rattle.std.specs.List.{prefix_len};
ghost use Rattle.smithy_json.specs.Escape.{escaped_byte, escaped, hex_escape};
ghost use Rattle.smithy_json.specs.Appending.{AddsFront};
ghost use Rattle.smithy_json_grammar.specs.Private.Chars.{is_plain};
ghost use Rattle.smithy_json_grammar.specs.Unescape.{unescape};

use smithy_json_grammar::scan;
use smithy_texts::AppendText;
use std::alloc::{AllocError, Global};
use std::borrow::CowStr;

/// The text with the escapes that it needs in a string: `\"`, `\\`, `\b`, `\f`, `\n`, `\r`, `\t`, and
/// `\u` with four lower-case digits for the other bytes below 0x20.
#[tactic(auto, using(crate::proofs::EscapeLemmas::unescape_of_escaped))]
pub fn escape_string(alloc: Global, value: &str) -> Result<CowStr<'_, Global>, AllocError>
    ensures text { IfOk result (λ text. cow_str_bytes text ≡ escaped value.now) }
    ensures borrowed { IfOk result (λ text. IsBorrowedStr text ↔ (escaped value.now ≡ value.now)) }
    // A text without anything to escape needs no memory.
    ensures unchanged { escaped value.now ≡ value.now → IsOk result }
    // What is written stands for the text.
    ensures unescapes { unescape (escaped value.now) ≡ Ok value.now }
{
    let first_stop = scan::stop(value.as_bytes(), 0, true);
    if first_stop == value.len() {
        return Ok(CowStr::Borrowed(value));
    }
    // With its escapes the text is longer, mostly by a few bytes.
    let mut text = String::with_capacity(alloc, value.len().saturating_add(16))?;
    text.push_str(&value[..first_stop])?;
    push_escaped(&mut text, &value[first_stop..])?;
    Ok(CowStr::Owned(text))
}

/// Adds the text with its escapes. Runs of bytes that need no escape are copied as a whole. After a
/// refusal a front of it stands behind what was there.
#[inline(always)]
pub fn push_escaped<T: AppendText>(out: &mut T, text: &str) -> Result<(), AllocError>
    ensures ok { OnOk result (T.bytes out.new ≡ T.bytes out.old ++ escaped text.now) }
    ensures err { OnErr result (AddsFront (T.bytes out.old) (escaped text.now) (T.bytes out.new)) }
{
    let first_stop = scan::stop(text.as_bytes(), 0, true);
    out.append_text(&text[..first_stop])?;
    if first_stop == text.len() {
        return Ok(());
    }
    push_from_stop(out, &text[first_stop..])
}

// Adds a text that is empty or begins with a byte to be escaped, with its escapes. It stays a call, so that `push_escaped` is
// short for a text without any such byte.
#[inline(never)]
fn push_from_stop<T: AppendText>(out: &mut T, text: &str) -> Result<(), AllocError>
    requires { prefix_len is_plain text.now ≡ 0 }
    ensures ok { OnOk result (T.bytes out.new ≡ T.bytes out.old ++ escaped text.now) }
    ensures err { OnErr result (AddsFront (T.bytes out.old) (escaped text.now) (T.bytes out.new)) }
{
    let bytes = text.as_bytes();
    let mut stop = 0;
    while stop < bytes.len() {
        push_escape(out, bytes[stop])?;
        let behind = stop + 1;
        stop = scan::stop(bytes, behind, true);
        out.append_text(&text[behind..stop])?;
    }
    Ok(())
}

// Adds the escape of a byte that doesn't stand for itself. It stays a call, so that the loop over runs is
// short.
#[inline(never)]
fn push_escape<T: AppendText>(out: &mut T, byte: u8) -> Result<(), AllocError>
    requires { is_plain byte ≡ false }
    ensures ok { OnOk result (T.bytes out.new ≡ T.bytes out.old ++ escaped_byte byte) }
    ensures err { OnErr result (T.bytes out.new ≡ T.bytes out.old) }
{
    match byte {
        b'"' => out.append_text("\\\""),
        b'\\' => out.append_text("\\\\"),
        0x08 => out.append_text("\\b"),
        0x0c => out.append_text("\\f"),
        b'\n' => out.append_text("\\n"),
        b'\r' => out.append_text("\\r"),
        b'\t' => out.append_text("\\t"),
        _ => out.append_text(hex_escape(byte)),
    }
}

fn hex_escape(byte: u8) -> &'static str
    requires { byte < 0x20 }
    ensures { result.now ≡ hex_escape byte }
{
    match byte {
        0x00 => "\\u0000",
        0x01 => "\\u0001",
        0x02 => "\\u0002",
        0x03 => "\\u0003",
        0x04 => "\\u0004",
        0x05 => "\\u0005",
        0x06 => "\\u0006",
        0x07 => "\\u0007",
        0x08 => "\\u0008",
        0x09 => "\\u0009",
        0x0a => "\\u000a",
        0x0b => "\\u000b",
        0x0c => "\\u000c",
        0x0d => "\\u000d",
        0x0e => "\\u000e",
        0x0f => "\\u000f",
        0x10 => "\\u0010",
        0x11 => "\\u0011",
        0x12 => "\\u0012",
        0x13 => "\\u0013",
        0x14 => "\\u0014",
        0x15 => "\\u0015",
        0x16 => "\\u0016",
        0x17 => "\\u0017",
        0x18 => "\\u0018",
        0x19 => "\\u0019",
        0x1a => "\\u001a",
        0x1b => "\\u001b",
        0x1c => "\\u001c",
        0x1d => "\\u001d",
        0x1e => "\\u001e",
        _ => "\\u001f",
    }
}
