//! What a serializer adds to the end of a body.
ghost use Rattle.std.specs.Prelude.{◌≡◌, [], ◌∷◌, ◌++◌, OnOk};
ghost use Rattle.smithy_shapes.specs.Site.{site_of};
ghost use Rattle.smithy_declarations.specs.TimeForms.{form_or};
ghost use Rattle.smithy_texts.specs.Base64Text.{blob_text};
ghost use Rattle.smithy_types.specs.Document.{whole_document};
ghost use Rattle.smithy_types.specs.DocumentView.{document_view};
ghost use Rattle.smithy_json_grammar.specs.Ascii.{quotation_mark};
ghost use Rattle.smithy_json.specs.Escape.{quoted};
ghost use Rattle.smithy_json_codec.specs.Canonical.{document_text, key_text, time_form};
ghost use Rattle.smithy_json.specs.ValueTexts.{name_text};
ghost use Rattle.smithy_json_codec.specs.Writing.{comma_text};

use smithy_json::{push_document, push_escaped};
use smithy_schema::{Schema, TimestampFormat};
use smithy_types::{Document, Format, base64};
use std::alloc::AllocError;

pub(crate) fn push_quoted(out: &mut Vec<u8>, text: &str) -> Result<(), AllocError>
    ensures { OnOk result (out.new.items ≡ out.old.items ++ quoted text.now) }
{
    out.push(b'"')?;
    push_escaped(out, text)?;
    out.push(b'"')?;
    Ok(())
}

pub(crate) fn push_name(out: &mut Vec<u8>, name: &str) -> Result<(), AllocError>
    ensures { OnOk result (out.new.items ≡ out.old.items ++ name_text name.now) }
{
    out.push(b'"')?;
    push_escaped(out, name)?;
    out.reserve(2)?;
    out.push_reserved(b'"');
    out.push_reserved(b':');
    Ok(())
}

// The base64 of bytes as a string: nothing in it is escaped.
pub(crate) fn push_base64(out: &mut Vec<u8>, bytes: &[u8]) -> Result<(), AllocError>
    ensures { OnOk result (out.new.items ≡ out.old.items ++ quotation_mark ∷ (blob_text bytes.now ++ quotation_mark ∷ [])) }
{
    let text = base64::encode(*out.allocator(), bytes)?;
    out.push(b'"')?;
    out.extend_from_slice(text.as_bytes())?;
    out.push(b'"')?;
    Ok(())
}

// The text of a document, in which each number is its whole number.
pub(crate) fn push_whole_document(out: &mut Vec<u8>, document: &Document) -> Result<(), AllocError>
    ensures { OnOk result (out.new.items ≡ out.old.items ++ document_text (whole_document (document_view document.now))) }
{
    push_document(out, document)
}

// The key of a member, with its colon; nothing for what has no name.
#[inline(never)]
pub(crate) fn push_key(
    out: &mut Vec<u8>,
    use_json_name: bool,
    schema: &Schema<'_>,
) -> Result<(), AllocError>
    ensures { OnOk result (out.new.items ≡ out.old.items ++ key_text use_json_name (site_of schema.now).view) }
{
    let Some(member_name) = schema.member_name() else {
        return Ok(());
    };
    if use_json_name && let Some(json_name) = schema.json_name() {
        return push_name(out, json_name);
    }
    push_name(out, member_name)
}

#[inline(always)]
pub(crate) fn push_comma(out: &mut Vec<u8>, needs_comma: bool) -> Result<(), AllocError>
    ensures { OnOk result (out.new.items ≡ out.old.items ++ comma_text needs_comma) }
{
    if needs_comma {
        out.push(b',')?;
    }
    Ok(())
}

// The time form in which instants are written in a form.
fn time_form(form: Format) -> TimestampFormat
    ensures { result ≡ time_form form }
{
    match form {
        Format::EpochSeconds => TimestampFormat::EpochSeconds,
        Format::HttpDate => TimestampFormat::HttpDate,
        Format::DateTime | Format::DateTimeWithOffset => TimestampFormat::DateTime,
    }
}

// The form in which instants are written at a place: its own, or that of the default.
pub(crate) fn form_at(schema: &Schema<'_>, default: Format) -> TimestampFormat
    ensures { result ≡ form_or (time_form default) (site_of schema.now).place.time }
{
    schema.timestamp_format().unwrap_or(time_form(default))
}
