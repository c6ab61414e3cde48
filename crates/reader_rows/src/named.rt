//! Documents with the identifier of their shape, which JSON alone reads and writes.

use crate::answers::push;
use crate::json_settings::form_name;
use crate::places::{place_of, split};
use crate::reads::push_text;
use crate::writes::document_of;
use smithy_json_codec::{JsonDeserializer, JsonSerializer};
use smithy_rows::{Field, bytes_of};
use smithy_schema::{SerdeError, Shapes};
use smithy_types::DiscriminatedDocument;
use std::alloc::Global;

/// Writes the document of a JSON text at a place, with an identifier unless that is `-`.
pub fn write_named(
    alloc: Global,
    shapes: &Shapes,
    sink: &mut JsonSerializer,
    text: &[u8],
) -> Option<Result<(), SerdeError>> {
    let (place, rest) = split(str::from_utf8(text).ok()?);
    let place = place_of(shapes, place)?;
    let (identifier, value) = split(rest);
    let text = bytes_of(alloc, value).ok()?;
    let document = DiscriminatedDocument::new(document_of(alloc, &place, &text)?);
    if identifier == "-" {
        return Some(sink.write_discriminated_document(&place, &document));
    }
    let identifier = String::from_str(alloc, identifier).ok()?;
    let document = document.with_discriminator(identifier);
    Some(sink.write_discriminated_document(&place, &document))
}

/// Reads a document, and adds its identifier where there is one, its text, and what its settings are.
pub fn read_named(
    alloc: Global,
    source: &mut JsonDeserializer<'_, '_>,
    answers: &mut Vec<Field>,
) -> Result<(), SerdeError> {
    let document = source.read_discriminated_document()?;
    if let Some(identifier) = document.discriminator() {
        push(alloc, answers, "discriminator", identifier.as_bytes())?;
    }
    push_text(alloc, document.document(), answers)?;
    if let Some(settings) = document.settings() {
        push(
            alloc,
            answers,
            "protocol",
            settings.protocol_id.as_str().as_bytes(),
        )?;
        let form = form_name(settings.default_timestamp_format);
        push(alloc, answers, "form", form.as_bytes())?;
    }
    Ok(())
}
