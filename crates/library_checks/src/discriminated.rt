//! Documents with the identifier of their shape, and what the settings of one leave unsaid.
ghost use Rattle.std.specs.Prelude.{codes};

use smithy_types::{
    DiscriminatedDocument, Document, DocumentCoercion, DocumentError, DocumentSettings, Format,
    Number,
};
use std::alloc::{AllocError, Global};
use std::borrow::CowStr;

// The text `YQ==`, with the identifier of its shape and these settings.
fn named(
    alloc: Global,
    protocol_id: &'static str,
    default_timestamp_format: Format,
) -> Result<DiscriminatedDocument, AllocError> {
    let document = DiscriminatedDocument::new(Document::from("YQ==".to_string(alloc)?));
    let document = document.with_discriminator("com.example#T".to_string(alloc)?);
    Ok(document.with_settings(DocumentCoercion {
        protocol_id: CowStr::Borrowed(protocol_id),
        default_timestamp_format,
    }))
}

pub fn a_copy_has_every_part(alloc: Global) -> Option<bool> {
    let document = named(alloc, "a#p", Format::HttpDate).ok()?;
    let copy = document.clone_in(alloc).ok()?;
    let settings = copy.settings()?;
    Some(
        copy == document
            && copy.discriminator() == Some("com.example#T")
            && copy.document().as_string() == Some("YQ==")
            && settings.protocol_id() == "a#p"
            && settings.default_timestamp_format == Format::HttpDate,
    )
}

pub fn settings_are_not_compared(alloc: Global) -> Result<bool, AllocError> {
    let document = named(alloc, "a#p", Format::HttpDate)?;
    let same = named(alloc, "b#q", Format::EpochSeconds)?;
    let plain = DiscriminatedDocument::new(Document::from("YQ==".to_string(alloc)?));
    let is_other = plain != document;
    let of_the_shape = plain.with_discriminator("com.example#T".to_string(alloc)?);
    let other = DiscriminatedDocument::new(Document::from(true));
    let other = other.with_discriminator("com.example#T".to_string(alloc)?);
    Ok(document == same && is_other && of_the_shape == document && other != document)
}

// Settings that tell the protocol alone.
#[derive(Drop)]
struct Protocol;

impl DocumentSettings for Protocol {
    ghost id = { λ _. codes "a#p" };

    fn protocol_id(&self) -> &str {
        "a#p"
    }
}

// Whether the error is that no settings say what stands there.
fn is_unsupported<T>(answer: &Result<T, DocumentError>) -> bool {
    match answer {
        Err(DocumentError::UnsupportedOperation { .. }) => true,
        _ => false,
    }
}

pub fn what_settings_leave_unsaid_is_unsupported(alloc: Global) -> bool {
    let settings = Protocol;
    settings.protocol_id() == "a#p"
        && is_unsupported(&settings.coerce_string_to_blob(alloc, "YQ=="))
        && is_unsupported(&settings.coerce_string_to_timestamp("1970-01-01T00:00:00Z"))
        && is_unsupported(&settings.coerce_number_to_timestamp(&Number::PosInt(0)))
}
