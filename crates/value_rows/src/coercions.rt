//! What documents stand for as bytes and as instants, and which shape they name.

use crate::words::format_of;
use smithy_json::JsonValueWriter;
use smithy_rows::Answers;
use smithy_types::named_document::named;
use smithy_types::{DiscriminatedDocument, Document, DocumentCoercion};
use std::alloc::{AllocError, Global};
use std::borrow::CowStr;

fn blob(
    alloc: Global,
    document: &DiscriminatedDocument,
    answers: &mut Answers,
) -> Result<(), AllocError> {
    match document.as_blob(alloc) {
        Ok(bytes) => answers.bytes("bytes", bytes.as_slice()),
        Err(error) => answers.refused(error),
    }
}

fn timestamp(document: &DiscriminatedDocument, answers: &mut Answers) -> Result<(), AllocError> {
    match document.as_timestamp() {
        Ok(instant) => answers.text("nanos", instant.as_nanos()),
        Err(error) => answers.refused(error),
    }
}

fn coercion(form: &str) -> DocumentCoercion {
    DocumentCoercion {
        protocol_id: CowStr::Borrowed("aws.smithy.json#JsonCodec"),
        default_timestamp_format: format_of(form),
    }
}

// The document with settings of this default form; with none where the form has no name.
fn with_form(document: Document, form: &str) -> DiscriminatedDocument {
    let document = DiscriminatedDocument::new(document);
    if form.is_empty() {
        return document;
    }
    document.with_settings(coercion(form))
}

// The identifier that the document names, if it does, and what is left of it.
fn tell_named(
    alloc: Global,
    document: &DiscriminatedDocument,
    answers: &mut Answers,
) -> Result<(), AllocError> {
    if let Some(identifier) = document.discriminator() {
        answers.text("discriminator", identifier)?;
    }
    let mut text = String::new(alloc);
    JsonValueWriter::new(&mut text).document(document.document())?;
    answers.text("document", text.as_str())
}

/// Answers which shape a document names where relative names stand in the namespace; without one where it is empty.
pub fn call_named(
    alloc: Global,
    document: Document,
    namespace: &str,
    answers: &mut Answers,
) -> Result<(), AllocError> {
    let namespace = if namespace.is_empty() {
        None
    } else {
        Some(namespace)
    };
    let document = named(alloc, namespace, coercion("EpochSeconds"), document)?;
    tell_named(alloc, &document, answers)
}

/// Answers a call by its name, where settings have this default form.
pub fn call_coercion(
    alloc: Global,
    document: Document,
    name: &str,
    form: &str,
    answers: &mut Answers,
) -> Result<(), AllocError> {
    let document = with_form(document, form);
    match name {
        "as_blob" => blob(alloc, &document, answers),
        _ => timestamp(&document, answers),
    }
}
