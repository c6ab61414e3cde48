//! Documents that name their shape by an entry of theirs.
ghost use Rattle.std.specs.Prelude.{◌≡◌, Some, IfOk, is_some, option_map, string_bytes};
ghost use Rattle.smithy_types.specs.Coercion.{coercion_of};
ghost use Rattle.smithy_types.specs.Discriminated.{discriminated_view};
ghost use Rattle.smithy_types.specs.DocumentView.{document_view, properties_view};
ghost use Rattle.smithy_types.specs.Identifier.{under, without, type_name, type_in, identifier_in, without_type, named_document};

use crate::discriminated_document::DiscriminatedDocument;
use crate::document::Document;
use crate::document_settings::DocumentCoercion;
use crate::identifier::identifier_of;
use std::alloc::{AllocError, Global};
use std::collections::BTreeMap;

fn type_of(properties: &BTreeMap<String, Document>) -> Option<&Document>
    ensures { option_map (λ d. document_view d.now) result ≡ under type_name (properties_view properties.now.entries) }
{
    properties.get("__type")
}

/// Whether the object has an entry `__type`.
pub fn has_type(properties: &BTreeMap<String, Document>) -> bool
    ensures { result ≡ is_some (under type_name (properties_view properties.now.entries)) }
{
    type_of(properties).is_some()
}

// The text under `__type` of an object.
fn type_in(document: &Document) -> Option<&str>
    ensures { option_map (λ t. t.now) result ≡ type_in (document_view document.now) }
{
    type_of(document.as_object()?)?.as_string()
}

fn identifier_in(
    alloc: Global,
    namespace: Option<&str>,
    document: &Document,
) -> Result<Option<String>, AllocError>
    ensures { IfOk result (λ found. option_map string_bytes found ≡ identifier_in (option_map (λ n. n.now) namespace.entry) (document_view document.now)) }
{
    match type_in(document) {
        Some(text) => identifier_of(alloc, namespace, text),
        None => Ok(None),
    }
}

fn without_entry(mut properties: BTreeMap<String, Document>) -> BTreeMap<String, Document>
    ensures { properties_view result.entries ≡ without type_name (properties_view properties.entries) }
{
    drop(properties.remove("__type"));
    properties
}

fn without_type(document: Document) -> Document
    ensures { document_view result ≡ without_type (document_view document) }
{
    match document {
        Document::Object(properties) => Document::Object(without_entry(properties)),
        other => other,
    }
}

/// The document with the identifier of its shape, where its entry `__type` gives one: a text with a `#`, or a name that stands in
/// the namespace. That entry is taken out then. The answer has the settings.
pub fn named(
    alloc: Global,
    namespace: Option<&str>,
    settings: DocumentCoercion,
    document: Document,
) -> Result<DiscriminatedDocument, AllocError>
    ensures { IfOk result (λ d. discriminated_view d ≡ named_document (option_map (λ n. n.now) namespace.entry) (Some (coercion_of settings)) (document_view document)) }
{
    let Some(identifier) = identifier_in(alloc, namespace, &document)? else {
        return Ok(DiscriminatedDocument::new(document).with_settings(settings));
    };
    let rest = DiscriminatedDocument::new(without_type(document));
    Ok(rest.with_settings(settings).with_discriminator(identifier))
}
