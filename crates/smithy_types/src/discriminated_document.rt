//! Documents with the identifier of their shape.
ghost use Rattle.std.specs.Prelude.{◌≡◌, ◌⊎◌, Some, IfOk, IfErr, option_map, string_bytes};
ghost use Rattle.smithy_types.specs.Coercion.{coercion_of, means, refused, blob_in, instant_in, TakesMemory};
ghost use Rattle.smithy_types.specs.DocumentFault.{fault_of, no_memory, type_mismatch};
ghost use Rattle.smithy_types.specs.DocumentView.{document_view};

use crate::document::Document;
use crate::document_error::DocumentError;
use crate::document_settings::{
    DocumentCoercion, DocumentSettings, instant_of_seconds, no_settings,
};
use smithy_instants::DateTime;
use std::alloc::{AllocError, Global};
use std::borrow::CowStr;

/// A document, with the identifier of its shape and what its texts and numbers stand for, where these are known. Equal are two of
/// equal documents and identifiers.
#[derive(Debug, Drop)]
#[derive_where(PartialEq)]
pub struct DiscriminatedDocument {
    document: Document,
    discriminator: Option<String>,
    #[derive_where(skip(EqHashOrd))]
    settings: Option<DocumentCoercion>,
}

impl Default for DiscriminatedDocument {
    ghost use Rattle.smithy_types.specs.Document.{null};
    ghost use Rattle.smithy_types.specs.Discriminated.{discriminated_view, alone};

    ghost is_default = { λ d. discriminated_view d ≡ alone null };

    fn default() -> DiscriminatedDocument {
        DiscriminatedDocument::new(Document::Null)
    }
}

impl From<Document> for DiscriminatedDocument {
    ghost use Rattle.smithy_types.specs.Discriminated.{discriminated_view, alone};

    ghost from_gives = { λ document d. discriminated_view d ≡ alone (document_view document) };

    fn from(document: Document) -> DiscriminatedDocument {
        DiscriminatedDocument::new(document)
    }
}

fn wrong_type() -> DocumentError
    ensures { fault_of result ≡ type_mismatch }
{
    DocumentError::type_mismatch(CowStr::Borrowed("the document is of another type"))
}

// Equal settings, in memory of their own.
fn copy_of_settings(
    alloc: Global,
    settings: &Option<DocumentCoercion>,
) -> Result<Option<DocumentCoercion>, AllocError>
    ensures { IfOk result (λ s. option_map coercion_of s ≡ option_map coercion_of settings.now) }
{
    let Some(settings) = settings else {
        return Ok(None);
    };
    let protocol_id = String::from_str(alloc, settings.protocol_id.as_str())?;
    Ok(Some(DocumentCoercion {
        protocol_id: CowStr::Owned(protocol_id),
        default_timestamp_format: settings.default_timestamp_format,
    }))
}

impl DiscriminatedDocument {
    ghost use Rattle.smithy_types.specs.Discriminated.{discriminated_view, alone};

    /// The document alone.
    pub fn new(document: Document) -> DiscriminatedDocument
        ensures { discriminated_view result ≡ alone (document_view document) }
    {
        DiscriminatedDocument {
            document,
            discriminator: None,
            settings: None,
        }
    }

    /// The same with the identifier of its shape, as `com.amazonaws.dynamodb#Capacity`.
    pub fn with_discriminator(self, fqn: String) -> DiscriminatedDocument
        ensures { discriminated_view result ≡ record (discriminated_view self) { discriminator = Some (string_bytes fqn) } }
    {
        DiscriminatedDocument {
            document: self.document,
            discriminator: Some(fqn),
            settings: self.settings,
        }
    }

    /// The same with what its texts and numbers stand for.
    pub fn with_settings(self, settings: DocumentCoercion) -> DiscriminatedDocument
        ensures { discriminated_view result ≡ record (discriminated_view self) { settings = Some (coercion_of settings) } }
    {
        DiscriminatedDocument {
            document: self.document,
            discriminator: self.discriminator,
            settings: Some(settings),
        }
    }

    /// The identifier of its shape.
    pub fn discriminator(&self) -> Option<&str>
        ensures { option_map (λ text. text.now) result ≡ (discriminated_view self.now).discriminator }
    {
        self.discriminator.as_deref()
    }

    /// What its texts and numbers stand for.
    pub fn settings(&self) -> Option<&DocumentCoercion>
        ensures { option_map (λ settings. coercion_of settings.now) result ≡ (discriminated_view self.now).settings }
    {
        self.settings.as_ref()
    }

    /// The document.
    pub fn document(&self) -> &Document
        ensures { document_view result.now ≡ (discriminated_view self.now).document }
    {
        &self.document
    }

    /// The document.
    pub fn into_document(self) -> Document
        ensures { document_view result ≡ (discriminated_view self).document }
    {
        self.document
    }

    /// An equal document with equal settings, in memory of its own.
    pub fn clone_in(&self, alloc: Global) -> Result<DiscriminatedDocument, AllocError>
        ensures { IfOk result (λ d. discriminated_view d ≡ discriminated_view self.now) }
    {
        let discriminator = match &self.discriminator {
            Some(fqn) => Some(String::from_str(alloc, fqn.as_str())?),
            None => None,
        };
        Ok(DiscriminatedDocument {
            document: self.document.clone_in(alloc)?,
            discriminator,
            settings: copy_of_settings(alloc, &self.settings)?,
        })
    }

    /// The bytes that a text stands for by the settings. A text without settings is unsupported, and all else is of another type.
    pub fn as_blob(&self, alloc: Global) -> Result<Vec<u8>, DocumentError>
        ensures ok { IfOk result (λ bytes. blob_in (discriminated_view self.now).settings (discriminated_view self.now).document ≡ means bytes.items) }
        ensures err { IfErr result (λ e. ((fault_of e ≡ no_memory) × TakesMemory (discriminated_view self.now).settings (discriminated_view self.now).document) ⊎ (blob_in (discriminated_view self.now).settings (discriminated_view self.now).document ≡ refused (fault_of e))) }
    {
        let Document::String(text) = &self.document else {
            return Err(wrong_type());
        };
        match &self.settings {
            Some(settings) => settings.coerce_string_to_blob(alloc, text.as_str()),
            None => Err(no_settings()),
        }
    }

    /// The instant that a text or a number stands for by the settings. Without settings a number is so many seconds and a text
    /// is unsupported; all else is of another type.
    pub fn as_timestamp(&self) -> Result<DateTime, DocumentError>
        ensures ok { IfOk result (λ instant. instant_in (discriminated_view self.now).settings (discriminated_view self.now).document ≡ means instant) }
        ensures err { IfErr result (λ e. instant_in (discriminated_view self.now).settings (discriminated_view self.now).document ≡ refused (fault_of e)) }
    {
        match &self.document {
            Document::String(text) => match &self.settings {
                Some(settings) => settings.coerce_string_to_timestamp(text.as_str()),
                None => Err(no_settings()),
            },
            Document::Number(number) => match &self.settings {
                Some(settings) => settings.coerce_number_to_timestamp(number),
                None => instant_of_seconds(*number),
            },
            _ => Err(wrong_type()),
        }
    }
}
