//! What texts and numbers of a document stand for, by the protocol that it came by.
ghost use Rattle.std.specs.Prelude.{◌≡◌, ◌⊎◌, ℕ, ℤ, List, Option, Some, None, IfOk, IfErr};
ghost use Rattle.smithy_types.specs.Coercion.{date_form, seconds_of_number};
ghost use Rattle.smithy_types.specs.DocumentFault.{DocumentFault, fault_of, no_memory, invalid_input, unsupported};
ghost use Rattle.smithy_types.specs.declared.number.Number.{Number};

use crate::document_error::DocumentError;
use crate::number::Number;
use smithy_instants::{DateTime, Format};
use smithy_texts::base64_text::{DecodeError, decode};
use std::alloc::Global;
use std::borrow::CowStr;

/// Says what the texts and numbers of a document stand for.
pub trait DocumentSettings {
    // The text of the protocol's identifier.
    ghost id: { Self → List ℕ };

    // What a text stands for as bytes and as an instant, and a number as an instant, where they may stand for such.
    ghost blob: { Self → List ℕ → Option (List ℕ) } = { λ _ _. None };

    ghost date: { Self → List ℕ → Option ℤ } = { λ _ _. None };

    ghost seconds: { Self → Number → Option ℤ } = { λ _ _. None };

    // Which errors may come beside the unsupported one. Where an implementation says nothing, none may.
    ghost refuses_blob: { Self → List ℕ → DocumentFault → Type 0 } = { λ _ _ _. ⊥ };

    ghost refuses_date: { Self → List ℕ → DocumentFault → Type 0 } = { λ _ _ _. ⊥ };

    ghost refuses_seconds: { Self → Number → DocumentFault → Type 0 } = { λ _ _ _. ⊥ };

    /// The identifier of the protocol that the document came by.
    fn protocol_id(&self) -> &str
        ensures { result.now ≡ id self.now };

    /// The bytes that a text stands for. Unsupported unless an implementation says otherwise.
    fn coerce_string_to_blob(&self, _alloc: Global, _s: &str) -> Result<Vec<u8>, DocumentError>
        ensures sound { IfOk result (λ bytes. blob self.now _s.now ≡ Some bytes.items) }
        ensures err { IfErr result (λ e. (fault_of e ≡ unsupported) ⊎ refuses_blob self.now _s.now (fault_of e)) }
    {
        Err(no_settings())
    }

    /// The instant that a text stands for. Unsupported unless an implementation says otherwise.
    fn coerce_string_to_timestamp(&self, _s: &str) -> Result<DateTime, DocumentError>
        ensures sound { IfOk result (λ instant. date self.now _s.now ≡ Some instant) }
        ensures err { IfErr result (λ e. (fault_of e ≡ unsupported) ⊎ refuses_date self.now _s.now (fault_of e)) }
    {
        Err(no_settings())
    }

    /// The instant that a number stands for. Unsupported unless an implementation says otherwise.
    fn coerce_number_to_timestamp(&self, _n: &Number) -> Result<DateTime, DocumentError>
        ensures sound { IfOk result (λ instant. seconds self.now _n.now ≡ Some instant) }
        ensures err { IfErr result (λ e. (fault_of e ≡ unsupported) ⊎ refuses_seconds self.now _n.now (fault_of e)) }
    {
        Err(no_settings())
    }
}

/// What a codec says of the documents that it reads.
#[derive(Debug, Drop)]
pub struct DocumentCoercion {
    /// The identifier of the protocol.
    pub protocol_id: CowStr<'static>,
    /// The form of instants without one of their own.
    pub default_timestamp_format: Format,
}

pub(crate) fn no_settings() -> DocumentError
    ensures { fault_of result ≡ unsupported }
{
    DocumentError::unsupported(CowStr::Borrowed("no settings say what stands here"))
}

// The instant of so many whole seconds.
pub(crate) fn instant_of_seconds(n: Number) -> Result<DateTime, DocumentError>
    ensures ok { IfOk result (λ instant. seconds_of_number n ≡ Some instant) }
    ensures err { IfErr result (λ e. (fault_of e ≡ invalid_input) × (seconds_of_number n ≡ None)) }
{
    match i64::try_from(n) {
        Ok(seconds) => Ok(DateTime::from_secs(seconds)),
        Err(_) => Err(DocumentError::invalid_input(CowStr::Borrowed("the seconds leave 64 bits"))),
    }
}

impl DocumentSettings for DocumentCoercion {
    ghost use Rattle.std.specs.Cow.{cow_str_bytes};
    ghost use Rattle.smithy_texts.specs.Base64Text.{blob_of};
    ghost use Rattle.smithy_instants.specs.DateText.{date_of};
    ghost use Rattle.smithy_types.specs.Coercion.{coercion_of, means, refused, blob_by, date_by, seconds_by};

    ghost id = { λ c. cow_str_bytes c.protocol_id };

    ghost blob = { λ c s. blob_of s };

    ghost date = { λ c s. date_of (date_form c.default_timestamp_format) s };

    ghost seconds = { λ c n. seconds_of_number n };

    ghost refuses_blob = { λ c s fault. (fault ≡ no_memory) ⊎ (blob_by (coercion_of c) s ≡ refused fault) };

    ghost refuses_date = { λ c s fault. date_by (coercion_of c) s ≡ refused fault };

    ghost refuses_seconds = { λ c n fault. seconds_by c.default_timestamp_format n ≡ refused fault };

    fn protocol_id(&self) -> &str {
        self.protocol_id.as_str()
    }

    fn coerce_string_to_blob(&self, alloc: Global, s: &str) -> Result<Vec<u8>, DocumentError>
        ensures sound { IfOk result (λ bytes. blob_of s.now ≡ Some bytes.items) }
        ensures ok { IfOk result (λ bytes. blob_by (coercion_of self.now) s.now ≡ means bytes.items) }
        ensures err { IfErr result (λ e. (fault_of e ≡ no_memory) ⊎ (blob_by (coercion_of self.now) s.now ≡ refused (fault_of e))) }
    {
        match decode(alloc, s) {
            Ok(bytes) => Ok(bytes),
            Err(DecodeError::Invalid) => Err(DocumentError::invalid_input(CowStr::Borrowed(
                "the text is no padded base64",
            ))),
            Err(DecodeError::NoMemory) => Err(DocumentError::NoMemory),
        }
    }

    fn coerce_string_to_timestamp(&self, s: &str) -> Result<DateTime, DocumentError>
        ensures sound { IfOk result (λ instant. date_of (date_form self.now.default_timestamp_format) s.now ≡ Some instant) }
        ensures ok { IfOk result (λ instant. date_by (coercion_of self.now) s.now ≡ means instant) }
        ensures err { IfErr result (λ e. date_by (coercion_of self.now) s.now ≡ refused (fault_of e)) }
    {
        match DateTime::from_str(s, date_form(self.default_timestamp_format)) {
            Ok(instant) => Ok(instant),
            Err(_) => Err(DocumentError::invalid_input(CowStr::Borrowed(
                "the text is no date of the form",
            ))),
        }
    }

    fn coerce_number_to_timestamp(&self, n: &Number) -> Result<DateTime, DocumentError>
        ensures sound { IfOk result (λ instant. seconds_of_number n.now ≡ Some instant) }
        ensures ok { IfOk result (λ instant. seconds_by self.now.default_timestamp_format n.now ≡ means instant) }
        ensures err { IfErr result (λ e. seconds_by self.now.default_timestamp_format n.now ≡ refused (fault_of e)) }
    {
        match self.default_timestamp_format {
            Format::EpochSeconds => instant_of_seconds(*n),
            _ => Err(no_settings()),
        }
    }
}

// The form of texts that stand for instants.
fn date_form(form: Format) -> Format
    ensures { result ≡ date_form form }
{
    match form {
        Format::HttpDate => Format::HttpDate,
        _ => Format::DateTimeWithOffset,
    }
}
