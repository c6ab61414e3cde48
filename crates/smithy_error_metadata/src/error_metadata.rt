//! What an error answer says of its error.
ghost use Rattle.std.specs.Prelude.{◌≡◌, IfOk, OnOk, option_map, string_bytes};
ghost use Rattle.smithy_error_metadata.specs.Metadata.{Metadata, no_metadata, texts_of, extras_of, extra_under, same_values, with_extra};

use std::alloc::{AllocError, Global};
use std::collections::BTreeMap;
use std::marker::Model;

/// The code and the message of an error, and further values by their names.
#[derive(Debug, Drop)]
pub struct ErrorMetadata {
    code: Option<String>,
    message: Option<String>,
    // None where there is none: an empty map would have an allocator.
    extras: Option<BTreeMap<String, String>>,
}

impl Model for ErrorMetadata {
    ghost use Rattle.std.specs.Prelude.{option_map, string_bytes};
    ghost use Rattle.smithy_error_metadata.specs.Metadata.{Metadata, extras_of};

    ghost Value = { Metadata };

    ghost view = { λ m. record {
      code = option_map string_bytes m.code;
      message = option_map string_bytes m.message;
      extras = extras_of m.extras;
    } };
}

/// What an answer says that says nothing.
pub const EMPTY_ERROR_METADATA: ErrorMetadata = ErrorMetadata {
    code: None,
    message: None,
    extras: None,
};

/// What tells of an error by its metadata.
pub trait ProvideErrorMetadata {
    // The metadata, as contracts see them.
    ghost metadata: { Self → Metadata };

    /// The metadata.
    fn meta(&self) -> &ErrorMetadata
        ensures { result.now ≡ metadata self.now };

    /// The code.
    fn code(&self) -> Option<&str>
        ensures { option_map (λ text. text.now) result ≡ (metadata self.now).code }
    {
        self.meta().code()
    }

    /// The message.
    fn message(&self) -> Option<&str>
        ensures { option_map (λ text. text.now) result ≡ (metadata self.now).message }
    {
        self.meta().message()
    }
}

impl ProvideErrorMetadata for ErrorMetadata {
    ghost metadata = { λ m. m };

    fn meta(&self) -> &ErrorMetadata {
        self
    }
}

impl Default for ErrorMetadata {
    ghost is_default = { λ m. m ≡ no_metadata };

    fn default() -> ErrorMetadata {
        EMPTY_ERROR_METADATA
    }
}

// The same further values.
fn same_values(a: &Option<BTreeMap<String, String>>, b: &Option<BTreeMap<String, String>>) -> bool
    ensures { result ≡ same_values (extras_of a.now) (extras_of b.now) }
{
    let Some(a) = a else {
        let Some(b) = b else {
            return true;
        };
        return b.is_empty();
    };
    let Some(b) = b else {
        return a.is_empty();
    };
    a == b
}

/// The same code, the same message, and the same values under the same names.
impl PartialEq for ErrorMetadata {
    ghost use Rattle.std.specs.Cmp.{partial_equiv_from_equiv};
    ghost use Rattle.smithy_error_metadata.specs.Private.Equal.{metadata_equiv};
    ghost use Rattle.smithy_error_metadata.specs.Metadata.{same_metadata};

    ghost eq = { same_metadata };

    ghost laws = { partial_equiv_from_equiv metadata_equiv };

    fn eq(&self, other: &ErrorMetadata) -> bool {
        self.code == other.code
            && self.message == other.message
            && same_values(&self.extras, &other.extras)
    }
}

impl Eq for ErrorMetadata {
    ghost use Rattle.smithy_error_metadata.specs.Private.Equal.{metadata_equiv};

    ghost laws = { metadata_equiv };
}

impl ErrorMetadata {
    ghost use Rattle.std.specs.Prelude.{◌≡◌, IfOk, option_map};
    ghost use Rattle.smithy_error_metadata.specs.Metadata.{no_metadata, extra_under};

    /// A builder without any part.
    pub fn builder() -> Builder
        ensures { result.metadata ≡ no_metadata }
    {
        Builder {
            metadata: EMPTY_ERROR_METADATA,
        }
    }

    /// The builder that these parts are in.
    pub fn into_builder(self) -> Builder
        ensures { result.metadata ≡ self }
    {
        Builder { metadata: self }
    }

    /// Equal metadata, in memory of its own.
    pub fn clone_in(&self, alloc: Global) -> Result<ErrorMetadata, AllocError>
        ensures { IfOk result (λ m. m ≡ self.now) }
    {
        Ok(ErrorMetadata {
            code: copy_of(alloc, &self.code)?,
            message: copy_of(alloc, &self.message)?,
            extras: copy_of_extras(&self.extras)?,
        })
    }

    /// The code.
    pub fn code(&self) -> Option<&str>
        ensures { option_map (λ text. text.now) result ≡ self.now.code }
    {
        self.code.as_deref()
    }

    /// The message.
    pub fn message(&self) -> Option<&str>
        ensures { option_map (λ text. text.now) result ≡ self.now.message }
    {
        self.message.as_deref()
    }

    /// The further value under a name.
    pub fn extra(&self, key: &str) -> Option<&str>
        ensures { option_map (λ text. text.now) result ≡ extra_under key.now self.now.extras }
    {
        extra_in(self.extras.as_ref()?, key)
    }
}

fn copy_of(alloc: Global, text: &Option<String>) -> Result<Option<String>, AllocError>
    ensures { IfOk result (λ t. option_map string_bytes t ≡ option_map string_bytes text.now) }
{
    match text {
        Some(text) => Ok(Some(String::from_str(alloc, text.as_str())?)),
        None => Ok(None),
    }
}

// A copy of the values that there are, with the same allocator.
fn copy_of_extras(
    extras: &Option<BTreeMap<String, String>>,
) -> Result<Option<BTreeMap<String, String>>, AllocError>
    ensures { IfOk result (λ m. extras_of m ≡ extras_of extras.now) }
{
    let Some(extras) = extras else {
        return Ok(None);
    };
    Ok(Some(extras.clone()?))
}

fn extra_in<'a>(extras: &'a BTreeMap<String, String>, key: &str) -> Option<&'a str>
    ensures { option_map (λ text. text.now) result ≡ extra_under key.now (texts_of extras.now.entries) }
{
    Some(extras.get(key)?)
}

// The values that there are, in a map to which more may come.
fn extras_or_new(
    alloc: Global,
    extras: Option<BTreeMap<String, String>>,
) -> BTreeMap<String, String>
    ensures { texts_of result.entries ≡ extras_of extras }
{
    match extras {
        Some(extras) => extras,
        None => BTreeMap::new(alloc),
    }
}

fn put_extra(
    extras: &mut BTreeMap<String, String>,
    key: String,
    value: String,
) -> Result<(), AllocError>
    ensures { OnOk result (texts_of extras.new.entries ≡ with_extra (string_bytes key) (string_bytes value) (texts_of extras.old.entries)) }
{
    extras.insert(key, value)?;
    Ok(())
}

/// Parts of an error's metadata. Of two calls for one part the last counts.
#[derive(Debug, Drop)]
pub struct Builder {
    metadata: ErrorMetadata,
}

impl Builder {
    ghost use Rattle.std.specs.Prelude.{◌≡◌, Some, IfOk, string_bytes};
    ghost use Rattle.smithy_error_metadata.specs.Metadata.{with_extra};

    /// Sets the code.
    pub fn code(self, code: String) -> Builder
        ensures { result.metadata ≡ record self.metadata { code = Some (string_bytes code) } }
    {
        Builder {
            metadata: ErrorMetadata {
                code: Some(code),
                message: self.metadata.message,
                extras: self.metadata.extras,
            },
        }
    }

    /// Sets the message.
    pub fn message(self, message: String) -> Builder
        ensures { result.metadata ≡ record self.metadata { message = Some (string_bytes message) } }
    {
        Builder {
            metadata: ErrorMetadata {
                code: self.metadata.code,
                message: Some(message),
                extras: self.metadata.extras,
            },
        }
    }

    /// Sets the value under a name.
    pub fn custom(self, alloc: Global, key: String, value: String) -> Result<Builder, AllocError>
        ensures { IfOk result (λ b. b.metadata ≡ record self.metadata { extras = with_extra (string_bytes key) (string_bytes value) self.metadata.extras }) }
    {
        let ErrorMetadata {
            code,
            message,
            extras,
        } = self.metadata;
        let mut extras = extras_or_new(alloc, extras);
        put_extra(&mut extras, key, value)?;
        Ok(Builder {
            metadata: ErrorMetadata {
                code,
                message,
                extras: Some(extras),
            },
        })
    }

    /// The metadata of these parts.
    pub fn build(self) -> ErrorMetadata
        ensures { result ≡ self.metadata }
    {
        self.metadata
    }
}

impl Default for Builder {
    ghost is_default = { λ b. b.metadata ≡ no_metadata };

    fn default() -> Builder {
        ErrorMetadata::builder()
    }
}
