//! What an error answer says of its error.
ghost use Rattle.std.specs.Prelude.{◌≡◌, IfOk, IfErr, codes, option_map, string_bytes};
ghost use Rattle.smithy_schema.specs.declared.error.SerdeError.TheVariants.{InvalidInput, NoMemory};
ghost use Rattle.smithy_error_bodies.specs.declared.error_body.ErrorBodyFault.TheVariants as body;
ghost use Rattle.smithy_error_metadata.specs.Metadata.{no_metadata};
ghost use Rattle.smithy_protocol.specs.ErrorCode.{error_code};
ghost use Rattle.smithy_protocol.specs.Headers.{value_under};
ghost use Rattle.smithy_protocol.specs.ErrorAnswers.{compatible_error, by_header, metadata_of};

use crate::error_code::{parse_query_compatible_header, sanitize_error_code};
use crate::headers::Headers;
use smithy_error_bodies::ErrorBodyFault;
use smithy_error_metadata::{Builder, ErrorMetadata};
use smithy_schema::SerdeError;
use std::alloc::{AllocError, Global};

// Why an answer can't be read, by what is wrong with its body.
pub(crate) fn refused(fault: ErrorBodyFault) -> SerdeError
    ensures invalid { fault ≡ body.InvalidInput → result ≡ InvalidInput }
    ensures memory { fault ≡ body.NoMemory → result ≡ NoMemory }
{
    match fault {
        ErrorBodyFault::InvalidInput => SerdeError::InvalidInput,
        ErrorBodyFault::NoMemory => SerdeError::NoMemory,
    }
}

// The code and the type that a header for callers of AWS Query has.
fn compatible_error(headers: &Headers) -> Option<(&str, &str)>
    ensures { option_map (λ parts. (parts.0.now, parts.1.now)) result ≡ compatible_error (value_under (codes "x-amzn-query-error") headers.now) }
{
    parse_query_compatible_header(headers.get("x-amzn-query-error")?)
}

fn with_message(message: Option<String>) -> Builder
    ensures { result.metadata ≡ record no_metadata { message = option_map string_bytes message } }
{
    match message {
        Some(message) => ErrorMetadata::builder().message(message),
        None => ErrorMetadata::builder(),
    }
}

fn with_code(
    alloc: Global,
    message: Option<String>,
    code: Option<&str>,
) -> Result<Builder, AllocError>
    ensures { IfOk result (λ b. b.metadata ≡ record no_metadata { code = option_map error_code (option_map (λ c. c.now) code.entry); message = option_map string_bytes message }) }
{
    let builder = with_message(message);
    match code {
        Some(code) => Ok(builder.code(String::from_str(alloc, sanitize_error_code(code))?)),
        None => Ok(builder),
    }
}

// The metadata of this code and this message, where no header counts over the code.
pub(crate) fn error_builder(
    alloc: Global,
    headers: &Headers,
    code: Option<&str>,
    message: Option<String>,
) -> Result<Builder, AllocError>
    ensures { IfOk result (λ b. b.metadata ≡ metadata_of headers.now (option_map (λ c. c.now) code.entry) (option_map string_bytes message)) }
{
    let Some((query_code, kind)) = compatible_error(headers) else {
        return with_code(alloc, message, code);
    };
    let builder = with_code(alloc, message, None)?;
    let builder = builder.code(String::from_str(alloc, query_code)?);
    let key = String::from_str(alloc, "type")?;
    builder.custom(alloc, key, String::from_str(alloc, kind)?)
}
