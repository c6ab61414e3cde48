//! The heads of requests.
ghost use Rattle.std.specs.Prelude.{◌≡◌, [], IfOk, option_map, string_bytes};
ghost use Rattle.smithy_protocol.specs.Messages.{posted, message_of, text_of, target, operation_uri};

use crate::headers::Headers;
use crate::message::{ProtocolConfig, Request};
use std::alloc::{AllocError, Global};

// A request that posts a body, with the headers that say what the body is.
pub(crate) fn post(
    alloc: Global,
    uri: String,
    content_type: &str,
    body: Vec<u8>,
) -> Result<Request, AllocError>
    ensures { IfOk result (λ r. message_of r ≡ posted (string_bytes uri) content_type.now [] body.items) }
{
    let mut headers = Headers::new(alloc);
    headers.push(alloc, "Content-Type", content_type)?;
    let length = format!(in alloc; "{}", body.len())?;
    headers.push(alloc, "Content-Length", &length)?;
    Ok(Request {
        method: String::from_str(alloc, "POST")?,
        uri,
        headers,
        body,
    })
}

// The operation as its service knows it, by the prefix that is set or the name of the service.
pub(crate) fn target(
    alloc: Global,
    prefix: Option<&str>,
    config: &ProtocolConfig,
) -> Result<Option<String>, AllocError>
    ensures { IfOk result (λ t. text_of t ≡ target (option_map (λ p. p.now) prefix.entry) config.now) }
{
    let Some(service) = prefix.or(config.service_name.as_deref()) else {
        return Ok(None);
    };
    let Some(operation) = config.operation.as_deref() else {
        return Ok(None);
    };
    let name = format!(in alloc; "{service}.{operation}")?;
    Ok(Some(name))
}

// The address of an operation.
pub(crate) fn operation_uri(
    alloc: Global,
    endpoint: &str,
    config: &ProtocolConfig,
) -> Result<String, AllocError>
    ensures { IfOk result (λ uri. string_bytes uri ≡ operation_uri endpoint.now config.now) }
{
    if let Some(service) = &config.service_name {
        if let Some(operation) = &config.operation {
            return format!(in alloc; "/service/{service}/operation/{operation}");
        }
    }
    if endpoint.is_empty() {
        return String::from_str(alloc, "/");
    }
    String::from_str(alloc, endpoint)
}
