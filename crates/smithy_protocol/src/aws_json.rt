//! The protocols AWS JSON 1.0 and 1.1.
ghost use Rattle.std.specs.Prelude.{◌≡◌, ◌⊎◌, Ok, Err, false, IfOk, IfErr};
ghost use Rattle.smithy_schema.specs.declared.error.SerdeError.TheVariants.{NoMemory};
ghost use Rattle.smithy_shapes.specs.Site.{site_of};
ghost use Rattle.smithy_json_values.specs.Codec.{strict_settings, with_namespace};
ghost use Rattle.smithy_json_codec.specs.Cursor.{cursor_of, reader_settings_of};
ghost use Rattle.smithy_json_codec.specs.Writing.{fresh_state, json_after};
ghost use Rattle.smithy_wire.specs.Walking.{fresh_cursor};
ghost use Rattle.smithy_protocol.specs.Bodies.{HandsOut, IsJsonBody};
ghost use Rattle.smithy_error_bodies.specs.JsonErrors.{JsonSays};
ghost use Rattle.smithy_protocol.specs.ErrorAnswers.{json_metadata, SaysMetadata, IsRefusedAnswer};
ghost use Rattle.smithy_protocol.specs.Messages.{json_request, message_of, text_of};
ghost use Rattle.smithy_protocol.specs.Protocols.{content_type, protocol_name, client_settings, response_settings};

use crate::body::written_body;
use crate::error_answer::{error_builder, refused};
use crate::head::{post, target};
use crate::message::{ProtocolConfig, Request, Response};
use smithy_error_bodies::{ErrorBody, read_json_error};
use smithy_error_metadata::Builder;
use smithy_json_codec::{JsonCodec, JsonCodecSettings, JsonCodecSettingsBuilder, JsonDeserializer};
use smithy_schema::{Schema, SerdeError, SerializableStruct, ShapeId};
use std::alloc::Global;
use std::borrow::CowStr;
use std::marker::Model;

// Which of both protocols it is.
#[derive(Clone, Copy, Debug)]
enum Version {
    V1_0,
    V1_1,
}

fn content_type(version: Version) -> &'static str
    ensures { result.now ≡ content_type version }
{
    match version {
        Version::V1_0 => "application/x-amz-json-1.0",
        Version::V1_1 => "application/x-amz-json-1.1",
    }
}

fn protocol_name(version: Version) -> &'static str
    ensures { result.now ≡ protocol_name version }
{
    match version {
        Version::V1_0 => "aws.protocols#awsJson1_0",
        Version::V1_1 => "aws.protocols#awsJson1_1",
    }
}

// The settings of a client, in the making.
fn client_settings(version: Version) -> JsonCodecSettingsBuilder
    ensures { result ≡ client_settings version }
{
    JsonCodecSettings::builder()
        .use_json_name(false)
        .protocol_id(ShapeId::new(CowStr::Borrowed(protocol_name(version))))
}

// The body in JSON of a structure.
fn json_body<V: SerializableStruct>(
    alloc: Global,
    schema: &Schema<'_>,
    input: &V,
) -> Result<Vec<u8>, SerdeError>
    ensures ok { IfOk result (λ body. HandsOut json_after (λ s. s.out) V.adds (site_of schema.now) input.now (fresh_state (strict_settings false)) (Ok body.items)) }
    ensures err { IfErr result (λ e. HandsOut json_after (λ s. s.out) V.adds (site_of schema.now) input.now (fresh_state (strict_settings false)) (Err e)) }
    ensures canonical { IfOk result (λ body. IsJsonBody V.adds (site_of schema.now) input.now body.items) }
{
    let sink = JsonCodec::strict(false).create_serializer(alloc);
    written_body(sink, schema, input)
}

/// A protocol that posts a structure as JSON under the names of its members, and names the operation in a header.
#[derive(Debug, Drop)]
pub struct AwsJsonRpcProtocol {
    version: Version,
    target_prefix: Option<String>,
    // What makes the readers of responses.
    codec: JsonCodec,
    ghost of_client: { codec ≡ record (client_settings version) { default_namespace = codec.default_namespace } },
}

impl Model for AwsJsonRpcProtocol {
    ghost use Rattle.smithy_protocol.specs.Messages.{text_of};
    ghost use Rattle.smithy_protocol.specs.Protocols.{JsonProtocol};

    ghost Value = { JsonProtocol };

    ghost view = { λ p. record {
      version = p.version;
      target_prefix = text_of p.target_prefix;
      default_namespace = p.codec.default_namespace;
    } };
}

impl AwsJsonRpcProtocol {
    ghost use Rattle.std.specs.Prelude.{◌≡◌, Some, string_bytes};
    ghost use Rattle.smithy_protocol.specs.Protocols.{aws_json_1_0, aws_json_1_1};

    /// The protocol AWS JSON 1.0.
    pub fn aws_json_1_0() -> AwsJsonRpcProtocol
        ensures { result ≡ aws_json_1_0 }
    {
        AwsJsonRpcProtocol {
            version: Version::V1_0,
            target_prefix: None,
            codec: JsonCodec::new(client_settings(Version::V1_0).build()),
        }
    }

    /// The protocol AWS JSON 1.1.
    pub fn aws_json_1_1() -> AwsJsonRpcProtocol
        ensures { result ≡ aws_json_1_1 }
    {
        AwsJsonRpcProtocol {
            version: Version::V1_1,
            target_prefix: None,
            codec: JsonCodec::new(client_settings(Version::V1_1).build()),
        }
    }

    /// The protocol where operations go under this name in place of their service's.
    pub fn with_target_prefix(self, prefix: String) -> AwsJsonRpcProtocol
        ensures { result ≡ record self { target_prefix = Some (string_bytes prefix) } }
    {
        AwsJsonRpcProtocol {
            version: self.version,
            target_prefix: Some(prefix),
            codec: self.codec,
        }
    }

    /// The protocol where relative names of shapes in documents stand in this namespace.
    pub fn with_default_namespace(self, namespace: String) -> AwsJsonRpcProtocol
        ensures { result ≡ record self { default_namespace = Some (string_bytes namespace) } }
    {
        let settings = client_settings(self.version).default_namespace(namespace);
        AwsJsonRpcProtocol {
            version: self.version,
            target_prefix: self.target_prefix,
            codec: JsonCodec::new(settings.build()),
        }
    }

    /// The identifier of the protocol's trait.
    pub fn protocol_id(&self) -> &str
        ensures { result.now ≡ protocol_name self.now.version }
    {
        protocol_name(self.version)
    }

    /// The request that has a structure as its body. The operation goes into the header `X-Amz-Target` where the configuration has
    /// its name, and that of the service unless a prefix is set. The endpoint isn't looked at: the request goes to `/`. An error is want of
    /// memory, or what a serializer of JSON answers for the structure.
    pub fn serialize_request<V: SerializableStruct>(
        &self,
        alloc: Global,
        input: &V,
        input_schema: &Schema<'_>,
        _endpoint: &str,
        config: &ProtocolConfig,
    ) -> Result<Request, SerdeError>
        ensures head { IfOk result (λ r. message_of r ≡ json_request (content_type self.now.version) self.now.target_prefix config.now r.body.items) }
        ensures body { IfOk result (λ r. HandsOut json_after (λ s. s.out) V.adds (site_of input_schema.now) input.now (fresh_state (strict_settings false)) (Ok r.body.items)) }
        ensures canonical { IfOk result (λ r. IsJsonBody V.adds (site_of input_schema.now) input.now r.body.items) }
        ensures refused { IfErr result (λ e. (e ≡ NoMemory) ⊎ HandsOut json_after (λ s. s.out) V.adds (site_of input_schema.now) input.now (fresh_state (strict_settings false)) (Err e)) }
    {
        let body = json_body(alloc, input_schema, input)?;
        let uri = String::from_str(alloc, "/")?;
        let mut request = post(alloc, uri, content_type(self.version), body)?;
        if let Some(operation) = target(alloc, self.target_prefix.as_deref(), config)? {
            request.headers.push(alloc, "X-Amz-Target", &operation)?;
        }
        Ok(request)
    }

    /// A reader of the body of a response, of which nothing is read yet, under the settings of a client. Relative names of shapes in
    /// documents stand in the namespace that was set, or else in that of the configuration. It takes no memory.
    pub fn deserialize_response<'c, 'a>(
        &'c self,
        alloc: Global,
        response: &'a Response,
        config: &'c ProtocolConfig,
    ) -> JsonDeserializer<'c, 'a>
        ensures settings { reader_settings_of result ≡ with_namespace (text_of config.now.namespace) (response_settings self.now) }
        ensures fresh { cursor_of result ≡ fresh_cursor response.now.body.items }
    {
        let namespace = config.namespace.as_deref();
        self.codec
            .create_deserializer_with_namespace(alloc, &response.body, namespace)
    }

    /// What an error answer says. The code is that of the header `x-amzn-errortype`, else the one that the body has under `code`, else
    /// under `__type`, without its namespace and address; the message is that of the body. A header `x-amzn-query-error` with a `;`
    /// counts over the code, and its second part is the value `type` beside them. An error is want of memory, or `InvalidInput`, as
    /// `read_json_error` of smithy_error_bodies says of the body.
    pub fn parse_error_metadata(
        &self,
        alloc: Global,
        response: &Response,
    ) -> Result<Builder, SerdeError>
        ensures said { IfOk result (λ b. SaysMetadata JsonSays (json_metadata response.now.headers) response.now.body.items b.metadata) }
        ensures refused { IfErr result (IsRefusedAnswer JsonSays response.now.body.items) }
    {
        let body = match read_json_error(alloc, &response.body) {
            Ok(body) => body,
            Err(fault) => return Err(refused(fault)),
        };
        let ErrorBody { code, message } = body;
        let headers = &response.headers;
        let Some(named) = headers.get("x-amzn-errortype") else {
            return Ok(error_builder(alloc, headers, code.as_deref(), message)?);
        };
        Ok(error_builder(alloc, headers, Some(named), message)?)
    }
}
